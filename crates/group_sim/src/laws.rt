//! When a line of a script halts: the contract of a function that does nothing.
ghost use Rattle.std.specs.Prelude.{◌≡◌, ℕ, None, Some};
ghost use Rattle.group_protocol.specs.declared.packet.To.{To};
ghost use Rattle.group_world.specs.declared.event.Event.{Event};
ghost use Rattle.group_world.specs.declared.fault.WorldFault.{WorldFault};
ghost use Rattle.group_world.specs.declared.fault.WorldFault.TheVariants.{Memory};
ghost use Rattle.group_sim.specs.declared.simulation.ScriptHalt.{ScriptHalt};
ghost use Rattle.group_sim.specs.declared.simulation.ScriptHalt.TheVariants as halt;
ghost use Rattle.group_sim.specs.Moments.{DeliversOne, HappensAt, Moment, Shows};

/// An event that can happen is refused only as `Memory`, a delivery that can be made is not one too
/// many for a `settle`, and a `show` halts only at a failed write.
///
/// So none of these halts if it can be done, unless memory runs out or a write fails.
pub fn halts_have_a_cause()
    ensures refused { (number : ℕ) (e : Event) (a b c : Moment) (f : WorldFault)
        → HappensAt number e a (Ok tt) b → HappensAt number e a (Err (halt.For (Some f))) c
        → f ≡ Memory }
    ensures too_long { (number k i : ℕ) (to : To) (a b c : Moment) →
        DeliversOne number k to i a (Ok tt) b
        → ¬ DeliversOne number k to i a (Err (halt.For None)) c }
    ensures shown { (size : ℕ) (a b : Moment) (h : ScriptHalt) → Shows size a (Err h) b →
        h ≡ halt.Unwritten }
{}
