//! Laws of the deeds of a node on its wire, as facts about the definitions alone.
ghost use Rattle.std.specs.Prelude.{◌≡◌, ◌≢◌, ◌++◌, [], ◌∷◌, ℕ, length, List, None, Option, Some};
ghost use Rattle.pcode_file.specs.Parts.{Parts};
ghost use Rattle.paxos_msg.specs.declared.message.Body.TheVariants.{Ask};
ghost use Rattle.paxos_msg.specs.Batches.{Msg, Record};
ghost use Rattle.paxos_acceptor.specs.declared.me.Me.{Me};
ghost use Rattle.group_node.specs.Deeds.{Campaign, Crash, Deed, Hear, Idle, Press, Release, Run, Start, Tick};
ghost use Rattle.group_protocol.specs.Known.{next_serial};
ghost use Rattle.group_protocol.specs.Protocol.{on_message};
ghost use Rattle.group_protocol.specs.ProposerResponses.{last_round};
ghost use Rattle.group_node.specs.States.{NodeState};
ghost use Rattle.group_wire.specs.Arrivals.{Spells};
ghost use Rattle.group_node.specs.NodeCalls.{Running, unreleased_by};
ghost use Rattle.group_wire.specs.Doings.{DoesAll, DoesOnWire, Doing, Fails, FailsDeed, HasActed};
ghost use Rattle.group_wire.specs.Process.{IsProcess, Process};
ghost use Rattle.group_wire.specs.Traffic.{Traffic};

use paxos_acceptor::Store;

/// To do nothing is to do deeds without a prompt. Deeds, and then others, are deeds with the
/// prompts of both; and so it is where a save fails in the end.
pub fn deeds_go_on<S: Store>()
    ensures none { (n : NodeState S) (from : Option Traffic) → HasActed n n from from [] }
    ensures more { (old mid new : NodeState S) (from via to : Option Traffic) (p q : List Deed)
        → HasActed old mid from via p → HasActed mid new via to q
        → HasActed old new from to (p ++ q) }
    ensures fails { (old mid new : NodeState S) (from via to : Option Traffic) (p q : List Deed)
        → HasActed old mid from via p → Fails S.kind mid new via to q
        → Fails S.kind old new from to (p ++ q) }
{}

/// Deeds that no node does on its wire. It hears no message that the receive did not give, or that
/// its bytes do not spell. Nothing is typed at a tick, and nothing received; an idle node sends
/// nothing and stays as it was. A run or a release sends nothing, and a run learns nothing.
pub fn wrong_deeds()
    ensures hears_what_none_gave { (me : Me) (w v : Running) (m : Msg) (d : Doing) → d.given ≡ []
        → ¬ DoesOnWire me w (Hear m) d v }
    ensures hears_what_is_not_spelled { (me : Me) (w v : Running) (m : Msg) (d : Doing)
        (bytes : List ℕ) → d.given ≡ Some bytes ∷ [] → ¬ Spells me.group bytes m
        → ¬ DoesOnWire me w (Hear m) d v }
    ensures types_at_a_tick { (me : Me) (w v : Running) (d : Doing) → d.typed ≢ []
        → ¬ DoesOnWire me w Tick d v }
    ensures receives_at_a_tick { (me : Me) (w v : Running) (d : Doing) → d.given ≢ []
        → ¬ DoesOnWire me w Tick d v }
    ensures idle_sends { (me : Me) (w v : Running) (d : Doing) → d.sent ≢ []
        → ¬ DoesOnWire me w Idle d v }
    ensures idle_changes { (me : Me) (w v : Running) (d : Doing) → v ≢ w
        → ¬ DoesOnWire me w Idle d v }
    ensures run_sends { (me : Me) (w v : Running) (steps : ℕ) (d : Doing) → d.sent ≢ []
        → ¬ DoesOnWire me w (Run steps) d v }
    ensures run_learns { (me : Me) (w v : Running) (steps : ℕ) (d : Doing) → v.known ≢ w.known
        → ¬ DoesOnWire me w (Run steps) d v }
    ensures release_sends { (me : Me) (w v : Running) (d : Doing) → d.sent ≢ []
        → ¬ DoesOnWire me w Release d v }
{}

/// Deeds that come too late or too early. No byte is typed where 256 keys wait or the serials are
/// spent. No ballot begins after the last round. No byte is released where none waits. A node that
/// runs neither starts nor crashes by a deed of its own.
pub fn wrong_times()
    ensures press_at_256 { (me : Me) (w v : Running) (byte : ℕ) (d : Doing)
        → length w.known.waiting ≡ 256 → ¬ DoesOnWire me w (Press byte) d v }
    ensures press_without_serial { (me : Me) (w v : Running) (byte : ℕ) (d : Doing)
        → next_serial w.known ≡ 4294967296 → ¬ DoesOnWire me w (Press byte) d v }
    ensures campaign_after_the_last { (me : Me) (w v : Running) (d : Doing)
        → last_round w.known ≡ 4294967295 → ¬ DoesOnWire me w Campaign d v }
    ensures release_of_nothing { (me : Me) (w v : Running) (d : Doing)
        → unreleased_by w ≡ [] → ¬ DoesOnWire me w Release d v }
    ensures starts { (me : Me) (w v : Running) (r : Record) (d : Doing)
        → ¬ DoesOnWire me w (Start r) d v }
    ensures crashes { (me : Me) (w v : Running) (d : Doing) → ¬ DoesOnWire me w Crash d v }
{}

/// Ends that no process has. No save fails at a message whose response saves nothing, as at an Ask,
/// nor at a tick, a typed byte, a run or a release, so no process ends there by one; and where one
/// fails, nothing is sent. A process does not start over a record whose starts are spent, and
/// without a deed its node is the one that started.
pub fn wrong_ends()
    ensures fails_at_an_ask { (me : Me) (w : Running) (sender from : ℕ) (d : Doing)
        → ¬ FailsDeed me w (Hear (record { sender = sender; body = Ask from })) d }
    ensures fails_unsaved { (me : Me) (w : Running) (m : Msg) (d : Doing)
        → (on_message w.known m.sender m.body).saves ≡ None → ¬ FailsDeed me w (Hear m) d }
    ensures fails_at_a_tick { (me : Me) (w : Running) (d : Doing) → ¬ FailsDeed me w Tick d }
    ensures fails_at_a_press { (me : Me) (w : Running) (byte : ℕ) (d : Doing)
        → ¬ FailsDeed me w (Press byte) d }
    ensures fails_at_a_run { (me : Me) (w : Running) (steps : ℕ) (d : Doing)
        → ¬ FailsDeed me w (Run steps) d }
    ensures fails_at_a_release { (me : Me) (w : Running) (d : Doing) → ¬ FailsDeed me w Release d }
    ensures sends_at_a_failed_message { (me : Me) (w : Running) (m : Msg) (d : Doing)
        → d.sent ≢ [] → ¬ FailsDeed me w (Hear m) d }
    ensures sends_at_a_failed_campaign { (me : Me) (w : Running) (d : Doing)
        → d.sent ≢ [] → ¬ FailsDeed me w Campaign d }
    ensures starts_are_spent { (p : Parts) (me : Me) (process : Process) (last : Running)
        → process.loaded.starts ≡ 4294967295 → ¬ IsProcess p me process last }
    ensures nothing_done { (me : Me) (w v : Running) → v ≢ w → ¬ DoesAll me w [] v }
{}
