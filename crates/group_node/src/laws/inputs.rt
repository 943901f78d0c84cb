//! The input that a group has chosen.
ghost use Rattle.std.specs.Prelude.{◌≡◌, ◌++◌, ℕ, List};
ghost use Rattle.pcode_machine.specs.Runs.{IsPrefix};
ghost use Rattle.paxos_msg.specs.declared.value.Value.{Value};
ghost use Rattle.paxos_msg.specs.Batches.{Grew, Record, Sent};
ghost use Rattle.paxos_learner.specs.Input.{input_of};
ghost use Rattle.group_node.specs.Inputs.{AreChosen, IsInput};

use paxos_learner::laws::input_grows;
use paxos_msg::laws::{agreement, majorities_meet, sent_only_grows, tests_are_exact};
use pcode_machine::laws::prefixes_are_ordered;

/// What was sent chooses an input. If what was sent grew from nothing, there is only this one, the
/// input of any chosen values from place 0 on is a prefix of it, and it only grows at its end as
/// more is sent.
pub fn input_is_chosen()
    ensures there { (size : ℕ) (sent : Sent) → (x : List ℕ) × IsInput size sent x }
    ensures one { (size : ℕ) (sent : Sent) (records : ℕ → Record) (x y : List ℕ)
        → Grew size sent records → IsInput size sent x → IsInput size sent y → x ≡ y }
    ensures begins { (size : ℕ) (sent : Sent) (records : ℕ → Record) (values : List Value)
        (x : List ℕ) → Grew size sent records → AreChosen size sent values → IsInput size sent x
        → IsPrefix (input_of values) x }
    ensures grows { (size : ℕ) (sent more : Sent) (records : ℕ → Record) (x y : List ℕ)
        → Grew size (sent ++ more) records → IsInput size sent x → IsInput size (sent ++ more) y
        → IsPrefix x y }
{
    tests_are_exact();
    majorities_meet();
    agreement();
    sent_only_grows();
    input_grows();
    prefixes_are_ordered();
}
