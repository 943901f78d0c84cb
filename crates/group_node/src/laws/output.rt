//! The laws of a node's output.
ghost use Rattle.std.specs.Prelude.{◌≡◌, ◌≤◌, ℕ, List, length};
ghost use Rattle.std.specs.FinMap.{FinMap};
ghost use Rattle.std.specs.Ordering.{nat_cmp};
ghost use Rattle.pcode_file.specs.Parts.{Parts};
ghost use Rattle.pcode_machine.specs.Runs.{after_steps, out};
ghost use Rattle.paxos_msg.specs.declared.value.Value.{Value};
ghost use Rattle.paxos_learner.specs.Learner.{HasLearnedMore};
ghost use Rattle.paxos_learner.specs.Input.{learned_input};
ghost use Rattle.group_node.specs.Output.{IsReplay, no_progress, Progress, unreleased_of};

use paxos_learner::laws::input_grows;
use pcode_machine::laws::{run_is_after, same_run_on_longer_input};

/// When more is learned, the same steps were made, the machine is in the same configuration, and
/// the same bytes wait. A node that has just started has made its steps on any input.
pub fn learning_keeps_the_output()
    ensures replay { (old new : FinMap nat_cmp Value) (q : Progress) → HasLearnedMore old new →
        IsReplay (learned_input old) q → IsReplay (learned_input new) q }
    ensures waits { (old new : FinMap nat_cmp Value) (q : Progress) → HasLearnedMore old new
        → IsReplay (learned_input old) q
        → unreleased_of (learned_input new) q ≡ unreleased_of (learned_input old) q }
    ensures configuration { (old new : FinMap nat_cmp Value) (q : Progress) → HasLearnedMore old new
        → IsReplay (learned_input old) q
        → after_steps q.program (learned_input new) q.steps
        ≡ after_steps q.program (learned_input old) q.steps }
    ensures begins { (p : Parts) (x : List ℕ) → IsReplay x (no_progress p) }
{
    input_grows();
    same_run_on_longer_input();
    run_is_after();
}

/// No replay has released more bytes than its machine has written.
pub fn replays_release_what_is_written()
    ensures written { (x : List ℕ) (q : Progress) → IsReplay x q
        → q.released ≤ length (out q.program x q.steps) }
{}
