//! What holds of a node's output over its starts, that a run in cycles is a process, and what is no
//! cycle of a run, as contracts of functions that do nothing.
ghost use Rattle.std.specs.Prelude.{◌≡◌, ◌+◌, ◌^◌, ◌<◌, ◌⊎◌, ◌++◌, ◌∷◌, List, Ok, Option, Result, length, max, ℕ};
ghost use Rattle.pcode_file.specs.Parts.{Parts};
ghost use Rattle.pcode_machine.specs.Runs.{AreComparable, IsOutput};
ghost use Rattle.paxos_acceptor.specs.declared.me.Me.{Me};
ghost use Rattle.group_node.specs.Output.{IsReplay, Progress};
ghost use Rattle.group_node.specs.NodeCalls.{running, unreleased_by};
ghost use Rattle.group_protocol.specs.declared.limits.TheConstants.{MOST_WAITING};
ghost use Rattle.group_wire.specs.declared.answers.Turned.{Turned};
ghost use Rattle.node_io.specs.declared.fault.GroupFault.{GroupFault};
ghost use Rattle.node_run.specs.declared.answering.Answered.{Answered};
ghost use Rattle.node_run.specs.declared.cycles.RunPlan.{RunPlan};
ghost use Rattle.node_run.specs.Course.{Surroundings};
ghost use Rattle.node_run.specs.Runs.{RunsInCycles, RunsNode};
ghost use Rattle.node_run.specs.Cycles.{AnswersKeyboard, ReleasesOutput, RunMoment, TakesTurn};
ghost use Rattle.node_run.specs.Output.{AreFirst, released_from};
ghost use Rattle.node_run.specs.ClosedKeyboards.{closed_with};

use group_node::Ran;
use group_wire::laws::deeds_go_on;
use paxos_acceptor::Store;
use pcode_machine::laws::{output_only_grows, prefixes_are_ordered};

/// What a start releases from number `seen` on continues what earlier starts have written. With 0
/// for `seen` it is the first bytes of the output. A later start gets the number of bytes that were
/// written (`console`). What it releases from there on, put behind them, is the first bytes of one
/// output: as many as were written before, or as that start released, whichever is more.
///
/// Premises: what was written is output of the program on the earlier input; of both learned inputs
/// one continues the other, as with two starts in one group.
pub fn consoles_go_on()
    ensures first { (x : List ℕ) (q : Progress) → IsReplay x q
        → AreFirst q.program x q.released (released_from 0 x q) }
    ensures output { (x : List ℕ) (q : Progress) → IsReplay x q
        → IsOutput q.program x (released_from 0 x q) }
    ensures goes_on { (x y console : List ℕ) (q : Progress) → AreComparable x y
        → IsOutput q.program x console → IsReplay y q
        → AreFirst q.program x (max (length console) q.released)
        (console ++ released_from (length console) y q)
        ⊎ AreFirst q.program y (max (length console) q.released)
        (console ++ released_from (length console) y q) }
    ensures output_again { (x y console : List ℕ) (q : Progress) → AreComparable x y
        → IsOutput q.program x console → IsReplay y q
        → IsOutput q.program x (console ++ released_from (length console) y q)
        ⊎ IsOutput q.program y (console ++ released_from (length console) y q) }
{
    output_only_grows();
    prefixes_are_ordered();
}

/// A run that is known as its cycles (`RunsInCycles`) is also one of a process (`RunsNode`), with
/// the same stores, plan, surroundings, output and result. Both end with the same node.
pub fn cycles_are_a_run<S: Store>()
    ensures { (me : Me) (program : Parts) (store end : S) (plan : RunPlan) (from to : Surroundings)
        (before after : Option (List ℕ)) (result : Result (Unit {0}) GroupFault)
        (h : RunsInCycles S.kind me program store end plan from to before after result)
        → (run : RunsNode S.kind me program store end plan from to before after result)
        × (run.last ≡ running h.final) }
{
    deeds_go_on::<S>();
}

/// What is no part of a cycle. A keyboard that counts looks is not left without one. One as
/// `closed_with` says does not stay as it is if it has a request, or bytes while the node has room
/// for one. If the machine has more to do after a turn, and less than 2^64 - 1 steps before it, its
/// progress has changed. If output waits, a release that succeeds changes the progress.
pub fn wrong_cycles<S: Store>()
    ensures bytes_left { (answer : Answered) (a b : RunMoment S) (byte : ℕ) (bytes : List ℕ)
        → length a.node.protocol.known.waiting < MOST_WAITING
        → a.around.keyboard ≡ closed_with (byte ∷ bytes) 0
        → b.around.keyboard ≡ a.around.keyboard → ¬ AnswersKeyboard S.kind answer a b }
    ensures request_left { (answer : Answered) (a b : RunMoment S) (bytes : List ℕ) (requests : ℕ)
        → 0 < requests → a.around.keyboard ≡ closed_with bytes requests
        → b.around.keyboard ≡ a.around.keyboard → ¬ AnswersKeyboard S.kind answer a b }
    ensures unseen { (answer : Answered) (a b : RunMoment S) (looks : ℕ)
        → a.around.keyboard.looks ≡ Some looks
        → b.around.keyboard.looks ≡ a.around.keyboard.looks → ¬ AnswersKeyboard S.kind answer a b }
    ensures no_steps { (begun : ℕ) (turned : Turned) (a b : RunMoment S) → turned.ran ≡ Ran.More
        → a.node.progress.steps + 1 < 2 ^ 64 → b.node.progress ≡ a.node.progress
        → ¬ TakesTurn S.kind begun turned a b }
    ensures output_left { (seen : ℕ) (a b : RunMoment S) (byte : ℕ) (bytes : List ℕ)
        → unreleased_by (running a.node) ≡ byte ∷ bytes → b.node.progress ≡ a.node.progress
        → ¬ ReleasesOutput seen a b (Ok tt) }
{}
