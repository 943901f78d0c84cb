//! The laws of endless runs: under one leading node and a fair network each of them goes on. A
//! *fair run* is here one that is led (`IsLed`) and fair (`IsFair`).
ghost use Rattle.std.specs.Prelude.{Contains, Some, ℕ, suc, ◌<◌, ◌≤◌, Bool, IsTrue, List, ◌≡◌};
ghost use Rattle.pcode_file.specs.Parts.{Parts};
ghost use Rattle.paxos_msg.specs.declared.message.Group.{Group};
ghost use Rattle.paxos_msg.specs.Ballots.{IsMajority};
ghost use Rattle.paxos_msg.specs.Fits.{IsGroup, IsNode};
ghost use Rattle.paxos_learner.specs.Input.{front_values, keys_in_order};
ghost use Rattle.group_protocol.specs.States.{IsSize};
ghost use Rattle.group_world.specs.declared.event.Event.{Event};
ghost use Rattle.group_world.specs.Event.{LeadsBy};
ghost use Rattle.group_world.specs.Group.{IsUp, new_world, World};
ghost use Rattle.group_world.specs.Member.{Member};
ghost use Rattle.group_node.specs.NodeCalls.{Running};
ghost use Rattle.paxos_msg.specs.declared.ballot.Ballot.{Ballot};
ghost use Rattle.paxos_msg.specs.Batches.{Vote};
ghost use Rattle.paxos_proposer.specs.Proposer.{next_of, Proposer};
ghost use Rattle.group_progress.specs.Fair.{AllHaveLearned, AllHoldPromise, AllIsRead, AllIsShown, Endless, FairRunsGoOn, HasFairRun, HasProposedPast, IsFair, LeadsAllPlaces, IsLed, KeepsPlaying, Later};
ghost use Rattle.group_progress.specs.Stuck.{HasStuckRun, HearsAll, HearsAllButSubmits, HearsAndTicks, IsLedCalmly, IsLedOpenly};
ghost use Rattle.group_progress.specs.GoingOn.{AllHaveRead};

use crate::laws::below::what_lies_below;

/// In each fair run all nodes of the majority promise the leading node's ballot, and from then on
/// none above it.
pub fn fair_runs_promise()
    ensures { (p : Parts) (group : Group) (events : List Event) (w : World) (members : ℕ → Bool)
        (leader : ℕ) (b : Ballot) (run : Endless w)
        → IsSize group.size → IsGroup group → LeadsBy (new_world p group) events w
        → IsMajority w.group.size members → IsLed members leader b run → IsFair members run
        → Later 0 (λ t. (u : ℕ) → t ≤ u → AllHoldPromise members b w.group.size (run.world u)) }
{
    what_lies_below();
}

/// In each fair run the node that campaigned comes to lead: it proposes under its ballot, and knows
/// that a majority has promised all places, from some moment on.
pub fn fair_runs_get_a_leader()
    ensures { (p : Parts) (group : Group) (events : List Event) (w : World) (members : ℕ → Bool)
        (leader : ℕ) (b : Ballot) (run : Endless w)
        → IsSize group.size → IsGroup group → LeadsBy (new_world p group) events w
        → IsMajority w.group.size members → IsLed members leader b run → IsFair members run
        → Later 0 (λ t. (among : ℕ → Bool) × IsMajority w.group.size among
        × ((u : ℕ) → t ≤ u → LeadsAllPlaces among b leader (run.world u))) }
{
    what_lies_below();
}

/// In each fair run what one node of the majority has read is read by each of them, from some
/// moment on.
pub fn fair_runs_spread_keys()
    ensures { (p : Parts) (group : Group) (events : List Event) (w : World) (members : ℕ → Bool)
        (leader : ℕ) (b : Ballot) (run : Endless w) (j n : ℕ) (m : Member) (q : Running)
        → IsSize group.size → IsGroup group → LeadsBy (new_world p group) events w
        → IsMajority w.group.size members → IsLed members leader b run → IsFair members run
        → IsNode w.group.size j → IsTrue (members j) → IsUp (run.world (suc n)) j m q
        → Later (suc n) (λ t. (u : ℕ) → t ≤ u → AllHaveRead members w.group.size
        (keys_in_order (front_values q.known.learner.learned)) (run.world u)) }
{
    what_lies_below();
}

/// In each fair run the leading node gets past the earlier votes that it keeps: from some moment on
/// its next place is above the place of each vote that it kept at a moment after its campaign.
pub fn fair_runs_propose()
    ensures { (p : Parts) (group : Group) (events : List Event) (w : World) (members : ℕ → Bool)
        (leader : ℕ) (b : Ballot) (run : Endless w) (n : ℕ) (m : Member) (q : Running)
        (proposer : Proposer) (vote : Vote)
        → IsSize group.size → IsGroup group → LeadsBy (new_world p group) events w
        → IsMajority w.group.size members → IsLed members leader b run → IsFair members run
        → IsUp (run.world (suc n)) leader m q → q.known.proposer ≡ Some proposer
        → Contains proposer.kept vote
        → Later (suc n) (λ t. (u : ℕ) → t ≤ u → HasProposedPast b vote.place (run.world u) leader) }
{
    what_lies_below();
}

/// In each fair run each place below the leading node's next one, at a moment after its campaign,
/// is learned by each node of the majority, from some moment on.
pub fn fair_runs_learn()
    ensures { (p : Parts) (group : Group) (events : List Event) (w : World) (members : ℕ → Bool)
        (leader : ℕ) (b : Ballot) (run : Endless w) (n : ℕ) (m : Member) (q : Running)
        (proposer : Proposer)
        → IsSize group.size → IsGroup group → LeadsBy (new_world p group) events w
        → IsMajority w.group.size members → IsLed members leader b run → IsFair members run
        → IsUp (run.world (suc n)) leader m q → q.known.proposer ≡ Some proposer
        → Later (suc n) (λ t. (u : ℕ) → t ≤ u
        → AllHaveLearned members w.group.size (next_of proposer) (run.world u)) }
{
    what_lies_below();
}

/// In each fair run each key that waits at a node of the majority is read by each of them, from
/// some moment on.
pub fn fair_runs_read()
    ensures { (p : Parts) (group : Group) (events : List Event) (w : World) (members : ℕ → Bool)
        (leader : ℕ) (b : Ballot) (run : Endless w) (n : ℕ)
        → IsSize group.size → IsGroup group → LeadsBy (new_world p group) events w
        → IsMajority w.group.size members → IsLed members leader b run → IsFair members run
        → AllIsRead members run n }
{
    what_lies_below();
}

/// In each run that is led, one of its nodes that runs and releases again and again shows what its
/// program writes on what it has read, in any number of steps below 2^64. Neither a majority nor a
/// fair network is needed.
pub fn led_runs_show()
    ensures { (p : Parts) (group : Group) (events : List Event) (w : World) (members : ℕ → Bool)
        (leader : ℕ) (b : Ballot) (run : Endless w) (i n : ℕ)
        → IsSize group.size → IsGroup group → LeadsBy (new_world p group) events w
        → IsLed members leader b run → IsTrue (members i) → KeepsPlaying i run
        → AllIsShown run i n }
{
    what_lies_below();
}

/// Fair runs go on. Let one node lead a majority in an endless run, let each node of it tick again
/// and again, and let what they send to each other be heard. Then each key that waits at one of
/// them is read by all of them. If a node of the majority also runs and releases again and again,
/// each byte that the program writes on what the node has read, in fewer than 2^64 steps, comes to
/// its console.
pub fn fair_runs_go_on()
    ensures { (p : Parts) (group : Group) → IsSize group.size → IsGroup group
        → FairRunsGoOn p group }
{
    what_lies_below();
}

/// Some run is led and fair, for each program and each group. No clause says that a key waits in
/// it, that a vote is kept, or that a node runs and releases again and again.
pub fn some_run_is_fair()
    ensures { (p : Parts) (group : Group) → IsSize group.size → IsGroup group → HasFairRun p group }
{
    what_lies_below();
}

/// Fair runs need ticks: in some run that is led, all that the nodes of the majority send to each
/// other is heard again and again, and yet none of them ever reads a key that waits. In the proof's
/// run nobody ticks.
pub fn fair_runs_need_ticks()
    ensures { (p : Parts) (group : Group) → IsSize group.size → IsGroup group
        → HasStuckRun IsLedCalmly HearsAll p group }
{
    what_lies_below();
}

/// Fair runs need Submits: in some run that is led, each node of the majority ticks again and again
/// and hears all that one of them sends to it but Submits, and none ever reads a key that waits.
pub fn fair_runs_need_submits()
    ensures { (p : Parts) (group : Group) → IsSize group.size → IsGroup group
        → HasStuckRun IsLedCalmly HearsAllButSubmits p group }
{
    what_lies_below();
}

/// Fair runs need peace: some run of a group of three or more is fair, and led but for what is
/// heard (`IsLedOpenly`): the leading node hears an old Prepare above its ballot. No node of the
/// majority ever reads a key that waits.
pub fn fair_runs_need_peace()
    ensures { (p : Parts) (group : Group) → IsSize group.size → IsGroup group → 1 < group.size
        → HasStuckRun IsLedOpenly HearsAndTicks p group }
{
    what_lies_below();
}
