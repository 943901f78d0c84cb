//! The law of each call of a node, over the definitions alone. If what was sent and typed backs a
//! node that is in its ranges, the call saves, learns and sends only what it may, and the node is
//! backed again. Each is the contract of a function that does nothing.
ghost use Rattle.std.specs.Prelude.{◌≡◌, ◌≢◌, ◌++◌, ◌∷◌, [], ℕ, List, Option, Some};
ghost use Rattle.std.specs.FinMap.{empty, FinMap, get};
ghost use Rattle.std.specs.Ordering.{nat_cmp};
ghost use Rattle.paxos_msg.specs.declared.value.Value.{Value};
ghost use Rattle.paxos_msg.specs.Batches.{Body, Grew, MaySend, Record, Sent};
ghost use Rattle.paxos_msg.specs.Chosen.{IsChosen};
ghost use Rattle.paxos_msg.specs.Keys.{Key, keys_of};
ghost use Rattle.paxos_acceptor.specs.declared.me.Me.{Me};
ghost use Rattle.paxos_acceptor.specs.Stores.{IsOneOf};
ghost use Rattle.group_protocol.specs.Backs.{Backs, IsRecordBacked};
ghost use Rattle.group_protocol.specs.Protocol.{on_message, response_to};
ghost use Rattle.group_protocol.specs.Known.{on_typed, Response, new_key, Known, on_start};
ghost use Rattle.group_protocol.specs.ProposerResponses.{on_campaign};
ghost use Rattle.group_protocol.specs.Tick.{on_tick};
ghost use Rattle.group_protocol.specs.Ranges.{IsInRange};
ghost use Rattle.group_protocol.specs.Steps.{AllChosen, AllTyped, messages_handed_out, IsDelivered, IsLawful, IsLawfulCall};

use paxos_acceptor::laws::{backing, promises_may_be_sent, votes_may_be_sent};
use paxos_learner::laws::{learned_stays, stays_backed as learner_stays_backed};
use paxos_msg::laws::{
    calls as sends_in_order, growth, saves_only_raise, sent_only_grows, tests_are_exact,
};
use paxos_proposer::laws::{
    ballot_stays, begins_backed, parts_keep_it_backed, proposals_may_be_sent,
    stays_backed as proposer_stays_backed,
};

/// The calls of a node that is in its ranges and backed are lawful: a typed character, which types
/// its key; a campaign; a tick; and a message of any kind that was sent and has a spelling, with
/// the waiting keys that leave after it. So is a start over any backed record: the first two parts
/// of `Backs` are enough.
pub fn calls_are_lawful()
    ensures start { (sent : Sent) (typed : List Key) (me : Me) (r : Record)
        → IsRecordBacked sent me.node r → IsLawful sent typed r empty (on_start me r) }
    ensures typed { (sent : Sent) (typed : List Key) (n : Known) (byte : ℕ) → IsInRange n
        → Backs sent typed n
        → IsLawfulCall sent (typed ++ keys_of (new_key n byte)) n (on_typed n byte) }
    ensures campaign { (sent : Sent) (typed : List Key) (n : Known) → IsInRange n
        → Backs sent typed n → IsLawfulCall sent typed n (on_campaign n) }
    ensures tick { (sent : Sent) (typed : List Key) (n : Known) → IsInRange n
        → Backs sent typed n → IsLawfulCall sent typed n (on_tick n) }
    ensures message { (sent : Sent) (typed : List Key) (n : Known) (j : ℕ) (body : Body)
        → IsInRange n → Backs sent typed n → IsDelivered sent n j body
        → IsLawfulCall sent typed n (on_message n j body) }
{
    responses_are_lawful();
    backing();
    proposer_stays_backed();
    learner_stays_backed();
    sends_in_order();
    sent_only_grows();
    saves_only_raise();
    proposals_may_be_sent();
    begins_backed();
}

/// A message of each kind that was sent and has a spelling is lawful at a node that is in its
/// ranges and backed, before the waiting keys below the front leave.
pub fn responses_are_lawful()
    ensures { (sent : Sent) (typed : List Key) (n : Known) (j : ℕ) (body : Body) → IsInRange n
        → Backs sent typed n → IsDelivered sent n j body
        → IsLawfulCall sent typed n (response_to n j body) }
{
    backing();
    proposer_stays_backed();
    learner_stays_backed();
    sends_in_order();
    sent_only_grows();
    tests_are_exact();
    saves_only_raise();
    promises_may_be_sent();
    votes_may_be_sent();
    parts_keep_it_backed();
    ballot_stays();
    proposals_may_be_sent();
    learned_stays();
}

/// What other nodes may send keeps a node backed, and the stored record of one that is down. So do
/// typed keys.
pub fn others_keep_it_backed()
    ensures sends { (sent : Sent) (typed known : List Key) (n : Known) (size j : ℕ)
        (learned : ℕ → Option Value) (r : Record) (body : Body) → j ≢ n.me.node
        → MaySend size known learned sent j r body → Backs sent typed n
        → Backs (sent ++ record { sender = j; body = body } ∷ []) typed n }
    ensures sends_record { (sent : Sent) (known : List Key) (me size j : ℕ)
        (learned : ℕ → Option Value) (own r : Record) (body : Body) → j ≢ me
        → MaySend size known learned sent j r body → IsRecordBacked sent me own
        → IsRecordBacked (sent ++ record { sender = j; body = body } ∷ []) me own }
    ensures types { (sent : Sent) (typed more : List Key) (n : Known) → Backs sent typed n
        → Backs sent (typed ++ more) n }
{
    backing();
    proposer_stays_backed();
    learner_stays_backed();
}

/// After a lawful call messages and records have still grown by allowed steps (`Grew`), on which
/// agreement rests. If all that Tells have said is chosen, then what the node learns, and what its
/// Tells say, is chosen. If all that was submitted was typed, so is what it submits. A save that
/// failed, with nothing sent, leaves a backed record.
pub fn lawful_calls_go_on()
    ensures grew { (sent : Sent) (typed : List Key) (records next : ℕ → Record)
        (before : FinMap nat_cmp Value) (done : Response)
        → Grew done.node.me.group.size sent records
        → IsLawful sent typed (records done.node.me.node) before done
        → next done.node.me.node ≡ done.node.kept
        → ((j : ℕ) → j ≢ done.node.me.node → next j ≡ records j)
        → Grew done.node.me.group.size
        (sent ++ messages_handed_out done.node.me.node done.sends) next }
    ensures learned { (sent : Sent) (typed : List Key) (old : Record)
        (before : FinMap nat_cmp Value) (done : Response) → AllChosen done.node.me.group.size sent
        → IsInRange done.node → IsLawful sent typed old before done → (s : ℕ) (v : Value)
        → get done.node.learner.learned s ≡ Some v → IsChosen done.node.me.group.size sent s v }
    ensures told { (sent : Sent) (typed : List Key) (old : Record) (before : FinMap nat_cmp Value)
        (done : Response) → AllChosen done.node.me.group.size sent → IsInRange done.node
        → IsLawful sent typed old before done
        → AllChosen done.node.me.group.size
        (sent ++ messages_handed_out done.node.me.node done.sends) }
    ensures submitted { (sent : Sent) (typed : List Key) (old : Record)
        (before : FinMap nat_cmp Value) (done : Response) → AllTyped sent typed
        → IsLawful sent typed old before done
        → AllTyped (sent ++ messages_handed_out done.node.me.node done.sends) typed }
    ensures saved { (sent : Sent) (typed : List Key) (old left : Record)
        (before : FinMap nat_cmp Value) (done : Response)
        → IsRecordBacked sent done.node.me.node old → IsLawful sent typed old before done
        → IsOneOf left old done.node.kept → IsRecordBacked sent done.node.me.node left }
{
    growth();
    sends_in_order();
    sent_only_grows();
    backing();
    saves_only_raise();
}
