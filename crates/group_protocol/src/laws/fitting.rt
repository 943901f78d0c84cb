//! What a node in its ranges sends has a spelling, and there is room for it, whatever was sent.
//! Each law is the contract of a function that does nothing.
ghost use Rattle.std.specs.Prelude.{◌≡◌, ◌-◌, ◌+◌, ◌<◌, ◌≤◌, ℕ, List, min, Option, Some, IfSome, length};
ghost use Rattle.std.specs.FinMap.{get};
ghost use Rattle.paxos_msg.specs.declared.ballot.Ballot.{Ballot};
ghost use Rattle.paxos_msg.specs.declared.message.Body.TheVariants.{Accept, Accepted, Ask, Prepare, Promise, Submit, Tell};
ghost use Rattle.paxos_msg.specs.declared.value.Value.{Value};
ghost use Rattle.paxos_msg.specs.Batches.{Body, Record, Vote};
ghost use Rattle.paxos_msg.specs.Bodies.{IsBody};
ghost use Rattle.paxos_msg.specs.Fits.{IsValue};
ghost use Rattle.paxos_acceptor.specs.declared.me.Me.{Me};
ghost use Rattle.paxos_acceptor.specs.Records.{IsRecord};
ghost use Rattle.paxos_proposer.specs.Proposer.{asks_after, IsPromisePart, next_of, next_value, heard_promise, proposed_at, Proposer, proposing};
ghost use Rattle.paxos_msg.specs.declared.limits.TheConstants.{LAST_ROUND, LAST_SERIAL, LAST_START, PLACES};
ghost use Rattle.group_protocol.specs.declared.limits.TheConstants.{MESSAGE_PACKETS, MOST_TOLD, MOST_WAITING, TICK_PACKETS};
ghost use Rattle.group_protocol.specs.Protocol.{on_message};
ghost use Rattle.group_protocol.specs.AcceptorResponses.{on_accept, on_prepare};
ghost use Rattle.group_protocol.specs.Known.{begun, on_typed, front, next_serial, Known, on_start};
ghost use Rattle.group_protocol.specs.LearnerResponses.{on_accepted, on_ask, on_tell};
ghost use Rattle.group_protocol.specs.ProposerResponses.{on_promise, on_submit, offer_after, on_campaign, on_refused, next_ballot};
ghost use Rattle.group_protocol.specs.Tick.{on_tick};
ghost use Rattle.group_protocol.specs.WaitingKeys.{batch_of, without_read};
ghost use Rattle.group_protocol.specs.Pump.{offer, Proposals, pump};
ghost use Rattle.group_protocol.specs.Ranges.{AreFit, IsFit, IsHeardFit, IsInRange, IsMember, IsOwnProposer};

use paxos_acceptor::laws::{
    greater_ballots_are_promised, promises_fit, starts_are_counted, votes_fit,
};
use paxos_learner::laws::{learned_stays, one_front, values_fit, window_holds};
use paxos_msg::laws::tests_are_exact;
use paxos_proposer::laws::{ballot_stays, what_goes_out_fits as accepts_fit};

/// A node that has just started is in its ranges, if its record is. It stays so, and each packet
/// has a spelling, whatever was sent: at a start, a typed character, a campaign, each tick, and
/// each message that has a spelling.
///
/// That is a start over a record with a start to spare, a typed character if fewer than 256 wait
/// and there is a serial to spare, and a campaign if there is a round and a place to spare.
pub fn what_goes_out_fits()
    ensures start { (me : Me) (r : Record) → IsMember me → IsRecord me.group.size r
        → r.starts < LAST_START → IsFit me (on_start me r) }
    ensures begun { (me : Me) (r : Record) → IsMember me → IsRecord me.group.size r
        → 0 < r.starts → IsInRange (begun me r) }
    ensures typed { (n : Known) (byte : ℕ) → IsInRange n → byte < 256
        → length n.waiting < MOST_WAITING
        → next_serial n < LAST_SERIAL + 1 → IsFit n.me (on_typed n byte) }
    ensures campaign { (n : Known) → IsInRange n → (next_ballot n).round < LAST_ROUND + 1
        → front n < PLACES → IsFit n.me (on_campaign n) }
    ensures tick { (n : Known) → IsInRange n → IsFit n.me (on_tick n) }
    ensures message { (n : Known) (j : ℕ) (body : Body) → IsInRange n → IsHeardFit n.me j body
        → IsFit n.me (on_message n j body) }
{
    responses_fit();
    accepts_fit();
    promises_fit();
    greater_ballots_are_promised();
    starts_are_counted();
    one_front();
    values_fit();
    window_holds();
}

/// A node stays in its ranges, and each packet has a spelling, at a message of each kind, before
/// the waiting keys below the front leave; and it stays in its ranges when they leave.
pub fn responses_fit()
    ensures prepare { (n : Known) (j from : ℕ) (b : Ballot) → IsInRange n
        → IsHeardFit n.me j (Prepare b from) → IsFit n.me (on_prepare n b from) }
    ensures promise { (n : Known) (j first upto : ℕ) (b : Ballot) (votes : List Vote) → IsInRange n
        → IsHeardFit n.me j (Promise b first upto votes)
        → IsFit n.me (on_promise n j b first upto votes) }
    ensures accept { (n : Known) (j s : ℕ) (b : Ballot) (v : Value) → IsInRange n
        → IsHeardFit n.me j (Accept b s v) → IsFit n.me (on_accept n b s v) }
    ensures accepted { (n : Known) (j s : ℕ) (b : Ballot) (v : Value) → IsInRange n
        → IsHeardFit n.me j (Accepted b s v) → IsFit n.me (on_accepted n j b s v) }
    ensures refused { (n : Known) (b promised : Ballot) → IsInRange n
        → IsFit n.me (on_refused n b promised) }
    ensures submit { (n : Known) (j : ℕ) (v : Value) → IsInRange n → IsHeardFit n.me j (Submit v)
        → IsFit n.me (on_submit n v) }
    ensures ask { (n : Known) (j from : ℕ) → IsInRange n → IsFit n.me (on_ask n j from) }
    ensures tell { (n : Known) (j s : ℕ) (v : Value) → IsInRange n → IsHeardFit n.me j (Tell s v)
        → IsFit n.me (on_tell n s v) }
    ensures gone { (n : Known) → IsInRange n → IsInRange (without_read n) }
{
    accepts_fit();
    ballot_stays();
    tests_are_exact();
    promises_fit();
    votes_fit();
    learned_stays();
    values_fit();
    window_holds();
}

/// Each packet by itself has a spelling: a Prepare under the proposer's ballot from any place, the
/// Accept of what it has proposed at a place, the Submit of the first waiting keys, an Ask from the
/// front, and a Tell of what is learned.
pub fn packets_fit()
    ensures prepare { (me : Me) (p : Proposer) (s : ℕ) → IsOwnProposer me p → s < PLACES
        → IsBody me.group.size me.node (Prepare p.ballot s) }
    ensures accept { (me : Me) (p : Proposer) (s : ℕ) (v : Value) → IsOwnProposer me p
        → proposed_at p s ≡ Some v → IsBody me.group.size me.node (Accept p.ballot s v) }
    ensures submit { (n : Known) (v : Value) → IsInRange n → batch_of n n.waiting ≡ Some v
        → IsBody n.me.group.size n.me.node (Submit v) }
    ensures ask { (n : Known) → IsInRange n → IsBody n.me.group.size n.me.node (Ask (front n)) }
    ensures tell { (n : Known) (s : ℕ) (v : Value) → IsInRange n → get n.learner.learned s ≡ Some v
        → IsBody n.me.group.size n.me.node (Tell s v) }
{
    accepts_fit();
    one_front();
}

/// A proposer stays the node's own after a part of a promise that has a spelling, and then asks on
/// from a place that a Prepare may have. It stays so after a proposal, after up to a number of
/// them, and after an offer, also after a pump; and each Accept has a spelling.
pub fn proposals_fit()
    ensures hears { (me : Me) (p : Proposer) (j : ℕ) (body : Body) → IsOwnProposer me p
        → IsPromisePart p.ballot body → IsHeardFit me j body
        → IsOwnProposer me (heard_promise p j body) }
    ensures asks { (me : Me) (p : Proposer) (j s : ℕ) (body : Body) → IsOwnProposer me p
        → asks_after p j body ≡ Some s → IsBody me.group.size me.node (Prepare p.ballot s) }
    ensures sends { (me : Me) (p : Proposer) (offered : Option Value) (v : Value)
        → IsOwnProposer me p → IfSome offered (IsValue me.group.size)
        → next_value p offered ≡ Some v
        → IsBody me.group.size me.node (Accept p.ballot (next_of p) v) }
    ensures stays { (me : Me) (p : Proposer) (offered : Option Value) → IsOwnProposer me p
        → IfSome offered (IsValue me.group.size)
        → IsOwnProposer me (proposing p (next_value p offered)) }
    ensures pump { (me : Me) (n : ℕ) (p : Proposer) → IsOwnProposer me p → AreFit me p (pump n p) }
    ensures offer { (me : Me) (p : Proposer) (v : Value) → IsOwnProposer me p
        → IsValue me.group.size v → AreFit me p (offer p v) }
    ensures offer_after { (me : Me) (pumped : Proposals) (v : Value)
        → IsOwnProposer me pumped.proposer → IsValue me.group.size v
        → AreFit me pumped.proposer (offer_after pumped v) }
{
    accepts_fit();
    ballot_stays();
}

/// No call sends more packets than an outbox holds: a campaign 1, a message at most 17, a tick at
/// most 43, an Ask at most 16. A pump makes no more proposals than it may, and an offer at most
/// one.
pub fn packets_are_few()
    ensures campaign { (n : Known) → length (on_campaign n).sends ≤ 1 }
    ensures message { (n : Known) (j : ℕ) (body : Body)
        → length (on_message n j body).sends ≤ MESSAGE_PACKETS }
    ensures tick { (n : Known) → IsInRange n → length (on_tick n).sends ≤ TICK_PACKETS }
    ensures ask { (n : Known) (j from : ℕ)
        → length (on_ask n j from).sends ≤ min MOST_TOLD (front n - from) }
    ensures pump { (n : ℕ) (p : Proposer) → length (pump n p).made ≤ n }
    ensures offer { (pumped : Proposals) (v : Value) → length (offer_after pumped v).made ≤ 1 }
{}
