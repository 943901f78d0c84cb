//! The laws of an acceptor, over the definitions alone: its answer may be sent, over the record
//! after its save. Each function is empty: its contract is the law.
ghost use Rattle.std.specs.Prelude.{◌≡◌, ◌≢◌, ◌+◌, ◌++◌, ◌<◌, ◌⊎◌, ℕ, List, Option, Some, IfSome};
ghost use Rattle.paxos_msg.specs.declared.ballot.Ballot.{Ballot};
ghost use Rattle.paxos_msg.specs.declared.message.Body.TheVariants.{Accept};
ghost use Rattle.paxos_msg.specs.Ballots.{IsBelow};
ghost use Rattle.paxos_msg.specs.Batches.{Change, MaySend, Record, Sent};
ghost use Rattle.paxos_msg.specs.declared.record.Change.TheVariants.{Ballotted, Promise, Start};
ghost use Rattle.paxos_msg.specs.declared.value.Value.{Value};
ghost use Rattle.paxos_msg.specs.Fits.{IsBallot, IsPlace, IsValue};
ghost use Rattle.paxos_msg.specs.Bodies.{IsBody};
ghost use Rattle.paxos_msg.specs.Keys.{Key};
ghost use Rattle.paxos_msg.specs.Messages.{IsAscending, IsSaid};
ghost use Rattle.paxos_msg.specs.Records.{changed, empty_record, MaySave};
ghost use Rattle.paxos_acceptor.specs.Answers.{accept_of, after, prepare_of};
ghost use Rattle.paxos_acceptor.specs.Records.{HasBackedVotes, IsNext, IsRecord};
ghost use Rattle.paxos_acceptor.specs.Stores.{IsOneOf};
ghost use Rattle.paxos_msg.specs.declared.limits.TheConstants.{LAST_START};

use paxos_msg::laws::votes_are_by_place;

/// The empty record is backed by whatever was sent. A record stays backed after a start, after any
/// change that may be saved, and as more is sent.
pub fn backing()
    ensures empty { (sent : Sent) → HasBackedVotes sent empty_record }
    ensures later { (sent more : Sent) (r : Record) → HasBackedVotes sent r
        → HasBackedVotes (sent ++ more) r }
    ensures start { (sent : Sent) (r : Record) → HasBackedVotes sent r
        → HasBackedVotes sent (changed r Start) }
    ensures saved { (sent : Sent) (r : Record) (c : Change) → HasBackedVotes sent r
        → MaySave sent r c → HasBackedVotes sent (changed r c) }
{
    votes_are_by_place();
}

/// A Prepare under a ballot above the promised one, or where none is promised, is answered after a
/// save of its promise.
pub fn greater_ballots_are_promised()
    ensures { (r : Record) (b : Ballot) (from : ℕ) → IfSome r.promised (λ p. IsBelow p b)
        → (prepare_of r b from).saves ≡ Some (Promise b) }
{}

/// The change that the answer to a Prepare asks for may be saved. If the record is backed and in
/// its ranges, the answer may be sent over the record after the save. A backed record stays backed.
/// The ranges matter, since a part for all places covers only those below 65,536.
pub fn promises_may_be_sent()
    ensures saves { (sent : Sent) (r : Record) (b : Ballot) (from : ℕ)
        → IfSome (prepare_of r b from).saves (MaySave sent r) }
    ensures sends { (size i from : ℕ) (typed : List Key) (learned : ℕ → Option Value) (sent : Sent)
        (r : Record) (b : Ballot) → IsRecord size r → HasBackedVotes sent r
        → MaySend size typed learned sent i (after r (prepare_of r b from).saves)
        (prepare_of r b from).says }
    ensures backed { (sent : Sent) (r : Record) (b : Ballot) (from : ℕ) → HasBackedVotes sent r
        → HasBackedVotes sent (after r (prepare_of r b from).saves) }
{}

/// For an Accept that was sent, the change that its answer asks for may be saved. If the record is
/// backed, also out of its ranges, the answer may be sent over the record after the save, and it
/// stays backed.
pub fn votes_may_be_sent()
    ensures saves { (sent : Sent) (r : Record) (b : Ballot) (s : ℕ) (v : Value)
        → IsSaid sent (Accept b s v) → IfSome (accept_of r b s v).saves (MaySave sent r) }
    ensures sends { (size i s : ℕ) (typed : List Key) (learned : ℕ → Option Value) (sent : Sent)
        (r : Record) (b : Ballot) (v : Value) → HasBackedVotes sent r → IsSaid sent (Accept b s v)
        → MaySend size typed learned sent i (after r (accept_of r b s v).saves)
        (accept_of r b s v).says }
    ensures backed { (sent : Sent) (r : Record) (b : Ballot) (s : ℕ) (v : Value)
        → HasBackedVotes sent r → IsSaid sent (Accept b s v)
        → HasBackedVotes sent (after r (accept_of r b s v).saves) }
{
    votes_are_by_place();
}

/// If the record and the Prepare's ballot and place are in their ranges, so are the answer,
/// whichever node sends it, and the record after the save.
pub fn promises_fit()
    ensures says { (size i from : ℕ) (r : Record) (b : Ballot) → IsRecord size r → IsBallot size b
        → IsPlace from → IsBody size i (prepare_of r b from).says }
    ensures kept { (size from : ℕ) (r : Record) (b : Ballot) → IsRecord size r → IsBallot size b
        → IsPlace from → IsRecord size (after r (prepare_of r b from).saves) }
{}

/// If the record and the Accept's ballot, place and value are in their ranges, so are the answer,
/// whichever node sends it, and the record after the save.
pub fn votes_fit()
    ensures says { (size i s : ℕ) (r : Record) (b : Ballot) (v : Value) → IsRecord size r
        → IsBallot size b → IsPlace s → IsValue size v → IsBody size i (accept_of r b s v).says }
    ensures kept { (size s : ℕ) (r : Record) (b : Ballot) (v : Value) → IsRecord size r
        → IsBallot size b → IsPlace s → IsValue size v
        → IsRecord size (after r (accept_of r b s v).saves) }
{}

/// A start adds 1 to the starts, and no other change touches them. A failed save of it leaves the
/// same number or one more. Below 4,294,967,295 starts a record in its ranges stays so after one
/// more.
pub fn starts_are_counted()
    ensures one_more { (r : Record) → (changed r Start).starts ≡ r.starts + 1 }
    ensures others { (r : Record) (change : Change) → change ≢ Start
        → (changed r change).starts ≡ r.starts }
    ensures failed { (r left : Record) → IsOneOf left r (changed r Start)
        → (left.starts ≡ r.starts) ⊎ (left.starts ≡ r.starts + 1) }
    ensures fits { (size : ℕ) (r : Record) → IsRecord size r → r.starts < LAST_START
        → IsRecord size (changed r Start) }
{}

/// The votes of a record in its ranges ascend by place. It stays in its ranges after a promise and
/// after a vote in their ranges that can be made, that is, under no ballot below the promised one.
pub fn records_stay_in_ranges()
    ensures in_order { (size : ℕ) (r : Record) → IsRecord size r → IsAscending r.votes }
    ensures promise { (size : ℕ) (r : Record) (b : Ballot) → IsRecord size r
        → IsNext r (Promise b) → IsBallot size b → IsRecord size (changed r (Promise b)) }
    ensures vote { (size s : ℕ) (r : Record) (b : Ballot) (v : Value) → IsRecord size r
        → IsNext r (Ballotted s b v) → IsBallot size b → IsPlace s → IsValue size v
        → IsRecord size (changed r (Ballotted s b v)) }
{}
