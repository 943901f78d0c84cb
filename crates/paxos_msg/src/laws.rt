//! The laws of the protocol, over its definitions alone. A function without a result is empty: its
//! contract is the law.

ghost use Rattle.std.specs.Prelude.{◌≡◌, ◌≢◌, ◌↔◌, ◌⊎◌, ◌<◌, ◌≤◌, ◌+◌, ◌*◌, ◌++◌, ◌∷◌, [], ℕ, Bool, true, false, IsTrue, IsSomeAnd, List, Option, Some, Contains, slice_get};
ghost use Rattle.paxos_msg.specs.declared.ballot.Ballot.{Ballot};
ghost use Rattle.paxos_msg.specs.declared.message.Body.TheVariants.{Accept, Ask, Prepare, Refused, Submit, Tell};
ghost use Rattle.paxos_msg.specs.Batches.{Body, Change, Grew, IsFree, MaySend, MaySendAll, Record, Sent, Vote};
ghost use Rattle.paxos_msg.specs.declared.record.Change.TheVariants.{Ballotted, Promise, Start};
ghost use Rattle.paxos_msg.specs.declared.value.Value.{Value};
ghost use Rattle.paxos_msg.specs.Ballots.{count_of, IsAtMost, IsBelow, IsMajority};
ghost use Rattle.paxos_msg.specs.Chosen.{IsChosen, IsChosenBy};
ghost use Rattle.paxos_msg.specs.Keys.{Key, keys_of};
ghost use Rattle.std.specs.Option.{option_to_list};
ghost use Rattle.paxos_msg.specs.declared.record.Record as v1_record;
ghost use Rattle.paxos_msg.specs.Fits.{IsValue};
ghost use Rattle.paxos_msg.specs.Growth as v1_growth;
ghost use Rattle.paxos_msg.specs.Messages as v1;
ghost use Rattle.paxos_msg.specs.Version1.{IsSingle};
ghost use Rattle.paxos_msg.specs.Migration.{as_batch, record_with, sent_with, single_keys};
ghost use Rattle.paxos_msg.specs.Messages.{IsAscending, IsPromised, IsSaid, IsSent, messages_of, kept_vote_at};
ghost use Rattle.paxos_msg.specs.ReadRecords.{AreRead, IsRead};
ghost use Rattle.paxos_msg.specs.Records.{changed, empty_record, IsSaved, MaySave, Stored, with_vote};
ghost use Rattle.paxos_msg.specs.Sending.{IsNoNewProposal, KnowsMore};
ghost use Rattle.paxos_msg.specs.Tests.{ballot_lt, is_majority, same_ballot, same_value};

use crate::ballot::Ballot;

/// Ballots are totally ordered. No ballot is below itself, and a ballot below another is below all
/// that the other is below. Of two ballots exactly one is below the other, or they are equal. A
/// ballot is at most another if it is below it or equal to it.
pub fn ballots_are_ordered()
    ensures irreflexive { (a : Ballot) → ¬ IsBelow a a }
    ensures transitive { (a b c : Ballot) → IsBelow a b → IsBelow b c → IsBelow a c }
    ensures one_of_three { (a b : Ballot) → IsBelow a b ⊎ (a ≡ b) ⊎ IsBelow b a }
    ensures never_both { (a b : Ballot) → IsBelow a b → ¬ IsBelow b a }
    ensures never_same { (a b : Ballot) → IsBelow a b → a ≢ b }
    ensures at_most { (a b : Ballot) → IsAtMost a b ↔ (IsBelow a b ⊎ (a ≡ b)) }
{}

/// Returns true if `a` is below `b`, by the comparison that the code uses.
pub fn is_below(a: Ballot, b: Ballot) -> bool
    ensures { IsTrue result ↔ IsBelow a b }
{
    a < b
}

/// Returns true if `a` is not above `b`, by the comparison that the code uses.
pub fn is_at_most(a: Ballot, b: Ballot) -> bool
    ensures { IsTrue result ↔ IsAtMost a b }
{
    a <= b
}

/// The tests that the rules use hold exactly where their propositions do.
pub fn tests_are_exact()
    ensures below { (a b : Ballot) → (ballot_lt a b ≡ true) ↔ IsBelow a b }
    ensures not_below { (a b : Ballot) → (ballot_lt a b ≡ false) ↔ IsAtMost b a }
    ensures same { (a b : Ballot) → (same_ballot a b ≡ true) ↔ (a ≡ b) }
    ensures same_values { (v w : Value) → (same_value v w ≡ true) ↔ (v ≡ w) }
    ensures majority { (size : ℕ) (members : ℕ → Bool)
        → (is_majority size members ≡ true) ↔ IsMajority size members }
{}

/// Two majorities of a group share a node of the group.
pub fn majorities_meet()
    ensures { (size : ℕ) (p q : ℕ → Bool) → IsMajority size p → IsMajority size q →
        (i : ℕ) × (0 < i) × (i ≤ size) × IsTrue (p i) × IsTrue (q i) }
{}

/// In a group of an even size a majority is more than half, so half is no majority. In a group of
/// an odd size it is at least half of one node more.
pub fn half_is_no_majority()
    ensures count { (size : ℕ) (members : ℕ → Bool)
        → IsMajority size members ↔ (size < 2 * count_of members size) }
    ensures even { (half : ℕ) (members : ℕ → Bool)
        → IsMajority (2 * half) members ↔ (half < count_of members (2 * half)) }
    ensures half { (half : ℕ) (members : ℕ → Bool) → count_of members (2 * half) ≡ half
        → ¬ IsMajority (2 * half) members }
    ensures odd { (half : ℕ) (members : ℕ → Bool) →
        IsMajority (2 * half + 1) members ↔ (half + 1 ≤ count_of members (2 * half + 1)) }
{}

/// A vote that is put at a place is found there, and no other place changes. Votes that ascend
/// still ascend after it. A vote that is found is one of the votes, at that place.
pub fn votes_are_by_place()
    ensures there { (votes : List Vote) (vote : Vote)
        → kept_vote_at (with_vote votes vote) vote.place ≡ Some vote }
    ensures elsewhere { (votes : List Vote) (vote : Vote) (s : ℕ) → s ≢ vote.place →
        kept_vote_at (with_vote votes vote) s ≡ kept_vote_at votes s }
    ensures ascending { (votes : List Vote) (vote : Vote) → IsAscending votes
        → IsAscending (with_vote votes vote) }
    ensures found { (votes : List Vote) (s : ℕ) (vote : Vote) → kept_vote_at votes s ≡ Some vote →
        Contains votes vote × (vote.place ≡ s) }
{}

/// The rules for messages of a node with record `r`. It may send a Prepare under its own ballot,
/// not above the promised one; a Refused of a lower ballot with the promised one; a Submit of keys
/// typed at it; an Ask always; a Tell of a value that it has learned. A value is free to propose if
/// it is a no-op or was submitted. `agreement` has the rules of Promise, Accept and Accepted.
pub fn sending_rules()
    ensures prepare { (size i from : ℕ) (typed : List Key) (learned : ℕ → Option Value)
        (sent : Sent) (r : Record) (b : Ballot)
        → MaySend size typed learned sent i r (Prepare b from)
        ↔ ((b.node ≡ i) × ((p : Ballot) × (r.promised ≡ Some p) × IsAtMost b p)) }
    ensures refused { (size i : ℕ) (typed : List Key) (learned : ℕ → Option Value) (sent : Sent)
        (r : Record) (b promised : Ballot)
        → MaySend size typed learned sent i r (Refused b promised)
        ↔ ((r.promised ≡ Some promised) × IsBelow b promised) }
    ensures submit { (size i : ℕ) (typed : List Key) (learned : ℕ → Option Value) (sent : Sent)
        (r : Record) (v : Value)
        → MaySend size typed learned sent i r (Submit v)
        ↔ ((keys_of v ≢ []) × ((key : Key) → Contains (keys_of v) key
        → (key.node ≡ i) × Contains typed key)) }
    ensures ask { (size i from : ℕ) (typed : List Key) (learned : ℕ → Option Value) (sent : Sent)
        (r : Record) → MaySend size typed learned sent i r (Ask from) }
    ensures tell { (size i s : ℕ) (typed : List Key) (learned : ℕ → Option Value) (sent : Sent)
        (r : Record) (v : Value)
        → MaySend size typed learned sent i r (Tell s v) ↔ (learned s ≡ Some v) }
    ensures free { (sent : Sent) (v : Value)
        → IsFree sent v ↔ ((v ≡ Value.Noop) ⊎ ((i : ℕ) × IsSent sent i (Submit v))) }
{}

/// The rules for saves of a node with record `r`. It may save a start always; a promise of a ballot
/// greater than the promised one; a vote for a proposed value, under a ballot that is not below the
/// promised one. A restart finds the record that was saved, or that record with one change whose
/// save failed.
pub fn saving_rules()
    ensures start { (sent : Sent) (r : Record) → MaySave sent r Start }
    ensures promise { (sent : Sent) (r : Record) (b : Ballot) →
        MaySave sent r (Promise b) ↔ ((p : Ballot) → r.promised ≡ Some p → IsBelow p b) }
    ensures vote { (sent : Sent) (r : Record) (s : ℕ) (b : Ballot) (v : Value)
        → MaySave sent r (Ballotted s b v)
        ↔ (IsSaid sent (Accept b s v) × ((p : Ballot) → r.promised ≡ Some p → IsAtMost p b)) }
    ensures found { (saved : Record) (failed : List Change) → Stored saved failed saved }
    ensures failed { (saved : Record) (failed : List Change) (change : Change)
        → Contains failed change → Stored saved failed (changed saved change) }
    ensures nothing_else { (saved found : Record) (failed : List Change) → Stored saved failed found
        → (found ≡ saved) ⊎ ((change : Change) × Contains failed change
        × (found ≡ changed saved change)) }
{}

/// A save that is allowed never lowers a promise. Only a start changes the number of starts, and
/// raises it by 1.
pub fn saves_only_raise()
    ensures promise { (sent : Sent) (r : Record) (change : Change) (p : Ballot)
        → MaySave sent r change → r.promised ≡ Some p
        → IsSomeAnd (changed r change).promised (λ q. IsAtMost p q) }
    ensures start { (r : Record) → (changed r Start).starts ≡ r.starts + 1 }
    ensures starts { (r : Record) (change : Change) → change ≢ Start
        → (changed r change).starts ≡ r.starts }
{}

/// Growth begins with nothing sent and empty records, in a group of any size. It goes on with each
/// message and each save that is allowed.
pub fn growth()
    ensures begins { (size : ℕ) (records : ℕ → Record) → ((i : ℕ) → records i ≡ empty_record)
        → Grew size [] records }
    ensures sends { (size i : ℕ) (typed : List Key) (learned : ℕ → Option Value) (sent : Sent)
        (records : ℕ → Record) (body : Body) → Grew size sent records
        → MaySend size typed learned sent i (records i) body
        → Grew size (sent ++ record { sender = i; body = body } ∷ []) records }
    ensures saves { (size i : ℕ) (sent : Sent) (records next : ℕ → Record) (change : Change)
        → Grew size sent records → MaySave sent (records i) change → IsSaved records i change next
        → Grew size sent next }
{}

/// As more is sent, a chosen value stays chosen, and a change that may be saved may still be saved.
/// A message that may be sent may still be sent, also when more was typed and learned. The
/// exception is a new proposal: it needs that nothing was proposed at its place under its ballot.
pub fn sent_only_grows()
    ensures chosen { (size s : ℕ) (sent more : Sent) (v : Value) →
        IsChosen size sent s v → IsChosen size (sent ++ more) s v }
    ensures saving { (sent more : Sent) (r : Record) (change : Change) →
        MaySave sent r change → MaySave (sent ++ more) r change }
    ensures sending { (size i : ℕ) (typed newer : List Key) (learned now : ℕ → Option Value)
        (sent more : Sent) (r : Record) (body : Body) → KnowsMore typed newer learned now
        → IsNoNewProposal sent i body → MaySend size typed learned sent i r body
        → MaySend size newer now (sent ++ more) i r body }
{}

/// Agreement. If the messages and the records grew from nothing, at most one value is chosen at a
/// place. No other value is proposed there under the ballot of that choice or a greater one. A
/// chosen value is a no-op or was submitted.
pub fn agreement()
    ensures one_value { (size s : ℕ) (sent : Sent) (records : ℕ → Record) (v w : Value) →
        Grew size sent records → IsChosen size sent s v → IsChosen size sent s w → v ≡ w }
    ensures kept { (size s : ℕ) (sent : Sent) (records : ℕ → Record) (b c : Ballot) (v w : Value)
        → Grew size sent records → IsChosenBy size sent b s v → IsSaid sent (Accept c s w)
        → IsAtMost b c → w ≡ v }
    ensures submitted { (size s : ℕ) (sent : Sent) (records : ℕ → Record) (v : Value) →
        Grew size sent records → IsChosen size sent s v → IsFree sent v }
{}

/// What the records of a majority say was chosen. Where a value is chosen at a place, it is the one
/// for which these nodes have voted there under the greatest ballot. So the values that are read
/// from place 0 on, up to the first place with none, begin with all that was chosen from place 0
/// on. Each of them is a no-op or was submitted.
pub fn records_tell_what_is_chosen()
    ensures chosen { (size s : ℕ) (sent : Sent) (records : ℕ → Record) (members : ℕ → Bool)
        (v : Value) (o : Option Value) → Grew size sent records → IsMajority size members
        → IsChosen size sent s v → IsRead members records s o → o ≡ Some v }
    ensures begins { (size : ℕ) (sent : Sent) (records : ℕ → Record) (members : ℕ → Bool)
        (chosen values : List Value) → Grew size sent records → IsMajority size members
        → ((s : ℕ) (v : Value) → slice_get chosen s ≡ Some v → IsChosen size sent s v)
        → AreRead members records values → (rest : List Value) × (values ≡ chosen ++ rest) }
    ensures submitted { (size s : ℕ) (sent : Sent) (records : ℕ → Record) (members : ℕ → Bool)
        (v : Value) → Grew size sent records → IsRead members records s (Some v)
        → IsFree sent v }
{}

/// The messages of one call, one after another, extend the growth. They may be sent in two halves,
/// the second after the first.
pub fn calls()
    ensures grew { (size i : ℕ) (typed : List Key) (learned : ℕ → Option Value) (sent : Sent)
        (records : ℕ → Record) (bodies : List Body) → Grew size sent records
        → MaySendAll size typed learned sent i (records i) bodies
        → Grew size (sent ++ messages_of i bodies) records }
    ensures halves { (size i : ℕ) (typed : List Key) (learned : ℕ → Option Value) (sent : Sent)
        (r : Record) (bodies more : List Body)
        → MaySendAll size typed learned sent i r (bodies ++ more)
        ↔ (MaySendAll size typed learned sent i r bodies
        × MaySendAll size typed learned (sent ++ messages_of i bodies) i r more) }
{}

/// A restart extends the growth, whichever record it finds, if the node was allowed to save each
/// change whose save failed.
pub fn restarts()
    ensures { (size i : ℕ) (sent : Sent) (records next : ℕ → Record) (failed : List Change)
        → Grew size sent records
        → ((change : Change) → Contains failed change → MaySave sent (records i) change)
        → Stored (records i) failed (next i) → ((j : ℕ) → j ≢ i → next j ≡ records j)
        → Grew size sent next }
{}

/// A migration extends the growth. In version 1 a value was a key or a no-op. With each key as a
/// batch of one, messages and records that grew then have grown now, and a value chosen then is
/// chosen now, so `agreement` covers the migration. A batch of one has its key. The values that fit
/// and have at most one key are those of version 1.
pub fn migration()
    ensures grew { (size : ℕ) (sent : v1.Sent (Option Key))
        (records : ℕ → v1_record.Record (Option Key)) → v1_growth.Grew single_keys size sent records
        → Grew size (sent_with as_batch sent) (λ i. record_with as_batch (records i)) }
    ensures chosen { (size s : ℕ) (sent : v1.Sent (Option Key)) (v : Option Key) →
        IsChosen size sent s v → IsChosen size (sent_with as_batch sent) s (as_batch v) }
    ensures keys { (v : Option Key) → keys_of (as_batch v) ≡ option_to_list v }
    ensures single { (size : ℕ) (v : Value) → IsValue size v
        → IsSingle v ↔ ((old : Option Key) × (v ≡ as_batch old)) }
{}

/// The law of agreement is not empty. In a group of three a typed key can be chosen. In a group of
/// five an acceptor can report to a greater ballot a vote under a smaller one, at a place above 0,
/// and the greater ballot choose the key of that vote.
pub fn possible()
    ensures chosen { (sent : Sent) × (records : ℕ → Record) × Grew 3 sent records
        × IsChosen 3 sent 0 (Value.Keys 2 1 1 (65 ∷ [])) }
    ensures retold { let lower : Ballot = record { round = 1; node = 1 } in
        let greater : Ballot = record { round = 2; node = 5 } in
        let key : Value = Value.Keys 4 1 1 (65 ∷ []) in
        (sent : Sent) × (records : ℕ → Record) × Grew 5 sent records
        × IsPromised sent 3 greater 3 (Some (record { place = 3; ballot = lower; value = key }))
        × IsChosenBy 5 sent greater 3 key }
{}
