//! The laws of a learner, over the definitions alone: a message keeps what is learned, and the
//! input only grows at its end. Each law is the contract of a function that does nothing.
ghost use Rattle.std.specs.Prelude.{◌≡◌, ◌↔◌, ◌<◌, ◌≤◌, ◌++◌, ◌∷◌, [], ℕ, Contains, IsTrue, List, length, slice_get, true};
ghost use Rattle.std.specs.FinMap.{FinMap, get};
ghost use Rattle.std.specs.Ordering.{nat_cmp};
ghost use Rattle.indexmap.specs.IndexSet.{insert_key};
ghost use Rattle.paxos_msg.specs.declared.ballot.Ballot.{Ballot};
ghost use Rattle.paxos_msg.specs.declared.message.Body.TheVariants.{Accepted, Tell};
ghost use Rattle.paxos_msg.specs.declared.value.Value.{Value};
ghost use Rattle.paxos_msg.specs.Fits.{IsValue};
ghost use Rattle.paxos_msg.specs.Keys.{Key};
ghost use Rattle.paxos_msg.specs.Messages.{IsSaid, IsSent};
ghost use Rattle.paxos_msg.specs.Batches.{Sent};
ghost use Rattle.paxos_learner.specs.Backed.{IsLearnerBacked, Stays};
ghost use Rattle.paxos_learner.specs.Learner.{AreInWindow, HasLearnedMore, IsLearnerInRange, front_of, IsFront, Learner, new_learner, heard_accepted, heard_tell};
ghost use Rattle.paxos_learner.specs.Input.{firsts, front_values, has_key, input_of, is_learned, keys_in_order, learned_input, same_key, StandsIn, values_below};
ghost use Rattle.paxos_msg.specs.declared.limits.TheConstants.{LAST_PLACE, PLACES};

use paxos_msg::laws::tests_are_exact;

/// A learner that has heard nothing is backed. It stays so as more is sent, and when it hears an
/// Accepted or a Tell that was sent: each tallied node has sent its Accepted, and each learned
/// value was in a Tell, or accepted by a majority under one ballot, before the call that learned
/// it.
pub fn stays_backed()
    ensures begins { (sent : Sent) (size : ℕ) → IsLearnerBacked sent (new_learner size) }
    ensures accepted { (sent : Sent) (l : Learner) (i s : ℕ) (b : Ballot) (v : Value)
        → IsLearnerBacked sent l → IsSent sent i (Accepted b s v)
        → IsLearnerBacked sent (heard_accepted l i b s v).learner }
    ensures told { (sent : Sent) (l : Learner) (s : ℕ) (v : Value) → IsLearnerBacked sent l
        → IsSaid sent (Tell s v) → IsLearnerBacked sent (heard_tell l s v).learner }
    ensures later { (sent next : Sent) (l : Learner) → Stays sent next → IsLearnerBacked sent l
        → IsLearnerBacked next l }
{
    tests_are_exact();
}

/// No call removes or changes a learned value, or the size.
pub fn learned_stays()
    ensures accepted { (l : Learner) (i s : ℕ) (b : Ballot) (v : Value) →
        HasLearnedMore l.learned (heard_accepted l i b s v).learner.learned }
    ensures told { (l : Learner) (s : ℕ) (v : Value)
        → HasLearnedMore l.learned (heard_tell l s v).learner.learned }
    ensures size_accepted { (l : Learner) (i s : ℕ) (b : Ballot) (v : Value)
        → (heard_accepted l i b s v).learner.size ≡ l.size }
    ensures size_told { (l : Learner) (s : ℕ) (v : Value)
        → (heard_tell l s v).learner.size ≡ l.size }
{}

/// There is one front for each map, and the definition finds it. It does not fall when more is
/// learned. It is at most 65,536 if the learned places are at most 65,535 and less than 1,024 above
/// it.
pub fn one_front()
    ensures there { (learned : FinMap nat_cmp Value) → IsFront learned (front_of learned) }
    ensures one { (learned : FinMap nat_cmp Value) (front : ℕ) → IsFront learned front
        → front ≡ front_of learned }
    ensures rises { (old new : FinMap nat_cmp Value) → HasLearnedMore old new
        → front_of old ≤ front_of new }
    ensures few { (learned : FinMap nat_cmp Value) → AreInWindow learned
        → front_of learned ≤ PLACES }
{}

/// The values below a place at or below the front are as many as the place says, with the learned
/// one at each.
pub fn values_are_learned()
    ensures many { (learned : FinMap nat_cmp Value) (n : ℕ) → n ≤ front_of learned
        → length (values_below learned n) ≡ n }
    ensures at_place { (learned : FinMap nat_cmp Value) (n s : ℕ) → n ≤ front_of learned → s < n →
        slice_get (values_below learned n) s ≡ get learned s }
{}

/// The tests of keys hold exactly where their propositions do.
pub fn key_tests_are_exact()
    ensures has { (keys : List Key) (k : Key) → IsTrue (has_key keys k) ↔ Contains keys k }
    ensures learned { (learned : FinMap nat_cmp Value) (k : Key)
        → IsTrue (is_learned learned k) ↔ StandsIn learned k }
{}

/// Each key is read once, at its first place: one more key is added to those that are read, unless
/// it is among them. Two keys are the same exactly if all four fields are equal.
pub fn keys_are_read_once()
    ensures more { (keys : List Key) (k : Key)
        → firsts (keys ++ k ∷ []) ≡ insert_key same_key (firsts keys) k }
    ensures same { (k other : Key) → (same_key k other ≡ true) ↔ (k ≡ other) }
{}

/// More values give keys and input bytes that begin with those of fewer. When more is learned, the
/// values up to the front and the learned input only grow at their end.
pub fn input_grows()
    ensures keys { (values more : List Value)
        → (rest : List Key) × (keys_in_order (values ++ more) ≡ keys_in_order values ++ rest) }
    ensures bytes { (values more : List Value)
        → (rest : List ℕ) × (input_of (values ++ more) ≡ input_of values ++ rest) }
    ensures values { (old new : FinMap nat_cmp Value) → HasLearnedMore old new →
        (more : List Value) × (front_values new ≡ front_values old ++ more) }
    ensures learned { (old new : FinMap nat_cmp Value) → HasLearnedMore old new →
        (rest : List ℕ) × (learned_input new ≡ learned_input old ++ rest) }
{}

/// Learned places are at most 65,535 and less than 1,024 above the front: at first, and after each
/// call for a place of at most 65,535.
pub fn window_holds()
    ensures begins { (size : ℕ) → AreInWindow (new_learner size).learned }
    ensures accepted { (l : Learner) (i s : ℕ) (b : Ballot) (v : Value) → s ≤ LAST_PLACE
        → AreInWindow l.learned → AreInWindow (heard_accepted l i b s v).learner.learned }
    ensures told { (l : Learner) (s : ℕ) (v : Value) → s ≤ LAST_PLACE → AreInWindow l.learned →
        AreInWindow (heard_tell l s v).learner.learned }
{}

/// The values that are learned or tallied are in their ranges, if all that was heard is.
pub fn values_fit()
    ensures begins { (size : ℕ) → IsLearnerInRange (new_learner size) }
    ensures accepted { (l : Learner) (i s : ℕ) (b : Ballot) (v : Value) → IsValue l.size v
        → IsLearnerInRange l → IsLearnerInRange (heard_accepted l i b s v).learner }
    ensures told { (l : Learner) (s : ℕ) (v : Value) → IsValue l.size v → IsLearnerInRange l
        → IsLearnerInRange (heard_tell l s v).learner }
{}
