//! The laws of a proposer, over the definitions alone: the promises that it has heard let it send
//! its proposals. A law's function is empty, or calls other laws: its contract is the law.
ghost use Rattle.std.specs.Prelude.{◌≡◌, ◌≤◌, ◌++◌, [], ◌∷◌, ℕ, List, Option, Some, IfSome};
ghost use Rattle.paxos_msg.specs.declared.ballot.Ballot.{Ballot};
ghost use Rattle.paxos_msg.specs.Batches.{Body, IsFree, MaySend, Record, Sent, Vote};
ghost use Rattle.paxos_msg.specs.declared.message.Body.TheVariants.{Accept, Promise};
ghost use Rattle.paxos_msg.specs.declared.value.Value.{Value};
ghost use Rattle.paxos_msg.specs.Fits.{IsBallot, IsValue};
ghost use Rattle.paxos_msg.specs.Bodies.{IsBody};
ghost use Rattle.paxos_msg.specs.Keys.{Key};
ghost use Rattle.paxos_msg.specs.Messages.{IsSaid, IsSent};
ghost use Rattle.paxos_proposer.specs.Backed.{IsProposerBacked, IsQuietUnder};
ghost use Rattle.paxos_proposer.specs.States.{IsProposerInRange};
ghost use Rattle.paxos_proposer.specs.Proposer.{Proposer, proposer_after_part, new_proposer, next_of, next_value, heard_promise, proposal, proposed_at, proposing};
ghost use Rattle.paxos_msg.specs.declared.limits.TheConstants.{MOST_NODES, PLACES};

/// A proposer that has heard nothing is backed, if nothing was proposed under its ballot.
pub fn begins_backed()
    ensures { (sent : Sent) (b : Ballot) (from size : ℕ)
        → ((s : ℕ) (v : Value) → ¬ IsSaid sent (Accept b s v))
        → IsProposerBacked sent b.node (new_proposer b from size) }
{}

/// A proposer stays backed after any part of a promise under its ballot, in its ranges, that a node
/// with a number of at most 9 has sent, however late.
pub fn parts_keep_it_backed()
    ensures { (sent : Sent) (me j first upto : ℕ) (p : Proposer) (votes : List Vote) →
        IsProposerBacked sent me p → j ≤ MOST_NODES
        → IsBody p.size j (Promise p.ballot first upto votes) →
        IsSent sent j (Promise p.ballot first upto votes) →
        IsProposerBacked sent me (proposer_after_part p j first upto votes) }
{}

/// What a backed proposer proposes may be sent, and sent again, if the offered value is a no-op or
/// was submitted. Once its next proposal is sent, it is backed again.
pub fn proposals_may_be_sent()
    ensures sends { (typed : List Key) (learned : ℕ → Option Value) (sent : Sent) (me : ℕ)
        (r : Record) (p : Proposer) (offered : Option Value) (v : Value)
        → IsProposerBacked sent me p → IfSome offered (IsFree sent) → next_value p offered ≡ Some v
        → MaySend p.size typed learned sent me r (Accept p.ballot (proposal p v).place v) }
    ensures backed { (sent : Sent) (me : ℕ) (p : Proposer) (v : Value) → IsProposerBacked sent me p
        → IsProposerBacked (sent ++ record { sender = me; body = Accept p.ballot (next_of p) v }
        ∷ []) me (proposing p (Some v)) }
    ensures again { (typed : List Key) (learned : ℕ → Option Value) (sent : Sent) (me s : ℕ)
        (r : Record) (p : Proposer) (v : Value) → IsProposerBacked sent me p
        → proposed_at p s ≡ Some v → MaySend p.size typed learned sent me r (Accept p.ballot s v) }
{}

/// A proposer stays backed as more is sent, if nothing new is proposed under its ballot.
pub fn stays_backed()
    ensures { (sent next : Sent) (me : ℕ) (p : Proposer) → IsQuietUnder p.ballot sent next
        → IsProposerBacked sent me p → IsProposerBacked next me p }
{}

/// A new proposer is in its ranges if its ballot is and its first place is at most 65,536. It stays
/// so after a part under its ballot in its ranges, and after an own proposal if the offered value
/// is. Each Accept that it gives, or gives again, is then in its ranges, as a body of its ballot's
/// node.
pub fn what_goes_out_fits()
    ensures begins { (b : Ballot) (from size : ℕ) → IsBallot size b → from ≤ PLACES
        → IsProposerInRange (new_proposer b from size) }
    ensures parts { (j first upto : ℕ) (p : Proposer) (votes : List Vote) → IsProposerInRange p
        → IsBody p.size j (Promise p.ballot first upto votes)
        → IsProposerInRange (proposer_after_part p j first upto votes) }
    ensures proposes { (p : Proposer) (offered : Option Value) → IsProposerInRange p
        → IfSome offered (IsValue p.size) → IsProposerInRange (proposing p (next_value p offered)) }
    ensures sends { (p : Proposer) (offered : Option Value) (v : Value) →
        IsProposerInRange p → IfSome offered (IsValue p.size) → next_value p offered ≡ Some v →
        IsBody p.size p.ballot.node (Accept p.ballot (next_of p) v) }
    ensures again { (p : Proposer) (s : ℕ) (v : Value) → IsProposerInRange p
        → proposed_at p s ≡ Some v → IsBody p.size p.ballot.node (Accept p.ballot s v) }
{}

/// A proposer's ballot, its size and each proposal stay, whatever it hears and proposes.
pub fn ballot_stays()
    ensures parts { (p : Proposer) (j : ℕ) (body : Body) →
        ((heard_promise p j body).ballot ≡ p.ballot) × ((heard_promise p j body).size ≡ p.size) }
    ensures proposes { (p : Proposer) (o : Option Value) →
        ((proposing p o).ballot ≡ p.ballot) × ((proposing p o).size ≡ p.size) }
    ensures proposed { (p : Proposer) (j s : ℕ) (body : Body)
        → proposed_at (heard_promise p j body) s ≡ proposed_at p s }
    ensures longer { (p : Proposer) (o : Option Value) (s : ℕ) (v : Value) →
        proposed_at p s ≡ Some v → proposed_at (proposing p o) s ≡ Some v }
{}
