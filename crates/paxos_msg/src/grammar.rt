//! The laws that tie the reading of bytes to their spelling. Each function is empty: its contract
//! is the law.
ghost use Rattle.std.specs.Prelude.{◌≡◌, ◌↔◌, ◌++◌, ◌<◌, ◌≤◌, ◌*◌, ◌^◌, ℕ, List, length, Ok};
ghost use Rattle.paxos_msg.specs.declared.ballot.Ballot.{Ballot};
ghost use Rattle.paxos_msg.specs.declared.value.Value.{Value};
ghost use Rattle.paxos_msg.specs.Batches.{Msg, Vote};
ghost use Rattle.paxos_msg.specs.declared.message.Group.{Group};
ghost use Rattle.paxos_msg.specs.Fits.{AreVotes, IsBallot, IsValue, AreBytes, IsGroup};
ghost use Rattle.paxos_msg.specs.Datagrams.{Fits, Msgs, spelling, message_at};
ghost use Rattle.paxos_msg.specs.Spelling.{ballot_bytes, number_bytes, value_bytes, votes_bytes};
ghost use Rattle.paxos_msg.specs.Reading.{ballot_at, number_at, value_at, votes_at};
ghost use Rattle.paxos_msg.specs.Version1.{IsSingle, value_at_v1, value_bytes_v1};
ghost use Rattle.paxos_msg.specs.declared.limits.TheConstants.{PLACES};

/// A datagram is read as a message exactly where the message fits and the datagram is its spelling.
pub fn reading_is_spelling()
    ensures read { (group : Group) (bytes : List ℕ) (m : Msg) → IsGroup group → AreBytes bytes
        → (message_at group bytes ≡ Ok m) ↔ Msgs group bytes m }
{}

/// The spelling of a message that fits is read as that message. No premise says that the numbers
/// are bytes.
#[tactic(auto, using(crate::proofs::MessagesRead::message_again))]
pub fn spelling_is_read()
    ensures read { (group : Group) (bytes : List ℕ) (m : Msg) → IsGroup group → Msgs group bytes m
        → message_at group bytes ≡ Ok m }
{}

/// No two messages that fit share a spelling.
#[tactic(auto, using(crate::proofs::MessagesRead::one_message))]
pub fn one_message()
    ensures one { (group : Group) (bytes : List ℕ) (m n : Msg) → IsGroup group → Msgs group bytes m
        → Msgs group bytes n → m ≡ n }
{}

/// A ballot is read from the front of bytes exactly where it fits and they begin with its spelling.
pub fn ballot_is_spelling()
    ensures read { (size : ℕ) (bytes : List ℕ) (b : Ballot) (rest : List ℕ) → AreBytes bytes
        → (ballot_at size bytes ≡ Ok (b, rest))
        ↔ (IsBallot size b × (bytes ≡ ballot_bytes b ++ rest)) }
{}

/// A value is read from the front of bytes exactly where it fits and they begin with its spelling.
pub fn value_is_spelling()
    ensures read { (size : ℕ) (bytes : List ℕ) (v : Value) (rest : List ℕ) → AreBytes bytes
        → (value_at size bytes ≡ Ok (v, rest))
        ↔ (IsValue size v × (bytes ≡ value_bytes v ++ rest)) }
{}

/// A value of version 1 is read from the front of bytes exactly where it fits, has at most one key,
/// and they begin with its spelling.
pub fn value_v1_is_spelling()
    ensures read { (size : ℕ) (bytes : List ℕ) (v : Value) (rest : List ℕ) → AreBytes bytes
        → (value_at_v1 size bytes ≡ Ok (v, rest))
        ↔ (IsValue size v × IsSingle v × (bytes ≡ value_bytes_v1 v ++ rest)) }
{}

/// The spelling of a message that fits has at most 440 bytes.
pub fn spelling_is_short()
    ensures short { (group : Group) (m : Msg) → Fits group m → length (spelling group m) ≤ 440 }
{}

/// The spelling of a value that fits has at most 43 bytes.
pub fn value_is_short()
    ensures short { (size : ℕ) (v : Value) → IsValue size v → length (value_bytes v) ≤ 43 }
{}

/// A number is read from the front of bytes exactly where they begin with its spelling.
pub fn number_is_spelling()
    ensures read { (bytes : List ℕ) (n : ℕ) (rest : List ℕ) → AreBytes bytes
        → (number_at bytes ≡ Ok (n, rest)) ↔ ((n < 2 ^ 32) × (bytes ≡ number_bytes n ++ rest)) }
{}

/// `n` votes are read from the front of bytes exactly where they fit, under the ballot, and the
/// bytes begin with their spelling.
pub fn votes_are_spelling()
    ensures read { (size n : ℕ) (b : Ballot) (bytes : List ℕ) (votes : List Vote) (rest : List ℕ)
        → AreBytes bytes → (votes_at size b 0 PLACES 0 n bytes ≡ Ok (votes, rest))
        ↔ (AreVotes size b 0 PLACES votes × (length votes ≡ n)
        × (bytes ≡ votes_bytes votes ++ rest)) }
{}

/// The spelling of votes that fit has at most 52 bytes for each.
pub fn votes_are_short()
    ensures short { (size low upto : ℕ) (b : Ballot) (votes : List Vote)
        → AreVotes size b low upto votes → length (votes_bytes votes) ≤ 52 * length votes }
{}
