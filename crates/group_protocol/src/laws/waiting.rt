//! The keys that wait at a node, in order, and which of them a call submits. Each law is the
//! contract of a function that does nothing.
ghost use Rattle.std.specs.Prelude.{◌≡◌, ◌+◌, ◌++◌, ◌∷◌, [], ℕ, All, Contains, List, Some, None, take};
ghost use Rattle.paxos_msg.specs.declared.message.Body.TheVariants.{Submit};
ghost use Rattle.paxos_msg.specs.declared.value.Value.{Value};
ghost use Rattle.paxos_msg.specs.Batches.{Body, Record};
ghost use Rattle.paxos_msg.specs.Keys.{Key, keys_of};
ghost use Rattle.paxos_acceptor.specs.declared.me.Me.{Me};
ghost use Rattle.paxos_learner.specs.Input.{front_values, keys_in_order};
ghost use Rattle.paxos_msg.specs.declared.limits.TheConstants.{MOST_CHARACTERS};
ghost use Rattle.group_protocol.specs.Known.{Known, new_key, next_serial, on_start, on_typed};
ghost use Rattle.group_protocol.specs.Packets.{bodies_of};
ghost use Rattle.group_protocol.specs.Protocol.{on_message};
ghost use Rattle.group_protocol.specs.ProposerResponses.{on_campaign};
ghost use Rattle.group_protocol.specs.Tick.{on_tick};
ghost use Rattle.group_protocol.specs.WaitingKeys.{batch_of, waiting_keys, without_read};

use paxos_learner::laws::key_tests_are_exact;

/// The waiting keys are a queue: a typed one is the last; a tick submits the first, at most 32, as
/// long as any wait; they leave only at its head, each of them read; and after a message the first
/// that waits is not below the known front.
pub fn waiting_keys_are_a_row()
    ensures typed { (n : Known) (byte : ℕ)
        → waiting_keys (on_typed n byte).node ≡ waiting_keys n ++ keys_of (new_key n byte) }
    ensures batch { (n : Known) (v : Value) → batch_of n n.waiting ≡ Some v
        → keys_of v ≡ take MOST_CHARACTERS (waiting_keys n) }
    ensures none { (n : Known) → batch_of n n.waiting ≡ None → waiting_keys n ≡ [] }
    ensures gone { (n : Known)
        → (gone : List Key) × (waiting_keys n ≡ gone ++ waiting_keys (without_read n))
        × All (λ k. Contains (keys_in_order (front_values n.learner.learned)) k) gone }
    ensures first { (n : Known) (k : Key) (ks : List Key) → waiting_keys (without_read n) ≡ k ∷ ks →
        ¬ Contains (keys_in_order (front_values n.learner.learned)) k }
{
    key_tests_are_exact();
}

/// Only a tick submits, and then the first keys that wait, at most 32, which go on waiting. A
/// start, a typed character, a campaign and a message submit nothing.
pub fn only_ticks_submit()
    ensures tick { (n : Known) (v : Value) → Contains (bodies_of (on_tick n).sends) (Submit v)
        → keys_of v ≡ take MOST_CHARACTERS (waiting_keys n) }
    ensures waits { (n : Known) → waiting_keys (on_tick n).node ≡ waiting_keys n }
    ensures start { (me : Me) (r : Record) (v : Value)
        → ¬ Contains (bodies_of (on_start me r).sends) (Submit v) }
    ensures typed { (n : Known) (byte : ℕ) (v : Value)
        → ¬ Contains (bodies_of (on_typed n byte).sends) (Submit v) }
    ensures campaign { (n : Known) (v : Value)
        → ¬ Contains (bodies_of (on_campaign n).sends) (Submit v) }
    ensures message { (n : Known) (j : ℕ) (body : Body) (v : Value)
        → ¬ Contains (bodies_of (on_message n j body).sends) (Submit v) }
{
    waiting_keys_are_a_row();
}

/// Keys are counted: the first of a start gets serial 1, and a typed one the serial after the one
/// before it. No other call changes which serial is next.
pub fn serials_are_counted()
    ensures start { (me : Me) (r : Record) → next_serial (on_start me r).node ≡ 1 }
    ensures typed { (n : Known) (byte : ℕ)
        → next_serial (on_typed n byte).node ≡ next_serial n + 1 }
    ensures campaign { (n : Known) → next_serial (on_campaign n).node ≡ next_serial n }
    ensures tick { (n : Known) → next_serial (on_tick n).node ≡ next_serial n }
    ensures message { (n : Known) (j : ℕ) (body : Body)
        → next_serial (on_message n j body).node ≡ next_serial n }
{}
