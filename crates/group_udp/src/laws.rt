//! Where datagrams come from, and how long rests are, as contracts of functions that do nothing.
ghost use Rattle.std.specs.Prelude.{◌≡◌, ◌↔◌, ◌+◌, ◌*◌, ◌<◌, ℕ, suc, Bool, List, Option, Some, slice_get};
ghost use Rattle.std.specs.Time.{instant_nanos};
ghost use Rattle.std.specs.declared.time.Instant.{Instant};
ghost use Rattle.std.specs.declared.net.socket_addr.SocketAddr.{SocketAddr};
ghost use Rattle.paxos_msg.specs.Batches.{Msg};
ghost use Rattle.paxos_msg.specs.Datagrams.{Msgs};
ghost use Rattle.paxos_msg.specs.declared.message.Group.{Group};
ghost use Rattle.group_udp.specs.Pace.{IsPace, first_pace, pace_after};
ghost use Rattle.group_udp.specs.Rests.{IsLately};
ghost use Rattle.group_udp.specs.Sources.{IsFromSender};
ghost use Rattle.group_udp.specs.declared.limits.TheConstants.{LONG_PAUSE};
ghost use Rattle.group_udp.specs.declared.pace.Pace.{Pace};

/// A datagram that spells a message of the group passes the check of its source exactly if it came
/// from the address of the message's sender.
pub fn sources_are_senders()
    ensures { (g : Group) (m : Msg) (bytes : List ℕ) (at : List SocketAddr) (source : SocketAddr)
        (i : ℕ) → Msgs g bytes m → m.sender ≡ suc i
        → (IsFromSender at source bytes ↔ (slice_get at i ≡ Some source)) }
{}

/// Unless something ends it early, a rest takes 10 to 200 milliseconds, whatever a node has learned
/// and sent, and so does the first pause between repeats. Answers to what a tick would repeat are
/// due for less than 200 milliseconds after a tick.
pub fn rests_are_short()
    ensures first { IsPace first_pace }
    ensures next { (pace : Pace) (learned : Option ℕ) (has_sent : Bool) → IsPace pace
        → IsPace (pace_after pace learned has_sent) }
    ensures answers { (since now : Instant) → IsLately (Some since) (Some now)
        → instant_nanos now < instant_nanos since + LONG_PAUSE * 1_000_000 }
{}
