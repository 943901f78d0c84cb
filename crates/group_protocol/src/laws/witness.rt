//! A witness that the laws of a node are not empty.
ghost use Rattle.std.specs.Prelude.{◌<◌, IsSome, IsSomeAnd, IsTrue, length, List};
ghost use Rattle.std.specs.FinMap.{get};
ghost use Rattle.paxos_msg.specs.Batches.{Sent};
ghost use Rattle.paxos_msg.specs.Keys.{Key};
ghost use Rattle.paxos_proposer.specs.Proposer.{is_covered, next_of};
ghost use Rattle.group_protocol.specs.Backs.{Backs};
ghost use Rattle.group_protocol.specs.Known.{Known};
ghost use Rattle.group_protocol.specs.Ranges.{IsInRange};

use paxos_learner::laws::{stays_backed as learner_stays_backed, values_fit, window_holds};
use paxos_proposer::laws::{
    begins_backed, parts_keep_it_backed, proposals_may_be_sent,
    stays_backed as proposer_stays_backed, what_goes_out_fits as proposals_fit,
};

/// The laws are not empty: there is a node in its ranges that is backed and leads. It keeps a
/// reported vote, has offered a key and tallies a place, and a key waits at it.
pub fn possible()
    ensures { (n : Known) × (sent : Sent) × (typed : List Key) × IsInRange n × Backs sent typed n
        × IsSomeAnd n.proposer (λ p. IsTrue (is_covered p (next_of p)) × (0 < length p.kept))
        × IsSome (get n.learner.tallies 0) × (0 < length n.offered) × (0 < length n.waiting) }
{
    begins_backed();
    parts_keep_it_backed();
    proposals_may_be_sent();
    proposer_stays_backed();
    proposals_fit();
    learner_stays_backed();
    values_fit();
    window_holds();
}
