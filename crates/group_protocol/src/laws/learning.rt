//! What a node has learned. It is the contract of a function that does nothing.
ghost use Rattle.std.specs.Prelude.{ℕ};
ghost use Rattle.paxos_msg.specs.Batches.{Body};
ghost use Rattle.paxos_learner.specs.Learner.{HasLearnedMore};
ghost use Rattle.group_protocol.specs.Known.{Known};
ghost use Rattle.group_protocol.specs.Protocol.{on_message};
ghost use Rattle.group_protocol.specs.ProposerResponses.{on_campaign};
ghost use Rattle.group_protocol.specs.Tick.{on_tick};

use paxos_learner::laws::learned_stays;

/// What is learned stays learned, at a message, a campaign and a tick.
pub fn calls_keep_what_is_learned()
    ensures message { (n : Known) (j : ℕ) (body : Body)
        → HasLearnedMore n.learner.learned (on_message n j body).node.learner.learned }
    ensures campaign { (n : Known)
        → HasLearnedMore n.learner.learned (on_campaign n).node.learner.learned }
    ensures tick { (n : Known) → HasLearnedMore n.learner.learned (on_tick n).node.learner.learned }
{
    learned_stays();
}
