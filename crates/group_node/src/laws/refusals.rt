//! Why a node refuses a byte or a campaign.
ghost use Rattle.std.specs.Prelude.{◌≤◌, ℕ, length};
ghost use Rattle.paxos_msg.specs.declared.limits.TheConstants.{LAST_ROUND};
ghost use Rattle.group_protocol.specs.declared.limits.TheConstants.{MOST_WAITING};
ghost use Rattle.group_protocol.specs.Calls.{IsCampaignRefused, IsTypingRefused};
ghost use Rattle.group_protocol.specs.Known.{Known};
ghost use Rattle.group_protocol.specs.ProposerResponses.{last_round};
ghost use Rattle.group_node.specs.NodeCalls.{answer_to_call, call_of_campaign, call_of_press};

/// A node refuses a byte exactly where `call_of_press` does, and a campaign exactly where
/// `call_of_campaign` does: deeds on a wire and events of a group in memory go by these. At most
/// 256 keys wait at a node, and no round is above the last.
pub fn calls_are_refused_alike()
    ensures typing { (n : Known) (byte : ℕ) → length n.waiting ≤ MOST_WAITING
        → IsTypingRefused n (answer_to_call (call_of_press n byte)) }
    ensures campaign { (n : Known) → last_round n ≤ LAST_ROUND
        → IsCampaignRefused n (answer_to_call (call_of_campaign n)) }
{}
