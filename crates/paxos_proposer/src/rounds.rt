//! The next ballot of a node.
ghost use Rattle.std.specs.Prelude.{◌≡◌, ◌↔◌, ◌+◌, Err, IfOk, OnErr, IsErrOf};
ghost use Rattle.paxos_proposer.specs.Proposer.{greatest_round, round_of};
ghost use Rattle.paxos_msg.specs.declared.limits.TheConstants.{LAST_ROUND};

use crate::fault::ProposerFault;
use paxos_msg::Ballot;

/// Returns the round of a ballot, 0 if there is none.
fn round_of(ballot: Option<Ballot>) -> u32
    ensures { result ≡ round_of ballot }
{
    match ballot {
        Some(ballot) => ballot.round,
        None => 0,
    }
}

/// Returns the next ballot of `node`. Its round is one above the greater round of the promised and
/// the seen ballot, or 1 with neither. Fails only with `RoundsSpent`, exactly if that greater round
/// is 4,294,967,295.
pub fn next_ballot(
    promised: Option<Ballot>,
    seen: Option<Ballot>,
    node: u8,
) -> Result<Ballot, ProposerFault>
    ensures ok { IfOk result
        (λ b. b ≡ record { round = greatest_round promised seen + 1; node = node }) }
    ensures spent { IsErrOf result ProposerFault.RoundsSpent
        ↔ (greatest_round promised seen ≡ LAST_ROUND) }
    ensures others { OnErr result (result ≡ Err ProposerFault.RoundsSpent) }
{
    let greatest = round_of(promised).max(round_of(seen));
    let Some(round) = greatest.checked_add(1) else {
        return Err(ProposerFault::RoundsSpent);
    };
    Ok(Ballot { round, node })
}
