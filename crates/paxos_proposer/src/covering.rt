//! Counts the acceptors whose promises cover a place.
ghost use Rattle.std.specs.Prelude.{◌≡◌, ◌≤◌};
ghost use Rattle.paxos_msg.specs.Ballots.{count_of};
ghost use Rattle.paxos_proposer.specs.Proposer.{is_covered_by};
ghost use Rattle.paxos_msg.specs.declared.limits.TheConstants.{MOST_NODES};

/// Returns how many of the nodes 1 to `size`, at most 9, have promised `place`: their coverage is
/// above it.
#[tactic(auto, using(crate::proofs::CountingCoverage::count_next))]
pub(crate) fn count_covering(size: u8, coverages: &[u32; 10], place: u32) -> usize
    requires { size ≤ MOST_NODES }
    ensures count { result ≡ count_of (is_covered_by coverages.now place) size }
    ensures few { result ≤ size }
{
    let mut count: usize = 0;
    for before in 0..size {
        if place < coverages[usize::from(before) + 1] {
            count += 1;
        }
    }
    count
}
