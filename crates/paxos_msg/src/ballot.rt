//! Ballots, the numbers of proposals.
use std::fmt;

/// The number under which one node proposes. Ballots are ordered by round, then by node, so no two
/// nodes share one.
#[derive(Clone, Copy, Debug, PartialEq, Eq, PartialOrd, Ord, Hash)]
pub struct Ballot {
    /// At least 1 in a message.
    pub round: u32,
    /// The node that began the ballot, 1 to the group's size.
    pub node: u8,
}

/// Writes a ballot as `ROUND.NODE`.
impl fmt::Display for Ballot {
    fn fmt<W: fmt::Write>(&self, f: &mut fmt::Formatter<W>) -> fmt::Result {
        let round = self.round;
        let node = self.node;
        write!(f, "{round}.{node}")
    }
}
