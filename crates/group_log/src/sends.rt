//! Datagrams that a node sends to the others.
ghost use Rattle.std.specs.Prelude.{◌≡◌, ◌<◌, ◌↔◌, IsTrue};
ghost use Rattle.group_log.specs.Sends.{sends_with};

use crate::drops::one_more;

/// The number of datagrams that a node sent to other nodes, by whether the system took them. A
/// count ends at `MOST_COUNTED`.
#[derive(Clone, Copy, Debug, PartialEq, Eq, Default)]
pub struct Sends {
    pub taken: u32,
    pub refused: u32,
}

impl Sends {
    /// Counts one more datagram. A count stays at 4,294,967,295.
    pub fn count(&mut self, is_taken: bool)
        ensures { self.new ≡ sends_with self.old is_taken }
    {
        if is_taken {
            self.taken = one_more(self.taken);
        } else {
            self.refused = one_more(self.refused);
        }
    }

    /// Returns true if some were refused, and none was taken: then nobody hears the node.
    pub fn is_cut_off(&self) -> bool
        ensures { IsTrue result ↔ (0 < self.now.refused) × (self.now.taken ≡ 0) }
    {
        self.taken == 0 && self.refused > 0
    }
}
