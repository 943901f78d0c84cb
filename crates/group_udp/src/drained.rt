//! Whether a socket that had nothing is asked again before the watch reports it.
ghost use Rattle.std.specs.Prelude.{◌≡◌, ◌↔◌, ◌-◌, ◌<◌, IsTrue};

/// How often a socket is passed over, since it had nothing when it was asked last. What has come
/// meanwhile is reported by the watch at the next wait. A node that does not wait passes it over a
/// few times and then asks it anyway.
#[derive(Clone, Copy, Debug, PartialEq, Eq)]
pub struct Drained {
    /// How often it is passed over once it had nothing.
    most: u8,
    /// How often it may still be passed over.
    left: u8,
}

impl Drained {
    /// Of a socket that nobody has asked yet. It is passed over at most so often in turn.
    pub fn new(most: u8) -> Drained
        ensures { result ≡ record { most = most; left = 0 } }
    {
        Drained { most, left: 0 }
    }

    /// Notes that the socket had nothing.
    pub fn note_empty(&mut self)
        ensures { self.new ≡ record self.old { left = self.old.most } }
    {
        self.left = self.most;
    }

    /// Notes that the watch reports the socket: it is asked next.
    pub fn note_came(&mut self)
        ensures { self.new ≡ record self.old { left = 0 } }
    {
        self.left = 0;
    }

    /// Returns true if the socket is passed over now.
    pub fn passes(&mut self) -> bool
        ensures passed { IsTrue result ↔ (0 < self.old.left) }
        ensures less { self.new ≡ record self.old { left = self.old.left - 1 } }
    {
        let is_passed = self.left > 0;
        self.left = self.left.saturating_sub(1);
        is_passed
    }
}
