//! Where the typed bytes of a node come from.
ghost use Rattle.std.specs.Prelude.{◌≡◌, ◌↔◌, ◌+◌, ◌-◌, ◌<◌, ◌≤◌, [], ◌∷◌, length, min, IsTrue, if◌then◌else◌, map, take};
ghost use Rattle.group_protocol.specs.declared.limits.TheConstants.{MOST_WAITING};
ghost use Rattle.group_node.specs.Deeds.{Campaign, Press};
ghost use Rattle.node_io.specs.Prompts.{GivesWhatCame, HasGiven, KeyboardState, looks_after};

use group_protocol::limits::MOST_WAITING;

/// What people do at a node: they type bytes, and ask it to campaign.
pub trait Keyboard {
    /// What it has left of what came to it: bytes in order, and the number of requests to campaign;
    /// whether it is closed, so that nothing comes any more; all that it has taken in, where it
    /// remembers that; and how often it was looked at, where it counts that.
    ghost keys: { Self → KeyboardState };

    /// Notes that something may have come, for which a wait has ended. A keyboard that knows of
    /// nothing may leave out some of its work in looks until then.
    fn note_came(&mut self)
        ensures same { keys self.new ≡ keys self.old };

    /// Looks whether more has come, and takes in all of it or some. Nothing is given or lost.
    fn look(&mut self)
        ensures came { GivesWhatCame (keys self.old) [] (keys self.new) }
        ensures counted { (keys self.new).looks ≡ looks_after 1 (keys self.old).looks };

    /// Returns true if a request to campaign is there.
    fn has_request(&self) -> bool
        ensures there { IsTrue result ↔ (0 < (keys self.now).left.requests) };

    /// Returns true if bytes are there.
    fn has_bytes(&self) -> bool
        ensures there { IsTrue result ↔ (0 < length (keys self.now).left.bytes) };

    /// Takes a request to campaign, if one is there, also where bytes came before it. Returns true
    /// if one was.
    fn take_request(&mut self) -> bool
        ensures asked { HasGiven (keys self.old) (if result then Campaign ∷ [] else [])
            (keys self.new) }
        ensures taken { 0 < (keys self.old).left.requests → IsTrue result };

    /// Gives as many bytes as there is room for at a node at which `waiting` keys wait, up to 256,
    /// at the front of `buffer`. Returns their number.
    fn give(&mut self, buffer: &mut [u8; MOST_WAITING], waiting: usize) -> usize
        ensures within { result ≤ MOST_WAITING }
        ensures room { waiting ≤ MOST_WAITING → waiting + result ≤ MOST_WAITING }
        ensures given { HasGiven (keys self.old) (map Press (take result buffer.new))
            (keys self.new) }
        ensures all { result
            ≡ min (length (keys self.old).left.bytes) (MOST_WAITING - waiting) };
}
