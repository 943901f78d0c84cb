//! A text that is typed at a node.
use group_protocol::limits::MOST_WAITING;
use node_io::Keyboard;

/// A text that is typed at a node, as there is room for it.
#[derive(Drop)]
pub struct Text<'a> {
    /// The bytes that are still to be typed.
    pub left: &'a [u8],
}

impl Keyboard for Text<'_> {
    ghost use Rattle.std.specs.Prelude.{true, None, Some};
    ghost use Rattle.node_io.specs.Prompts.{no_keys};

    // All of it is there, and nothing more comes.
    ghost keys = { λ t. record {
      left = record { bytes = t.left.now; requests = 0 };
      is_closed = true;
      taken_in = Some no_keys;
      looks = None;
    } };

    fn note_came(&mut self) {}

    fn look(&mut self) {}

    // A text asks for no campaign.
    fn has_request(&self) -> bool {
        false
    }

    fn has_bytes(&self) -> bool {
        !self.left.is_empty()
    }

    fn take_request(&mut self) -> bool {
        false
    }

    fn give(&mut self, buffer: &mut [u8; MOST_WAITING], waiting: usize) -> usize {
        let count = self.left.len().min(MOST_WAITING.saturating_sub(waiting));
        let (now, later) = self.left.split_at(count);
        buffer[..count].copy_from_slice(now);
        self.left = later;
        count
    }
}
