//! The datagrams that a trace has lately, so that one which is sent again is not written again.
ghost use Rattle.std.specs.Prelude.{◌≡◌, ◌≢◌, ◌↔◌, ℕ, ◌<◌, [], IfErr, IfOk, IfSome, IsTrue, None, Some, slice_get};
ghost use Rattle.group_log.specs.Recent.{IsNoted};

use circular_buffer::HeapCircularBuffer;
use std::alloc::{AllocError, Global};
use std::marker::Model;

/// How many datagrams a trace can name again.
pub const MOST_RECENT: usize = 1024;

/// The datagrams that a trace has written whole lately, the newest first, `MOST_RECENT` at most.
#[derive(Drop)]
pub struct Recent {
    alloc: Global,
    kept: HeapCircularBuffer<Vec<u8>>,
}

impl Model for Recent {
    ghost use Rattle.std.specs.Prelude.{◌≡◌, ℕ, List, map};
    ghost use Rattle.group_log.specs.declared.recent.TheConstants.{MOST_RECENT};

    ghost Value = { List (List ℕ) };

    ghost view = { λ r. map (λ v. v.items) r.kept.items };

    ghost invariant = { λ r. r.kept.capacity ≡ MOST_RECENT };
}

/// Returns true exactly if the bytes are the same.
fn are_same(one: &[u8], other: &[u8]) -> bool
    ensures { IsTrue result ↔ (one.now ≡ other.now) }
{
    one == other
}

impl Recent {
    /// Makes a list without a datagram.
    pub fn new(alloc: Global) -> Result<Recent, AllocError>
        ensures { IfOk result (λ r. r ≡ []) }
    {
        Ok(Recent {
            alloc,
            kept: HeapCircularBuffer::with_capacity(alloc, MOST_RECENT)?,
        })
    }

    /// Returns true exactly if the datagram of this index has these bytes.
    fn is_at(&self, index: usize, datagram: &[u8]) -> bool
        ensures { IsTrue result ↔ (slice_get self.now index ≡ Some datagram.now) }
    {
        match self.kept.get(index) {
            Some(kept) => are_same(kept.as_slice(), datagram),
            None => false,
        }
    }

    /// Returns the first index at which a datagram with these bytes is.
    fn index_of(&self, datagram: &[u8]) -> Option<usize>
        ensures found { IfSome result (λ n. slice_get self.now n ≡ Some datagram.now) }
        ensures within { IfSome result (λ n. n < MOST_RECENT) }
        ensures missing { result ≡ None → (n : ℕ) → slice_get self.now n ≢ Some datagram.now }
    {
        for index in 0..self.kept.len() {
            if self.is_at(index, datagram) {
                return Some(index);
            }
        }
        None
    }

    /// Notes a datagram that is about to be written. Returns how many datagrams back it was
    /// written whole: 1 for the last one. If it was not, returns `None`, and it is the last one
    /// from now on. Fails, and notes nothing, if memory runs out.
    pub fn note(&mut self, datagram: &[u8]) -> Result<Option<usize>, AllocError>
        ensures ok { IfOk result (λ back. IsNoted self.old datagram.now back self.new) }
        ensures err { IfErr result (λ _. self.new ≡ self.old) }
    {
        if let Some(index) = self.index_of(datagram) {
            return Ok(Some(index + 1));
        }
        let bytes = Vec::from_slice(self.alloc, datagram)?;
        let _oldest = self.kept.push_front(bytes);
        Ok(None)
    }
}
