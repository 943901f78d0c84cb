//! The characters of one value.
ghost use Rattle.std.specs.Prelude.{◌≡◌, ◌<◌, ◌≤◌, ◌↔◌, ◌∷◌, [], IfSome, IsSome, length};
ghost use Rattle.paxos_msg.specs.declared.limits.TheConstants.{MOST_CHARACTERS};

use crate::limits::MOST_CHARACTERS;
use std::fmt;
use std::marker::Model;

/// One to 32 characters. They lie in the value itself, so a copy takes no memory.
#[derive(Clone, Copy, Debug, PartialEq, Eq, Hash)]
pub struct Characters {
    len: u8,
    // The bytes after the characters are zeros.
    bytes: [u8; MOST_CHARACTERS],
}

impl Model for Characters {
    ghost use Rattle.std.specs.Prelude.{ℕ, List, ◌-◌, ◌++◌, length, replicate, take};
    ghost use Rattle.paxos_msg.specs.Characters.{IsFilled, bytes_back, len_back};
    ghost use Rattle.paxos_msg.specs.declared.limits.TheConstants.{MOST_CHARACTERS};

    ghost Value = { List ℕ };

    ghost view = { λ c. take c.len c.bytes };

    ghost invariant = { λ c. IsFilled c.len c.bytes };

    ghost inverse = { λ l.
        record { len = length l; bytes = l ++ replicate (MOST_CHARACTERS - length l) 0 } };

    ghost inverse_ok = { λ c h. λ i.
        record { len = len_back c.len c.bytes h i; bytes = bytes_back c.len c.bytes h i } };
}

impl Characters {
    /// Returns the characters of a slice, or `None` if it does not have 1 to 32 of them.
    pub fn new(bytes: &[u8]) -> Option<Characters>
        ensures same { IfSome result (λ c. c ≡ bytes.now) }
        ensures some { IsSome result
            ↔ ((0 < length bytes.now) × (length bytes.now ≤ MOST_CHARACTERS)) }
    {
        if bytes.is_empty() || bytes.len() > MOST_CHARACTERS {
            return None;
        }
        let mut all = [0; MOST_CHARACTERS];
        all[..bytes.len()].copy_from_slice(bytes);
        Some(Characters {
            len: bytes.len() as u8,
            bytes: all,
        })
    }

    /// Returns the characters, 1 to 32 of them.
    pub fn as_slice(&self) -> &[u8]
        ensures same { result.now ≡ self.now }
        ensures some { 0 < length self.now }
        ensures few { length self.now ≤ MOST_CHARACTERS }
    {
        &self.bytes[..usize::from(self.len)]
    }

    /// Returns the number of characters, 1 to 32.
    pub fn len(&self) -> u8
        ensures len { result ≡ length self.now }
        ensures some { 0 < result }
        ensures few { result ≤ MOST_CHARACTERS }
    {
        self.len
    }
}

/// Makes characters of one.
impl From<u8> for Characters {
    ghost from_gives = { λ byte c. c ≡ byte ∷ [] };

    /// Returns the one character `byte`.
    fn from(byte: u8) -> Self {
        let mut bytes = [0; MOST_CHARACTERS];
        bytes[0] = byte;
        Characters { len: 1, bytes }
    }
}

/// Writes each character as two hexadecimal digits, in capitals.
impl fmt::Display for Characters {
    fn fmt<W: fmt::Write>(&self, f: &mut fmt::Formatter<W>) -> fmt::Result {
        for byte in self.as_slice() {
            write!(f, "{byte:02X}")?;
        }
        Ok(())
    }
}
