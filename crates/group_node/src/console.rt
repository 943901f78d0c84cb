//! A console: the bytes that it has shown.
ghost use Rattle.std.specs.Prelude.{◌≡◌, ◌≢◌, ◌<◌, [], length, IfErr, OnOk};
ghost use Rattle.group_node.specs.Console.{offer_answer, offered};

use group_protocol::NodeFault;
use std::alloc::Global;
use std::marker::Model;

/// What a console does with an offered byte.
#[derive(Clone, Copy, Debug, PartialEq, Eq)]
pub enum Offer {
    /// The byte is the next one, and is shown.
    Fresh,
    /// The byte was shown before.
    Repeat,
    /// Bytes before it are missing.
    Gap,
    /// The byte is the next one, and memory has run out.
    Memory,
}

/// A console. It shows bytes one after another, and takes back none.
#[derive(Drop)]
pub struct Console {
    bytes: Vec<u8>,
}

impl Model for Console {
    ghost use Rattle.std.specs.Prelude.{◌-◌, vec_len, vec_capacity};
    ghost use Rattle.group_node.specs.Console.{Shown};

    ghost Value = { Shown };

    ghost view = { λ c. record {
      bytes = c.bytes.items;
      room = vec_capacity c.bytes - vec_len c.bytes;
    } };
}

impl Console {
    /// Makes a console that has shown nothing.
    ///
    /// It allocates nothing.
    pub fn new(alloc: Global) -> Console
        ensures { result.bytes ≡ [] }
    {
        Console {
            bytes: Vec::new(alloc),
        }
    }

    /// Makes room for one byte: after `Ok` the next `offer` does not return `Memory`. What was
    /// shown stays. Fails only with `Memory`.
    pub fn reserve(&mut self) -> Result<(), NodeFault>
        ensures bytes { self.new.bytes ≡ self.old.bytes }
        ensures room { OnOk result (0 < self.new.room) }
        ensures others { IfErr result (λ e. e ≡ NodeFault.Memory) }
    {
        match self.bytes.reserve(1) {
            Ok(()) => Ok(()),
            Err(_) => Err(NodeFault::Memory),
        }
    }

    /// Offers `byte` as the byte of number `number`, from 0 on. If `number` bytes were shown,
    /// appends it and returns `Fresh`. If more were shown, returns `Repeat`, and if fewer, `Gap`.
    /// Without room for a byte it may return `Memory` instead of `Fresh`. Only `Fresh` changes what
    /// was shown.
    pub fn offer(&mut self, number: u64, byte: u8) -> Offer
        ensures answer { result ≢ Offer.Memory → result ≡ offer_answer self.old.bytes number }
        ensures shown { result ≢ Offer.Memory
            → self.new.bytes ≡ offered self.old.bytes number byte }
        ensures memory { result ≡ Offer.Memory → number ≡ length self.old.bytes }
        ensures room { 0 < self.old.room → result ≢ Offer.Memory }
        ensures only_fresh { result ≢ Offer.Fresh → self.new.bytes ≡ self.old.bytes }
    {
        let length = self.bytes.len() as u64;
        if number < length {
            return Offer::Repeat;
        }
        if number > length {
            return Offer::Gap;
        }
        match self.bytes.push(byte) {
            Ok(()) => Offer::Fresh,
            Err(_) => Offer::Memory,
        }
    }

    /// Returns the bytes that the console has shown, the oldest first.
    pub fn bytes(&self) -> &[u8]
        ensures { result.now ≡ self.now.bytes }
    {
        self.bytes.as_slice()
    }
}
