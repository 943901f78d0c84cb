//! The input: the bytes of the keys of the places below the front, each key once.
ghost use Rattle.std.specs.Prelude.{◌≡◌, ◌+◌, ◌*◌, ◌<◌, ◌≤◌, [], ◌∷◌, ◌++◌, OnOk, length, drop, map};
ghost use Rattle.paxos_learner.specs.Entered.{keys_with, count_below};
ghost use Rattle.paxos_msg.specs.declared.limits.TheConstants.{MOST_CHARACTERS, PLACES};

use crate::keys::{KeySet, TypedKey};
use paxos_msg::Value;
use paxos_msg::limits::MOST_CHARACTERS;
use std::alloc::{AllocError, Global};
use std::marker::Model;

/// The keys of the places so far, each once, in order. Places come one after another, from 0 on.
#[derive(Drop)]
pub struct Input {
    keys: KeySet,
    // The number of keys after each place.
    ends: Vec<u32>,
}

impl Model for Input {
    ghost use Rattle.std.specs.Prelude.{◌-◌, vec_len, vec_capacity};
    ghost use Rattle.paxos_learner.specs.Entered.{Entered, IsCounted};

    ghost Value = { Entered };

    ghost view = { λ i. record {
      keys = i.keys.keys;
      ends = i.ends.items;
      room = vec_capacity i.ends - vec_len i.ends;
      key_room = i.keys.room;
    } };

    ghost invariant = { λ i. IsCounted i.keys.keys i.ends.items };
}

impl Input {
    /// Returns the input of no place. It takes no memory.
    pub fn new(alloc: Global) -> Input
        ensures keys { result.keys ≡ [] }
        ensures ends { result.ends ≡ [] }
    {
        Input {
            keys: KeySet::new(alloc),
            ends: Vec::new(alloc),
        }
    }

    /// Returns the number of places so far.
    pub fn places(&self) -> u32
        ensures places { result ≡ length self.now.ends }
        ensures few { result ≤ PLACES }
    {
        self.ends.len() as u32
    }

    /// Makes room for `places` more places, each with up to 32 keys. After an error nothing has
    /// changed.
    pub fn reserve(&mut self, places: usize) -> Result<(), AllocError>
        requires { places ≤ PLACES }
        ensures keys { self.new.keys ≡ self.old.keys }
        ensures ends { self.new.ends ≡ self.old.ends }
        ensures ok { OnOk result (places ≤ self.new.room) }
        ensures keys_ok { OnOk result (MOST_CHARACTERS * places ≤ self.new.key_room) }
        ensures room { self.old.room ≤ self.new.room }
        ensures key_room { self.old.key_room ≤ self.new.key_room }
    {
        self.keys.reserve(MOST_CHARACTERS * places)?;
        self.ends.reserve(places)
    }

    /// Appends the value of the next place, at most 32 keys. There is room for them.
    pub fn enter(&mut self, value: Value)
        requires room { 0 < self.old.room }
        requires key_room { MOST_CHARACTERS ≤ self.old.key_room }
        requires few { length self.old.ends < PLACES }
        ensures keys { self.new.keys ≡ keys_with self.old.keys value }
        ensures ends { self.new.ends ≡ self.old.ends ++ length self.new.keys ∷ [] }
        ensures room { self.old.room ≤ self.new.room + 1 }
        ensures key_room { self.old.key_room ≤ self.new.key_room + MOST_CHARACTERS }
    {
        self.keys.insert(value);
        let count = self.keys.len() as u32;
        self.ends.push(count).unwrap();
    }

    /// Returns the number of keys of the places below `place`, which may be any number.
    fn count_below(&self, place: u32) -> usize
        ensures count { result ≡ count_below self.now place }
        ensures within { result ≤ length self.now.keys }
    {
        if place == 0 {
            return 0;
        }
        match self.ends.get(place as usize - 1) {
            Some(end) => *end as usize,
            None => self.keys.len(),
        }
    }

    /// Returns the bytes of the keys that the places from `place` on have added.
    pub fn after(&self, place: u32) -> InputAfter<'_>
        ensures { result ≡ map (λ k. k.byte) (drop (count_below self.now place) self.now.keys) }
    {
        InputAfter {
            keys: self.keys.from_index(self.count_below(place)),
        }
    }

    /// Returns the keys.
    pub fn keys(&self) -> &KeySet
        ensures { result.now.keys ≡ self.now.keys }
    {
        &self.keys
    }
}

/// Bytes of the input, in order: an iterator. A clone goes over the same bytes again, from the next
/// one on.
#[derive(Drop)]
pub struct InputAfter<'a> {
    keys: &'a [TypedKey],
}

impl<'a> Model for InputAfter<'a> {
    ghost use Rattle.std.specs.Prelude.{ℕ, List, map};

    ghost Value = { List ℕ };

    ghost view = { λ a. map (λ k. k.byte) a.keys.now };
}

impl<'a> Clone for InputAfter<'a> {
    ghost use Rattle.std.specs.Prelude.{◌≡◌, ⊤};

    ghost is_clone = { λ s r. r ≡ s };

    ghost is_infallible = { λ _. ⊤ };

    /// Returns an iterator over the same bytes, from the next one on. It never fails.
    fn clone(&self) -> Result<InputAfter<'a>, AllocError> {
        Ok(InputAfter { keys: self.keys })
    }
}

impl<'a> Iterator for InputAfter<'a> {
    ghost use Rattle.std.specs.Iterator.{YieldsFirst, item_count};

    type Item = u8;

    ghost next_gives = { YieldsFirst (λ bytes. bytes) };

    ghost remaining = { item_count (λ bytes. bytes) };

    /// Returns the next byte. It returns each byte once, in order, and then no more.
    fn next(&mut self) -> Option<u8> {
        let (first, rest) = self.keys.split_first()?;
        self.keys = rest;
        Some(first.byte)
    }
}
