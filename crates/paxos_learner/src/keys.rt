//! Keys, and sets of them.
ghost use Rattle.std.specs.Prelude.{◌≡◌, ◌↔◌, ◌+◌, ◌<◌, ◌≤◌, [], IsTrue, OnOk, Contains, drop, length, map, option_map, slice_get};
ghost use Rattle.indexmap.specs.IndexSet.{insert_all, insert_key};
ghost use Rattle.paxos_msg.specs.Keys.{keys_from};
ghost use Rattle.paxos_learner.specs.Entered.{keys_with, key_of};
ghost use Rattle.paxos_learner.specs.Input.{same_key};
ghost use Rattle.paxos_msg.specs.declared.limits.TheConstants.{MOST_CHARACTERS};

use indexmap::IndexSet;
use paxos_msg::Value;
use std::alloc::{AllocError, Global};
use std::marker::Model;

/// A typed character: its node, the number of that node's start, its serial in that start, and the
/// character. The widest field comes first, so that a key takes 16 bytes.
#[derive(Clone, Copy, Debug, PartialEq, Eq, Hash)]
pub struct TypedKey {
    /// The number of the key in that start, from 1 on. It is at most 4,294,967,295 in a value that
    /// is in its ranges.
    pub serial: u64,
    /// The number of that start of the node, from 1 on.
    pub start: u32,
    /// The node at which it was typed, 1 to the group's size.
    pub node: u8,
    /// The character.
    pub byte: u8,
}

/// Keys, each once, in the order in which they came.
#[derive(Drop)]
pub struct KeySet {
    keys: IndexSet<TypedKey>,
}

impl Model for KeySet {
    ghost use Rattle.std.specs.Prelude.{map};
    ghost use Rattle.indexmap.specs.IndexSet.{spare};
    ghost use Rattle.paxos_learner.specs.Entered.{Keys, key_of};

    ghost Value = { Keys };

    ghost view = { λ s. record { keys = map key_of s.keys.keys; room = spare s.keys } };
}

impl KeySet {
    /// Returns a set without keys.
    ///
    /// It takes no memory.
    pub fn new(alloc: Global) -> KeySet
        ensures { result.keys ≡ [] }
    {
        KeySet {
            keys: IndexSet::new(alloc),
        }
    }

    /// Makes room for `additional` more keys. Fails if memory runs out. The keys stay in both
    /// cases, and the room never shrinks.
    pub fn reserve(&mut self, additional: usize) -> Result<(), AllocError>
        ensures keys { self.new.keys ≡ self.old.keys }
        ensures ok { OnOk result (additional ≤ self.new.room) }
        ensures room { self.old.room ≤ self.new.room }
    {
        self.keys.reserve(additional)
    }

    /// Appends a key, if the set does not have it. There is room for it.
    fn insert_key(&mut self, key: TypedKey)
        requires { 0 < self.old.room }
        ensures keys { self.new.keys ≡ insert_key same_key self.old.keys (key_of key) }
        ensures room { self.old.room ≤ self.new.room + 1 }
        ensures few { length self.new.keys ≤ length self.old.keys + 1 }
    {
        self.keys.insert(key).unwrap();
    }

    /// Inserts the keys with these characters, whose serials go on from `first`, one after another.
    fn insert_batch(&mut self, node: u8, start: u32, first: u32, bytes: &[u8])
        requires room { length bytes.now ≤ self.old.room }
        requires few { length bytes.now ≤ MOST_CHARACTERS }
        ensures keys { self.new.keys
            ≡ insert_all same_key self.old.keys (keys_from node start first bytes.now) }
        ensures room { self.old.room ≤ self.new.room + length bytes.now }
        ensures few { length self.new.keys ≤ length self.old.keys + length bytes.now }
    {
        let mut serial = u64::from(first);
        for byte in bytes {
            self.insert_key(TypedKey {
                serial,
                start,
                node,
                byte: *byte,
            });
            serial += 1;
        }
    }

    /// Inserts the keys of `value`, at most 32, each new one at the end. There must be room for 32.
    /// The room shrinks by at most 32.
    pub fn insert(&mut self, value: Value)
        requires { MOST_CHARACTERS ≤ self.old.room }
        ensures keys { self.new.keys ≡ keys_with self.old.keys value }
        ensures room { self.old.room ≤ self.new.room + MOST_CHARACTERS }
        ensures few { length self.new.keys ≤ length self.old.keys + MOST_CHARACTERS }
    {
        if let Value::Keys {
            node,
            start,
            first,
            bytes,
        } = value
        {
            self.insert_batch(node, start, first, bytes.as_slice());
        }
    }

    /// Removes all keys, and keeps the room.
    pub fn clear(&mut self)
        ensures keys { self.new.keys ≡ [] }
        ensures room { self.old.room ≤ self.new.room }
    {
        self.keys.clear();
    }

    /// Returns the number of keys.
    pub fn len(&self) -> usize
        ensures { result ≡ length self.now.keys }
    {
        self.keys.len()
    }

    /// Returns true if the set has the key.
    pub fn contains(&self, key: TypedKey) -> bool
        ensures { IsTrue result ↔ Contains self.now.keys (key_of key) }
    {
        self.keys.contains(&key)
    }

    /// Returns the character of the key at `index`, if there is one.
    pub fn byte_at(&self, index: usize) -> Option<u8>
        ensures { result ≡ option_map (λ k. k.byte) (slice_get self.now.keys index) }
    {
        let key = self.keys.get_index(index)?;
        Some(key.byte)
    }

    /// Returns the keys from `index` on. `index` must be at most their number.
    pub fn from_index(&self, index: usize) -> &[TypedKey]
        requires { index ≤ length self.now.keys }
        ensures { map key_of result.now ≡ drop index self.now.keys }
    {
        &self.keys.as_slice()[index..]
    }
}
