//! A map from places.
ghost use Rattle.std.specs.Prelude.{◌≡◌, ◌<◌, IfSome, OnErr, OnOk, length, option_map, slice_index};
ghost use Rattle.std.specs.FinMap.{empty, get, insert, remove};

use indexmap::IndexMap;
use std::alloc::{AllocError, Global};
use std::marker::Model;

/// Values by place. Contracts see a finite map, the index of each place, and how many more places
/// have room.
#[derive(Drop)]
pub struct PlaceMap<V: Copy> {
    entries: IndexMap<u32, V>,
}

impl<V: Copy> Model for PlaceMap<V> {
    ghost use Rattle.paxos_learner.specs.PlaceMaps.{Places, places_code};

    ghost Value = { Places V };

    ghost coded = { places_code V.code };

    ghost use Rattle.std.specs.FinMap.{from_entries};
    ghost use Rattle.indexmap.specs.IndexMap.{keys, spare};

    ghost view = { λ m. record {
      map = from_entries m.entries.entries;
      places = keys m.entries;
      room = spare m.entries;
    } };
}

impl<V: Copy> PlaceMap<V> {
    /// Returns a map without a place. It takes no memory.
    pub fn new(alloc: Global) -> PlaceMap<V>
        ensures { result.map ≡ empty }
    {
        PlaceMap {
            entries: IndexMap::new(alloc),
        }
    }

    /// Returns the value at `place`.
    pub fn get(&self, place: u32) -> Option<V>
        ensures { result ≡ get self.now.map place }
    {
        self.entries.get(&place).copied()
    }

    /// Returns the index of `place`, and its value.
    pub fn find(&self, place: u32) -> Option<(usize, V)>
        ensures value { option_map (λ found. found.1) result ≡ get self.now.map place }
        ensures within { IfSome result (λ found. found.0 < length self.now.places) }
        ensures place { IfSome result (λ found. slice_index self.now.places found.0 ≡ place) }
    {
        let (index, _, value) = self.entries.get_full(&place)?;
        Some((index, *value))
    }

    /// Puts `value` at the place that has this index, which a `find` returned. It takes no search.
    pub fn put_at(&mut self, index: usize, value: V)
        requires { index < length self.old.places }
        ensures { self.new.map ≡ insert self.old.map (slice_index self.old.places index) value }
    {
        let (_, old) = self.entries.pair_mut(index);
        *old = value;
    }

    /// Makes room for one more place. After an error nothing has changed.
    pub fn make_room(&mut self) -> Result<(), AllocError>
        ensures map { self.new.map ≡ self.old.map }
        ensures room { OnOk result (0 < self.new.room) }
    {
        self.entries.reserve(1)
    }

    /// Puts `value` at `place`. There is room for it.
    pub fn insert(&mut self, place: u32, value: V)
        requires { 0 < self.old.room }
        ensures { self.new.map ≡ insert self.old.map place value }
    {
        self.entries.insert(place, value).unwrap();
    }

    /// Puts `value` at `place`. A place that has a value takes no memory. After an error nothing
    /// has changed.
    pub fn put(&mut self, place: u32, value: V) -> Result<(), AllocError>
        ensures ok { OnOk result (self.new.map ≡ insert self.old.map place value) }
        ensures err { OnErr result (self.new.map ≡ self.old.map) }
    {
        self.entries.insert(place, value)?;
        Ok(())
    }

    /// Removes the value at `place`, if there is one. Indices that were found before may be of
    /// other places then.
    pub fn remove(&mut self, place: u32)
        ensures { self.new.map ≡ remove self.old.map place }
    {
        self.entries.swap_remove(&place);
    }
}
