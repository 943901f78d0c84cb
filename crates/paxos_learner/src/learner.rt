//! A learner.
ghost use Rattle.std.specs.Prelude.{◌≡◌, ◌≢◌, ◌↔◌, ◌+◌, ◌<◌, ◌≤◌, [], ◌++◌, IsSome, IsTrue, IfOk, None, OnOk, OnErr, Contains, length, min, slice_get};
ghost use Rattle.std.specs.FinMap.{get};
ghost use Rattle.paxos_learner.specs.Entered.{key_of, keys_with};
ghost use Rattle.paxos_learner.specs.Learner.{AreInWindow, IsFront, front_of, is_open, learn, new_learner, heard_accepted, heard_tell};
ghost use Rattle.paxos_learner.specs.Input.{StandsIn, front_values, input_of, keys_in_order, learned_input, values_below};
ghost use Rattle.paxos_learner.specs.Kept.{IsInputOf};
ghost use Rattle.paxos_learner.specs.declared.heard.Heard.TheVariants.{Passed};
ghost use Rattle.paxos_msg.specs.declared.limits.TheConstants.{LAST_PLACE, MOST_CHARACTERS, MOST_NODES, PLACES};
ghost use Rattle.paxos_learner.specs.declared.learner.TheConstants.{WINDOW};

use crate::heard::{Heard, LearnerFault};
use crate::input::{Input, InputAfter};
use crate::keys::{KeySet, TypedKey};
use crate::place_map::PlaceMap;
use crate::tally::{Tally, tallied};
use paxos_msg::limits::MOST_CHARACTERS;
use paxos_msg::{Ballot, Value};
use std::alloc::{AllocError, Global};
use std::marker::Model;

/// The number of places above the front that a learner keeps: a place from the front on is open if
/// it is less than `WINDOW` above the front.
pub const WINDOW: u32 = 1_024;

/// Learns the value of each place, 0 to 65,535, in a group of `size` nodes, from the messages of
/// its nodes.
///
/// A call that only reads, and a message about one place, take a search, and one for a key two. A
/// learned place takes one more for each of its keys, at most 32, if it is above the front, and for
/// each key of the places by which the front then rises. No call goes over all places.
pub struct Learner {
    size: u8,
    learned: PlaceMap<Value>,
    // The tallies of places that are not learned.
    tallies: PlaceMap<Tally>,
    // The input of the places below the front.
    input: Input,
    // The keys of the learned values above the front, which the input does not have yet. There may
    // be others, until no learned place is above it.
    above: KeySet,
    // One more than the greatest learned place.
    top: u32,
}

impl Drop for Learner {
    fn drop(self) {
        let Learner {
            size: _size,
            learned: _learned,
            tallies: _tallies,
            input: _input,
            above: _above,
            top: _top,
        } = self;
    }
}

impl Model for Learner {
    ghost use Rattle.paxos_learner.specs.Learner.{Learner as State};
    ghost use Rattle.paxos_learner.specs.Codes.{learner_code};

    ghost Value = { State };

    ghost coded = { learner_code };

    ghost use Rattle.paxos_learner.specs.Kept.{IsKept};

    ghost view = { λ l. record {
      size = l.size;
      learned = l.learned.map;
      tallies = l.tallies.map;
    } };

    ghost invariant = { λ l. IsKept l.size l.learned.map l.input l.top l.above.keys };
}

/// Enters the values at the places from the end of the input on, up to the first that is not
/// learned.
fn raise_front(learned: &PlaceMap<Value>, input: &mut Input)
    requires { IsInputOf learned.now.map input.old }
    ensures input { IsInputOf learned.now.map input.new }
    ensures here { get learned.now.map (length input.new.ends) ≡ None }
    ensures longer { length input.old.ends ≤ length input.new.ends }
{
    while let Some(value) = learned.get(input.places()) {
        input.enter(value);
    }
}

/// Keeps the keys of the value that is learned at `place`, if there is a hole below it. At the
/// front itself they enter the input.
fn keep_above(above: &mut KeySet, front: u32, place: u32, value: Value)
    requires { MOST_CHARACTERS ≤ above.old.room }
    ensures next { place ≤ front → above.new.keys ≡ above.old.keys }
    ensures later { front < place → above.new.keys ≡ keys_with above.old.keys value }
{
    if place > front {
        above.insert(value);
    }
}

/// Drops the keys that are kept, if no learned place is above the front.
fn drop_passed(above: &mut KeySet, front: u32, top: u32)
    ensures passed { top ≤ front → above.new.keys ≡ [] }
    ensures kept { front < top → above.new.keys ≡ above.old.keys }
{
    if top <= front {
        above.clear();
    }
}

impl Learner {
    /// Returns a learner that has heard nothing, in a group of `size` nodes, at most 9.
    ///
    /// It takes no memory.
    pub fn new(alloc: Global, size: u8) -> Learner
        requires { size ≤ MOST_NODES }
        ensures { result ≡ new_learner size }
    {
        Learner {
            size,
            learned: PlaceMap::new(alloc),
            tallies: PlaceMap::new(alloc),
            input: Input::new(alloc),
            above: KeySet::new(alloc),
            top: 0,
        }
    }

    /// Returns true if `place` is not learned, and less than 1,024 places above the front.
    fn is_open(&self, place: u32) -> bool
        ensures { result ≡ is_open self.now place }
    {
        place < self.known_front() + WINDOW && self.learned(place).is_none()
    }

    /// Learns the value at `place`, which is open. It first makes the room for it and for the rise
    /// of the front, at most 32 keys a place. So after an error nothing has changed.
    fn learn(&mut self, place: u32, value: &Value) -> Result<(), AllocError>
        requires open { IsTrue (is_open self.old place) }
        requires place { place ≤ LAST_PLACE }
        ensures ok { OnOk result (self.new ≡ (learn self.old place value.now).learner) }
        ensures err { OnErr result (self.new ≡ self.old) }
    {
        let front = self.input.places();
        let places = place + 1 - front;
        self.learned.make_room()?;
        self.above.reserve(MOST_CHARACTERS)?;
        self.input.reserve(places as usize)?;
        self.learned.insert(place, *value);
        keep_above(&mut self.above, front, place, *value);
        self.tallies.remove(place);
        self.top = self.top.max(place + 1);
        raise_front(&self.learned, &mut self.input);
        drop_passed(&mut self.above, self.input.places(), self.top);
        Ok(())
    }

    /// Hears that node `sender` has accepted `value` at `place` under `ballot` (`heard_accepted`).
    /// Returns `Learned` if the place is learned now, `Counted` if its tally alone has changed, and
    /// `Passed` if nothing has. Fails only with `Memory`, and only where something would change;
    /// then nothing has changed.
    ///
    /// A message is ignored if its place is learned, or 1,024 or more above the front. At any other
    /// place a greater ballot than before begins a new tally, and a node counts once. A smaller
    /// ballot, or another value under the same one, is ignored. The place is learned if more than
    /// half of the nodes 1 to `size` have now accepted the value under one ballot. Room is made as
    /// for 32 keys at each place from the front up to a learned one.
    ///
    /// A message takes a search of the learned places, and for an open place one of the tallies. A
    /// tally that changes is written where that search has found it. A second search puts the first
    /// tally of a place, or takes out the tally of a learned place. A place that has a tally takes
    /// no memory before it is learned.
    pub fn on_accepted(
        &mut self,
        sender: u8,
        ballot: Ballot,
        place: u32,
        value: Value,
    ) -> Result<Heard, LearnerFault>
        requires sender { sender ≤ MOST_NODES }
        requires place { place ≤ LAST_PLACE }
        ensures ok { OnOk result
            (self.new ≡ (heard_accepted self.old sender ballot place value).learner) }
        ensures answer { IfOk result
            (λ heard. heard ≡ (heard_accepted self.old sender ballot place value).answer) }
        ensures needs { OnErr result
            ((heard_accepted self.old sender ballot place value).answer ≢ Passed) }
        ensures err { OnErr result (self.new ≡ self.old) }
    {
        if !self.is_open(place) {
            return Ok(Heard::Passed);
        }
        let (index, heard) = self.tallies.find(place).unzip();
        let Some(tally) = tallied(heard, sender, ballot, value) else {
            return Ok(Heard::Passed);
        };
        if tally.is_majority(self.size) {
            self.learn(place, &tally.value())?;
            return Ok(Heard::Learned);
        }
        match index {
            Some(index) => self.tallies.put_at(index, tally),
            None => self.tallies.put(place, tally)?,
        }
        Ok(Heard::Counted)
    }

    /// Hears that a node has learned `value` at `place`, at most 65,535 (`heard_tell`). Returns
    /// `Learned` if this learner has now learned it. Returns `Passed` if nothing has changed: the
    /// place was learned before, or is 1,024 or more above the front. Fails only with `Memory`, and
    /// only if it would learn; then nothing has changed.
    ///
    /// Room is made as for 32 keys at each place from the front up to the learned one.
    pub fn on_tell(&mut self, place: u32, value: Value) -> Result<Heard, LearnerFault>
        requires { place ≤ LAST_PLACE }
        ensures ok { OnOk result (self.new ≡ (heard_tell self.old place value).learner) }
        ensures answer { IfOk result (λ heard. heard ≡ (heard_tell self.old place value).answer) }
        ensures needs { OnErr result ((heard_tell self.old place value).answer ≢ Passed) }
        ensures err { OnErr result (self.new ≡ self.old) }
    {
        if self.is_open(place) {
            self.learn(place, &value)?;
            return Ok(Heard::Learned);
        }
        Ok(Heard::Passed)
    }

    /// Returns the value that is learned at `place`, if any. `place` may be any number. A learned
    /// place is at most 65,535, and less than 1,024 above the known front.
    pub fn learned(&self, place: u32) -> Option<Value>
        ensures value { result ≡ get self.now.learned place }
        ensures place { IsSome result → place ≤ LAST_PLACE }
        ensures window { IsSome result → place < front_of self.now.learned + WINDOW }
    {
        self.learned.get(place)
    }

    /// Returns the known front: the least place that is not learned, at most 65,536. Each learned
    /// place is at most 65,535, and less than 1,024 above it.
    pub fn known_front(&self) -> u32
        ensures front { result ≡ front_of self.now.learned }
        ensures least { IsFront self.now.learned result }
        ensures few { result ≤ PLACES }
        ensures window { AreInWindow self.now.learned }
    {
        self.input.places()
    }

    /// Returns the input bytes that the places from `place` up to and without the front add, in
    /// order: none if `place` is not below the front. A key at several places is read at the first
    /// alone. So of a batch that overlaps an earlier one only the new keys are added. `place` may
    /// be any number.
    pub fn input_after(&self, place: u32) -> InputAfter<'_>
        ensures { input_of (values_below self.now.learned (min place (front_of self.now.learned)))
            ++ result ≡ learned_input self.now.learned }
    {
        self.input.after(place)
    }

    /// Returns the number of bytes of the learned input.
    pub fn input_len(&self) -> usize
        ensures { result ≡ length (learned_input self.now.learned) }
    {
        self.input.keys().len()
    }

    /// Returns the byte of the learned input at `index`, from 0 on, if there is one.
    pub fn input_at(&self, index: usize) -> Option<u8>
        ensures { result ≡ slice_get (learned_input self.now.learned) index }
    {
        self.input.keys().byte_at(index)
    }

    /// Returns true if the key is read in the learned input, that is, if it is in the value of a
    /// place below the front.
    pub fn has_read(&self, key: TypedKey) -> bool
        ensures { IsTrue result
            ↔ Contains (keys_in_order (front_values self.now.learned)) (key_of key) }
    {
        self.input.keys().contains(key)
    }

    /// Returns true if the key is in a learned value at any place, also above the front.
    pub fn has_learned(&self, key: TypedKey) -> bool
        ensures { IsTrue result ↔ StandsIn self.now.learned (key_of key) }
    {
        self.has_read(key) || self.above.contains(key)
    }
}
