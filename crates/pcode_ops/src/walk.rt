//! The search for reached offsets.
ghost use Rattle.std.specs.Prelude.{◌≡◌, ℕ, ◌+◌, ◌*◌, ◌<◌, ◌≤◌, ◌↔◌, length, false, slice_get, Some, IsTrue, IfOk, IfSome};
ghost use Rattle.pcode_ops.specs.Loading.{IsCaseEntry, IsFine, LeadsTo};
ghost use Rattle.pcode_ops.specs.Walks.{Marks, IsMarked, IsListing, IsWalkOf, IsWithin, Adds, blank_marks, IsStarted, MarksReached};

use crate::decoding::get_word;
use crate::loading::{Onward, look, parts};
use pcode_file::CodeFile;
use std::alloc::{AllocError, Global};
use std::marker::Model;

/// A flag for each offset, and the flagged offsets in the order in which they were found.
#[derive(Drop)]
pub(crate) struct Walk {
    flags: Vec<bool>,
    found: Vec<u32>,
}

impl Model for Walk {
    ghost use Rattle.std.specs.Prelude.{vec_len, vec_capacity};
    ghost use Rattle.pcode_ops.specs.Walks.{Marks, IsRoomy};

    ghost Value = { Marks };

    ghost view = { λ w. record { flags = w.flags.items; found = w.found.items } };

    ghost invariant = { λ w.
        IsRoomy (record { flags = w.flags.items; found = w.found.items }) (vec_len w.flags)
        (vec_capacity w.found) };
}

impl Walk {
    /// Makes a walk that has found nothing, with room for `size` offsets.
    pub(crate) fn new(alloc: Global, size: usize) -> Result<Walk, AllocError>
        ensures { IfOk result (λ w. w ≡ blank_marks size) }
    {
        let flags = vec![in alloc; false; size]?;
        let found = Vec::with_capacity(alloc, size)?;
        Ok(Walk { flags, found })
    }

    /// Returns true if an offset is found.
    pub(crate) fn has(&self, at: u32) -> bool
        ensures { IsTrue result ↔ IsMarked self.now at }
    {
        match self.flags.get(at as usize) {
            Some(flag) => *flag,
            None => false,
        }
    }

    /// Returns the number of found offsets.
    pub(crate) fn len(&self) -> usize
        ensures value { result ≡ length self.now.found }
        ensures listing { IsListing self.now }
        ensures fits { result ≤ length self.now.flags }
    {
        self.found.len()
    }

    /// Returns the offset that was found after `k` others.
    pub(crate) fn get(&self, k: usize) -> u32
        requires { k < length self.now.found }
        ensures { slice_get self.now.found k ≡ Some result }
    {
        self.found[k]
    }

    /// Marks an offset.
    fn mark(&mut self, at: u32)
        requires { at < length self.old.flags }
        ensures { Adds (λ i. i ≡ at) self.old self.new }
    {
        if self.flags[at as usize] {
            return;
        }
        self.flags[at as usize] = true;
        self.found.push(at).unwrap();
    }
}

/// Marks an offset, if there is one.
fn mark_some(walk: &mut Walk, at: Option<u32>)
    requires { IfSome at (λ i. i < length walk.old.flags) }
    ensures { Adds (λ i. at ≡ Some i) walk.old walk.new }
{
    if let Some(i) = at {
        walk.mark(i);
    }
}

/// Marks the targets of a case table's entries.
fn mark_entries(file: &CodeFile, walk: &mut Walk, table: u32, count: u32)
    requires table { table + 2 * count ≤ length file.now.segment }
    requires size { IsWalkOf file.now walk.old }
    ensures { Adds (IsCaseEntry file.now.segment table count) walk.old walk.new }
{
    let segment = file.segment();
    for k in 0..count {
        let place = table + 2 * k;
        let word = get_word(segment, place as usize);
        walk.mark(place.saturating_sub(u32::from(word)));
    }
}

/// Marks where an offset leads.
fn mark_onward(file: &CodeFile, walk: &mut Walk, onward: Onward)
    requires within { IsWithin file.now.segment onward }
    requires size { IsWalkOf file.now walk.old }
    ensures { Adds (LeadsTo file.now.segment onward) walk.old walk.new }
{
    mark_some(walk, onward.next);
    mark_some(walk, onward.target);
    mark_entries(file, walk, onward.table, onward.count);
}

/// Marks each ENTER and EXIT.
fn mark_starts(file: &CodeFile, walk: &mut Walk)
    requires { IsStarted file.now 0 walk.old }
    ensures { IsStarted file.now (length file.now.procs) walk.new }
{
    for part in parts(file) {
        walk.mark(part.enter);
        walk.mark(part.exit);
    }
}

/// Looks at each offset that it finds, until it finds no more. Returns true if one has a fault.
fn search_on(file: &CodeFile, walk: &mut Walk) -> bool
    requires { IsStarted file.now (length file.now.procs) walk.old }
    ensures exact { MarksReached file.now walk.new }
    ensures size { IsWalkOf file.now walk.new }
    ensures fine { result ≡ false → (i : ℕ) → IsMarked walk.new i → IsFine file.now i }
{
    let mut near = 1;
    let mut done = 0;
    let mut is_faulty = false;
    while done < walk.len() {
        let at = walk.get(done);
        match look(file, &mut near, at) {
            Ok(onward) => mark_onward(file, walk, onward),
            Err(_) => is_faulty = true,
        }
        done += 1;
    }
    is_faulty
}

/// Returns the reached offsets, found by a walk that has found nothing yet, and whether one of them
/// has a fault.
pub(crate) fn walk_over(blank: Walk, file: &CodeFile) -> (Walk, bool)
    requires { blank ≡ blank_marks (length file.now.segment) }
    ensures exact { MarksReached file.now result.0 }
    ensures size { IsWalkOf file.now result.0 }
    ensures fine { result.1 ≡ false → (i : ℕ) → IsMarked result.0 i → IsFine file.now i }
{
    let mut walk = blank;
    mark_starts(file, &mut walk);
    let is_faulty = search_on(file, &mut walk);
    (walk, is_faulty)
}
