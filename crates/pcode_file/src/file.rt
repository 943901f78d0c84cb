//! Code files and their procedures.
ghost use Rattle.std.specs.Prelude.{◌≡◌, ◌<◌, ◌≤◌, ◌+◌, ◌*◌, ◌^◌, [], length, vec_len, vec_capacity, IfOk, IfSome, MatchResult, Ok, Err};
ghost use Rattle.pcode_file.specs.declared.layout.TheConstants.{BLOCK_BYTES, ENTRIES};
ghost use Rattle.pcode_file.specs.InFile.{InFile, HasProc, AreProcs};
ghost use Rattle.pcode_file.specs.Parts.{Parts, procedure_of, name_at};
ghost use Rattle.pcode_file.specs.Checks.{GivesUnlessMemory, IsChecked, all_of, proc_at, first_of, read_from};

use crate::checks::{check_procedures, check_tables, count, proc_at, segment};
use crate::fault::FileFault;
use std::alloc::{AllocError, Global};
use std::marker::Model;

/// A procedure of a segment. Offsets are in bytes from the segment's start.
#[derive(Clone, Copy, Debug, PartialEq, Eq)]
pub struct Proc {
    /// Its number, from 1 on.
    pub number: u8,
    /// Its lex level: 0 for procedure 1, otherwise 1 to 127.
    pub level: u8,
    /// The offset of its first instruction.
    pub enter: u32,
    /// The offset of the code that leaves it.
    pub exit: u32,
    /// The offset of its attribute table's highest word. Its part ends 8 bytes below.
    pub jtab: u32,
    /// The offset at which its part begins.
    pub low: u32,
    /// The size of its parameters in words.
    pub params: u16,
    /// The size of its data in words.
    pub vars: u16,
}

/// A code file that passed all checks.
#[derive(Drop)]
pub struct CodeFile {
    name: [u8; 8],
    segment: Vec<u8>,
    number: u8,
    procs: Vec<Proc>,
}

impl Model for CodeFile {
    ghost use Rattle.pcode_file.specs.Parts.{Parts};

    ghost Value = { Parts };

    ghost use Rattle.pcode_file.specs.InFile.{IsWhole};

    ghost view = { λ f. record {
      name = f.name;
      segment = f.segment.items;
      number = f.number;
      procs = f.procs.items;
    } };

    ghost invariant = { λ f.
        IsWhole (record {
          name = f.name;
          segment = f.segment.items;
          number = f.number;
          procs = f.procs.items;
        }) };
}

/// Returns the procedure of number `i`, from 1 on.
fn procedure_of(procs: &[Proc], i: u8) -> Option<Proc>
    ensures { result ≡ procedure_of procs.now i }
{
    if i == 0 {
        return None;
    }
    procs.get(usize::from(i) - 1).copied()
}

/// Makes room for `procs` procedures and `bytes` bytes. A file that is read allocates here alone,
/// and by these two numbers alone.
fn room(alloc: Global, procs: usize, bytes: usize) -> Result<(Vec<Proc>, Vec<u8>), AllocError>
    ensures procs { IfOk result
        (λ r. (vec_len r.0 ≡ 0) × (r.0.items ≡ []) × (procs ≤ vec_capacity r.0)) }
    ensures bytes { IfOk result
        (λ r. (vec_len r.1 ≡ 0) × (r.1.items ≡ []) × (bytes ≤ vec_capacity r.1)) }
{
    Ok((
        Vec::with_capacity(alloc, procs)?,
        Vec::with_capacity(alloc, bytes)?,
    ))
}

/// Returns the procedures of a segment that passed the checks, in the order of their numbers.
#[tactic(auto, using(std::proofs::lemmas::Grind::common_steps, crate::proofs::Results::one_less, crate::proofs::Results::first_is), unfolding(crate::specs::Checks::all_of))]
fn collected(room: Vec<Proc>, segment: &[u8], n: u8) -> Vec<Proc>
    requires empty { (vec_len room ≡ 0) × (room.items ≡ []) }
    requires room { n ≤ vec_capacity room }
    requires dictionary { 2 + 2 * n ≤ length segment.now }
    requires size { length segment.now < 2 ^ 16 }
    requires checked { first_of (proc_at segment.now n) 1 n ≡ Ok tt }
    ensures { all_of (proc_at segment.now n) 1 n ≡ Ok result.items }
{
    let mut procs = room;
    for k in 0..n {
        let Ok(found) = proc_at(segment, n, k + 1) else {
            unreachable!()
        };
        procs.push(found).unwrap();
    }
    procs
}

/// Returns a copy of a segment's bytes.
fn copied(room: Vec<u8>, segment: &[u8]) -> Vec<u8>
    requires empty { (vec_len room ≡ 0) × (room.items ≡ []) }
    requires room { length segment.now ≤ vec_capacity room }
    ensures { result.items ≡ segment.now }
{
    let mut bytes = room;
    bytes.extend_from_slice(segment).unwrap();
    bytes
}

/// Returns the name in entry `k` of block 0. The names have 8 bytes each, from byte 64 on.
fn name_at(bytes: &[u8], k: usize) -> [u8; 8]
    requires long { BLOCK_BYTES ≤ length bytes.now }
    requires k { k < ENTRIES }
    ensures { result ≡ name_at bytes.now k }
{
    let at = 64 + 8 * k;
    [
        bytes[at],
        bytes[at + 1],
        bytes[at + 2],
        bytes[at + 3],
        bytes[at + 4],
        bytes[at + 5],
        bytes[at + 6],
        bytes[at + 7],
    ]
}

/// Makes all checks of a file in their order. Returns the entry in use, the segment's bytes and the
/// number of its procedures, or the first check that fails.
#[tactic(auto, using(std::proofs::lemmas::Grind::common_steps, crate::proofs::Results::first_is), unfolding(crate::specs::Checks::read_from))]
fn checked(bytes: &[u8]) -> Result<(usize, &[u8], u8), FileFault>
    ensures value { MatchResult result (λ x. IsChecked bytes.now x.0 x.1.now x.2)
        (λ fault. read_from bytes.now ≡ Err fault) }
    ensures entry { IfOk result (λ x. (x.0 < ENTRIES) × (BLOCK_BYTES ≤ length bytes.now)) }
    ensures size { IfOk result (λ x. (2 ≤ length x.1.now) × (length x.1.now < 2 ^ 16)) }
    ensures some { IfOk result (λ x. (0 < x.2) × (2 + 2 * x.2 ≤ length x.1.now)) }
{
    let (k, part) = segment(bytes)?;
    let n = count(part)?;
    check_tables(part, n)?;
    check_procedures(part, n)?;
    Ok((k, part, n))
}

impl CodeFile {
    /// Reads a whole code file. Returns one exactly if `bytes` are a code file, memory aside, and
    /// then with the parts of `bytes`. Otherwise fails with the first check that fails, in the
    /// order of docs/FORMATS.md. Fails with `Memory` only if all checks pass.
    ///
    /// All checks come before memory is allocated.
    pub fn read(alloc: Global, bytes: &[u8]) -> Result<CodeFile, FileFault>
        // What is read is a code file with these parts.
        ensures found { IfOk result (InFile bytes.now) }
        // Every code file is read, unless memory runs out.
        ensures only { (p : Parts) → InFile bytes.now p → GivesUnlessMemory result (Ok p) }
        // The fault is the first check that fails.
        ensures exact { GivesUnlessMemory result (read_from bytes.now) }
    {
        let (k, part, n) = checked(bytes)?;
        let Ok((procs, segment)) = room(alloc, usize::from(n), part.len()) else {
            return Err(FileFault::Memory);
        };
        Ok(CodeFile {
            name: name_at(bytes, k),
            segment: copied(segment, part),
            number: part[part.len() - 2],
            procs: collected(procs, part, n),
        })
    }

    /// Returns the segment's bytes, fewer than 65,536.
    pub fn segment(&self) -> &[u8]
        ensures value { result.now ≡ self.now.segment }
        ensures size { length result.now < 2 ^ 16 }
    {
        self.segment.as_slice()
    }

    /// Returns the segment's name, as it is in block 0.
    pub fn name(&self) -> [u8; 8]
        ensures { result ≡ self.now.name }
    {
        self.name
    }

    /// Returns the segment's number.
    pub fn number(&self) -> u8
        ensures { result ≡ self.now.number }
    {
        self.number
    }

    /// Returns the number of procedures, at least 1.
    pub fn count(&self) -> u8
        ensures value { result ≡ length self.now.procs }
        ensures some { 0 < result }
    {
        self.procs.len() as u8
    }

    /// Returns the procedure of number `i`, and `None` if `i` is 0 or above the count. Its table,
    /// ENTER and EXIT lie where its part and the segment allow.
    pub fn procedure(&self, i: u8) -> Option<Proc>
        ensures value { result ≡ procedure_of self.now.procs i }
        ensures part { IfSome result (HasProc self.now.segment (length self.now.procs) i) }
    {
        procedure_of(self.procs.as_slice(), i)
    }

    /// Returns all procedures, at least one, in the order of their numbers. Their tables, ENTER and
    /// EXIT lie where their parts and the segment allow. Each part begins after the next table
    /// below, or at 0.
    pub fn procedures(&self) -> &[Proc]
        ensures value { result.now ≡ self.now.procs }
        ensures parts { AreProcs self.now.segment self.now.procs }
    {
        self.procs.as_slice()
    }
}
