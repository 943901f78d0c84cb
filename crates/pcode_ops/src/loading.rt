//! Loading: the checks of an offset, and where it leads.
ghost use Rattle.std.specs.Prelude.{◌≡◌, ◌+◌, ◌*◌, ◌^◌, ◌<◌, ◌≤◌, IsTrue, length, Contains, Some, None, Ok, Err, IfOk};
ghost use Rattle.pcode_file.specs.InFile.{AreProcs};
ghost use Rattle.pcode_file.specs.Parts.{procedure_of, end_of};
ghost use Rattle.pcode_ops.specs.Loading.{is_in, owner, legal_call, is_callable, legal_links, legal, leads_in, jump_to, entries_in, goes_on, ends_at, branch_to, cases_to, onward, look};
ghost use Rattle.pcode_ops.specs.Walks.{IsPartWithin, IsPartOf, AreParts, IsWithin, IsTableIn};

use crate::decoding::{cases, decode, get_word};
use crate::fault::OpFault;
use crate::instr::Instr;
use crate::laws::parts_are_apart;
use pcode_file::{CodeFile, Proc};

/// Where an offset without fault leads: to the next offset, to a jump's target, and to the `count`
/// entries of the case table at `table`. Offsets are in bytes from the segment's start.
#[derive(Clone, Copy, Debug, PartialEq, Eq)]
pub(crate) struct Onward {
    pub next: Option<u32>,
    pub target: Option<u32>,
    pub table: u32,
    pub count: u32,
}

/// Returns the procedures of a file, whose parts lie in the segment.
pub(crate) fn parts(file: &CodeFile) -> &[Proc]
    ensures value { result.now ≡ file.now.procs }
    ensures parts { AreParts (length file.now.segment) result.now }
    ensures procs { AreProcs file.now.segment file.now.procs }
{
    file.procedures()
}

/// Returns the offset at which a procedure's part ends.
pub(crate) fn end(part: Proc) -> u32
    ensures { result ≡ end_of part }
{
    part.jtab.saturating_sub(8)
}

/// Returns true if an offset lies in a procedure's part.
fn is_in(part: Proc, at: u32) -> bool
    ensures { result ≡ is_in part at }
{
    part.low <= at && at < end(part)
}

/// Returns the procedure in whose part an offset lies. Fails with `Cut` if there is none.
fn owner(procs: &[Proc], at: u32) -> Result<Proc, OpFault>
    ensures value { result ≡ owner procs.now at }
    ensures one { IfOk result (λ q. Contains procs.now q × IsTrue (is_in q at)) }
{
    for part in procs {
        if is_in(*part, at) {
            return Ok(*part);
        }
    }
    Err(OpFault::Cut)
}

/// Returns the procedure in whose part an offset lies. `near` is the number of the procedure that
/// is tried first, and becomes that of the one found. Offsets one after another then cost the same
/// in a file of one procedure and of 255. The result does not depend on it.
pub(crate) fn owner_near(file: &CodeFile, near: &mut u8, at: u32) -> Result<Proc, OpFault>
    ensures value { result ≡ owner file.now.procs at }
    ensures part { IfOk result (IsPartWithin (length file.now.segment)) }
{
    parts_are_apart();
    let procs = parts(file);
    if let Some(part) = procedure_of(procs, *near) {
        if is_in(part, at) {
            return Ok(part);
        }
    }
    let part = owner(procs, at)?;
    *near = part.number;
    Ok(part)
}

/// Returns the procedure of number `n`, from 1 on.
fn procedure_of(procs: &[Proc], n: u8) -> Option<Proc>
    ensures { result ≡ procedure_of procs.now n }
{
    if n == 0 {
        return None;
    }
    procs.get(usize::from(n) - 1).copied()
}

/// The lex levels to which a call may lead.
#[derive(Clone, Copy, Debug, PartialEq, Eq)]
enum Levels {
    /// One more than the caller's.
    Below,
    /// Level 1.
    First,
    /// From level 1 to one more than the caller's.
    Reachable,
}

/// Returns true if a procedure may call one of lex level `level`.
fn is_callable(levels: Levels, part: Proc, level: u8) -> bool
    ensures { result ≡ is_callable levels part level }
{
    match levels {
        Levels::Below => u16::from(level) == u16::from(part.level) + 1,
        Levels::First => level == 1,
        Levels::Reachable => level >= 1 && u16::from(level) <= u16::from(part.level) + 1,
    }
}

/// Checks that a procedure may call procedure `n`.
fn legal_call(procs: &[Proc], part: Proc, n: u8, levels: Levels) -> Result<(), OpFault>
    ensures { result ≡ legal_call procs.now n (is_callable levels part) }
{
    match procedure_of(procs, n) {
        None => Err(OpFault::NoProcedure),
        Some(found) => {
            if is_callable(levels, part, found.level) {
                Ok(())
            } else {
                Err(OpFault::CallLevel)
            }
        }
    }
}

/// Checks that a procedure has `levels` static links above it.
fn legal_links(part: Proc, levels: u8) -> Result<(), OpFault>
    ensures { result ≡ legal_links part levels }
{
    if part.level < levels {
        return Err(OpFault::LinkDepth);
    }
    Ok(())
}

/// Checks that a procedure may hold an instruction.
fn legal(procs: &[Proc], part: Proc, instr: Instr) -> Result<(), OpFault>
    ensures { result ≡ legal procs.now part instr }
{
    match instr {
        Instr::Clp(n) => legal_call(procs, part, n, Levels::Below),
        Instr::Cgp(n) => legal_call(procs, part, n, Levels::First),
        Instr::Cip(n) => legal_call(procs, part, n, Levels::Reachable),
        Instr::Lod(levels, _) => legal_links(part, levels),
        Instr::Str(levels, _) => legal_links(part, levels),
        Instr::Lda(levels, _) => legal_links(part, levels),
        Instr::Rnp(n) => {
            if part.number == 1 || n > 2 {
                return Err(OpFault::ReturnForm);
            }
            Ok(())
        }
        Instr::Rbp(_) => {
            if part.number == 1 {
                Ok(())
            } else {
                Err(OpFault::ReturnForm)
            }
        }
        _ => Ok(()),
    }
}

/// Returns true if the self-relative pointer at `place` leads into the part.
fn leads_in(segment: &[u8], part: Proc, place: u32) -> bool
    requires place { place + 1 < length segment.now }
    ensures { result ≡ leads_in segment.now part place }
{
    let word = u32::from(get_word(segment, place as usize));
    word <= place && is_in(part, place - word)
}

/// Returns the target of a jump that ends at `next`. Fails with `JumpRange` if it is out of the
/// part.
pub(crate) fn jump_to(segment: &[u8], part: Proc, sb: i8, next: u32) -> Result<u32, OpFault>
    requires part { IsPartOf segment.now part }
    requires next { next ≤ length segment.now }
    ensures value { result ≡ jump_to segment.now part sb next }
    ensures within { IfOk result (λ t. IsTrue (is_in part t)) }
{
    let by = u32::from(sb.unsigned_abs());
    if sb >= 0 {
        let target = next + by;
        if !is_in(part, target) {
            return Err(OpFault::JumpRange);
        }
        return Ok(target);
    }
    if by % 2 != 0 {
        return Err(OpFault::JumpRange);
    }
    if by < 10 {
        return Err(OpFault::JumpRange);
    }
    if part.jtab < part.low + by {
        return Err(OpFault::JumpRange);
    }
    let place = part.jtab - by;
    let word = u32::from(get_word(segment, place as usize));
    if place < word {
        return Err(OpFault::JumpRange);
    }
    if !is_in(part, place - word) {
        return Err(OpFault::JumpRange);
    }
    Ok(place - word)
}

/// Returns true if each pointer of a case table leads into the part.
fn entries_in(segment: &[u8], part: Proc, table: u32, count: u32) -> bool
    requires table { table + 2 * count ≤ length segment.now }
    requires size { length segment.now < 2 ^ 16 }
    ensures { result ≡ entries_in segment.now part table count }
{
    for k in 0..count {
        if !leads_in(segment, part, table + 2 * k) {
            return false;
        }
    }
    true
}

/// Returns the next offset beside a jump's target. Fails with `Cut` if the next offset is out of
/// the part.
fn goes_on(part: Proc, next: u32, target: Option<u32>) -> Result<Onward, OpFault>
    ensures value { result ≡ goes_on part next target }
    ensures shape { IfOk result (λ o. (o.next ≡ Some next) × (o.target ≡ target) × (o.table ≡ 0)
        × (o.count ≡ 0) × IsTrue (is_in part next)) }
{
    if !is_in(part, next) {
        return Err(OpFault::Cut);
    }
    Ok(Onward {
        next: Some(next),
        target,
        table: 0,
        count: 0,
    })
}

/// Returns a jump's target alone: no offset is reached after the instruction.
fn ends_at(target: Option<u32>) -> Onward
    ensures { result ≡ ends_at target }
{
    Onward {
        next: None,
        target,
        table: 0,
        count: 0,
    }
}

/// Returns the target of a jump, and the next offset.
fn branch_to(segment: &[u8], part: Proc, sb: i8, next: u32) -> Result<Onward, OpFault>
    requires part { IsPartOf segment.now part }
    requires next { next ≤ length segment.now }
    ensures value { result ≡ branch_to segment.now part sb next }
    ensures within { IfOk result (IsWithin segment.now) }
{
    let target = jump_to(segment, part, sb, next)?;
    goes_on(part, next, Some(target))
}

/// Returns where a case jump leads: to its UJP, and to the entries of its table.
fn cases_to(segment: &[u8], part: Proc, table: u32, count: u32) -> Result<Onward, OpFault>
    requires table { table + 2 * count ≤ length segment.now }
    requires after { 2 ≤ table }
    requires size { length segment.now < 2 ^ 16 }
    ensures value { result ≡ cases_to segment.now part table count }
    ensures within { IfOk result (IsWithin segment.now) }
{
    if !entries_in(segment, part, table, count) {
        return Err(OpFault::JumpRange);
    }
    Ok(Onward {
        next: Some(table - 2),
        target: None,
        table,
        count,
    })
}

/// Returns where an instruction that ends at `next` leads: targets first, then the next offset.
fn onward_of(segment: &[u8], part: Proc, instr: Instr, next: u32) -> Result<Onward, OpFault>
    requires part { IsPartOf segment.now part }
    requires next { next ≤ length segment.now }
    requires table { IsTableIn (length segment.now) instr }
    ensures value { result ≡ onward segment.now part instr next }
    ensures within { IfOk result (IsWithin segment.now) }
{
    match instr {
        Instr::Ujp(sb) => Ok(ends_at(Some(jump_to(segment, part, sb, next)?))),
        Instr::Fjp(sb) => branch_to(segment, part, sb, next),
        Instr::Efj(sb) => branch_to(segment, part, sb, next),
        Instr::Nfj(sb) => branch_to(segment, part, sb, next),
        Instr::Xjp {
            low,
            high,
            sb: _,
            table,
        } => cases_to(segment, part, table as u32, cases(low, high)),
        Instr::Rnp(_) | Instr::Rbp(_) => Ok(ends_at(None)),
        _ => goes_on(part, next, None),
    }
}

/// Makes all checks of an offset in their order. Returns where the offset leads, or the first
/// fault. `near` is as in `owner_near`.
#[tactic(auto, unfolding(crate::specs::Loading::look))]
pub(crate) fn look(file: &CodeFile, near: &mut u8, at: u32) -> Result<Onward, OpFault>
    ensures value { result ≡ look file.now at }
    ensures within { IfOk result (IsWithin file.now.segment) }
{
    let segment = file.segment();
    let procs = parts(file);
    let part = owner_near(file, near, at)?;
    let (instr, next) = decode(&segment[..end(part) as usize], at as usize)?;
    legal(procs, part, instr)?;
    onward_of(segment, part, instr, next as u32)
}
