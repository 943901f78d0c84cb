//! A disk in memory, on which calls fail and a crash comes as planned.
ghost use Rattle.std.specs.Prelude.{◌≡◌, ◌^◌, ◌+◌, ◌<◌, ◌++◌, ℕ, List, [], None, Some, false, get_or, length, option_map, take, if◌then◌else◌, IfOk, OnErr, OnOk};
ghost use Rattle.paxos_disk.specs.Disks.{bytes_if, doubted, put, synced, unsynced};
ghost use Rattle.paxos_disk.specs.MemoryDisks.{fate_by, file_with, folder_of, file_state_if, file_state, left_of, loose_of, named_in, plan_after};
ghost use Rattle.paxos_disk.specs.Reads.{IsLengthOf};
ghost use Rattle.paxos_acceptor.specs.Stores.{IsOneOf};

use crate::disk::sectors::SECTOR;
use crate::disk::{Disk, DiskFault, counted};
use crate::store::log_store::LogStore;
use paxos_acceptor::Me;
use std::alloc::{AllocError, Global};

/// A file: the bytes that a crash leaves, those after them that it may cut, and whether no sync of
/// it has failed.
#[derive(Drop)]
pub(crate) struct MemoryFile {
    kept: Vec<u8>,
    more: Vec<u8>,
    is_sound: bool,
}

/// What becomes of a call.
#[derive(Clone, Copy)]
enum Fate {
    Whole,
    /// It fails, and has done that much: so many bytes of a write, or all of another call if it is
    /// not 0.
    Part(usize),
    /// It fails, and has done nothing.
    Nothing,
}

/// When calls fail.
#[derive(Clone, Copy, Drop)]
pub struct FaultPlan {
    /// How many calls go well before one fails.
    pub calls: u64,
    /// How much the call that fails does: so many bytes of a write, or all of another call if it is
    /// not 0.
    pub part: usize,
    /// Whether it is a crash, so that each later call fails too.
    pub is_crash: bool,
}

/// A disk in memory with a plan. Without one no call fails, unless memory runs out.
#[derive(Drop)]
pub struct MemoryDisk {
    alloc: Global,
    file: Option<MemoryFile>,
    others: Vec<Option<MemoryFile>>,
    fresh: Option<MemoryFile>,
    plan: Option<FaultPlan>,
    faults: u64,
}

/// Returns what becomes of the next call.
fn fate_of(plan: &mut Option<FaultPlan>) -> Fate
    ensures fate { result ≡ fate_by plan.old }
    ensures plan { plan.new ≡ plan_after plan.old }
{
    match plan {
        None => Fate::Whole,
        Some(now) if now.calls > 0 => {
            now.calls -= 1;
            Fate::Whole
        }
        Some(now) => {
            let fate = if now.part > 0 {
                Fate::Part(now.part)
            } else {
                Fate::Nothing
            };
            if now.is_crash {
                now.part = 0;
            } else {
                *plan = None;
            }
            fate
        }
    }
}

/// Syncs a file.
fn sync_file(file: &mut Option<MemoryFile>, fate: Fate) -> Result<(), DiskFault>
    ensures ok { OnOk result (file_state_if file.new ≡ synced (file_state_if file.old)) }
    ensures err { OnErr result
        (IsOneOf (file_state_if file.new) (file_state_if file.old)
        (doubted (file_state_if file.old))) }
{
    match file {
        Some(file) => sync_open(file, fate),
        None => Err(DiskFault),
    }
}

/// Syncs a file that is there.
fn sync_open(file: &mut MemoryFile, fate: Fate) -> Result<(), DiskFault>
    ensures ok { OnOk result (Some (file_state file.new) ≡ synced (Some (file_state file.old))) }
    ensures err { OnErr result (IsOneOf (file_state file.new) (file_state file.old)
        (record (file_state file.old) { is_sound = false })) }
{
    match fate {
        Fate::Whole => {}
        Fate::Part(_) => {
            file.is_sound = false;
            return Err(DiskFault);
        }
        Fate::Nothing => return Err(DiskFault),
    }
    if !file.is_sound {
        return Ok(());
    }
    let Ok(()) = file.kept.extend_from_slice(file.more.as_slice()) else {
        return Err(DiskFault);
    };
    file.more.clear();
    Ok(())
}

/// The most bytes that a file, or what is appended to it, has.
const MOST_BYTES: usize = 1 << 61;

/// Appends bytes to a file.
fn append_to(file: &mut MemoryFile, bytes: &[u8], fate: Fate) -> Result<(), DiskFault>
    ensures ok { OnOk result (file_state file.new
        ≡ record (file_state file.old) { more = file.old.more.items ++ bytes.now }) }
    ensures short { OnOk result
        (length (file.new.kept.items ++ file.new.more.items) < 2 ^ 63) }
    ensures err { OnErr result ((xs : List ℕ) × (ys : List ℕ) × (bytes.now ≡ xs ++ ys)
        × (file_state file.new
        ≡ record (file_state file.old) { more = file.old.more.items ++ xs })) }
{
    if file.kept.len() > MOST_BYTES || file.more.len() > MOST_BYTES || bytes.len() > MOST_BYTES {
        return Err(DiskFault);
    }
    let count = match fate {
        Fate::Whole => bytes.len(),
        Fate::Part(count) => count.min(bytes.len()),
        Fate::Nothing => return Err(DiskFault),
    };
    let Ok(()) = file.more.extend_from_slice(&bytes[..count]) else {
        return Err(DiskFault);
    };
    match fate {
        Fate::Whole => Ok(()),
        _ => Err(DiskFault),
    }
}

/// Begins a file anew and writes the bytes to it, none of them on the disk for sure.
fn write_anew(
    alloc: Global,
    file: &mut Option<MemoryFile>,
    bytes: &[u8],
    fate: Fate,
) -> Result<(), DiskFault>
    ensures { OnOk result (file_state_if file.new ≡ Some (unsynced bytes.now)) }
{
    let count = match fate {
        Fate::Whole => bytes.len(),
        Fate::Part(count) => count.min(bytes.len()),
        Fate::Nothing => return Err(DiskFault),
    };
    let Ok(more) = bytes[..count].to_vec(alloc) else {
        return Err(DiskFault);
    };
    *file = Some(MemoryFile {
        kept: Vec::new(alloc),
        more,
        is_sound: true,
    });
    match fate {
        Fate::Whole => Ok(()),
        _ => Err(DiskFault),
    }
}

/// Gives the second file the name of the first, which may still have it after a crash.
fn put_in_place(
    file: &mut Option<MemoryFile>,
    others: &mut Vec<Option<MemoryFile>>,
    fresh: &mut Option<MemoryFile>,
    fate: Fate,
) -> Result<(), DiskFault>
    ensures ok { OnOk result (folder_of file.new others.new.items fresh.new
        ≡ put (folder_of file.old others.old.items fresh.old)) }
    ensures err { OnErr result (IsOneOf (folder_of file.new others.new.items fresh.new)
        (folder_of file.old others.old.items fresh.old)
        (put (folder_of file.old others.old.items fresh.old))) }
{
    let is_whole = match fate {
        Fate::Whole => true,
        Fate::Part(_) => false,
        Fate::Nothing => return Err(DiskFault),
    };
    match others.insert(0, file.take()) {
        Ok(()) => {}
        Err(failed) => {
            *file = failed.value;
            return Err(DiskFault);
        }
    }
    *file = fresh.take();
    if is_whole { Ok(()) } else { Err(DiskFault) }
}

/// Returns the length of a file, if it is there.
fn length_of(file: &Option<MemoryFile>) -> Option<u64>
    ensures { IsLengthOf (bytes_if (file_state_if file.now)) result }
{
    match file {
        Some(file) => Some(file.kept.len() as u64 + file.more.len() as u64),
        None => None,
    }
}

/// Fills the bytes with the first ones of a file. Fails if it has fewer.
fn read_of(file: &MemoryFile, bytes: &mut [u8]) -> Result<(), DiskFault>
    ensures { OnOk result
        (bytes.new ≡ take (length bytes.old) (file.now.kept.items ++ file.now.more.items)) }
{
    let (kept, more) = (file.kept.as_slice(), file.more.as_slice());
    if bytes.len() <= kept.len() {
        bytes.copy_from_slice(&kept[..bytes.len()]);
        return Ok(());
    }
    let rest = bytes.len() - kept.len();
    if rest > more.len() {
        return Err(DiskFault);
    }
    let (first, last) = bytes.split_at_mut(kept.len());
    first.copy_from_slice(kept);
    last.copy_from_slice(&more[..rest]);
    Ok(())
}

/// Returns what is left of a byte in this sector, counted from the first one that may be lost: a
/// zero if the sector is lost.
fn byte_left(byte: u8, sector: usize, lost: [bool; 2]) -> u8
    ensures { result ≡ (if get_or lost sector false then 0 else byte) }
{
    if sector < lost.len() && lost[sector] {
        0
    } else {
        byte
    }
}

/// Returns the bytes of a file on the disk, and behind them so many of those after them, with zeros
/// in the place of those in the lost sectors. Sector 0 is the one in which these bytes begin.
fn torn_file(file: &MemoryFile, count: usize, lost: [bool; 2]) -> Result<Vec<u8>, AllocError>
    ensures { IfOk result (λ bytes. Some bytes.items
        ≡ left_of (Some (file_state file.now)) count lost) }
{
    let more = file.more.as_slice();
    let mut bytes = file.kept.clone()?;
    let first = bytes.len() / SECTOR;
    for byte in &more[..count.min(more.len())] {
        let sector = (bytes.len() / SECTOR).saturating_sub(first);
        bytes.push(byte_left(*byte, sector, lost))?;
    }
    Ok(bytes)
}

impl LogStore<MemoryDisk> {
    /// Returns a store on a disk in memory that has no file.
    pub fn in_memory(alloc: Global, me: Me) -> LogStore<MemoryDisk>
        ensures me { result.filed.me ≡ me }
        ensures none { folder_of result.disk.file result.disk.others.items result.disk.fresh
            ≡ record { file = None; others = []; fresh = None } }
    {
        LogStore::new(alloc, MemoryDisk::empty(alloc), me)
    }
}

impl MemoryDisk {
    /// Returns a disk that has no file.
    pub fn empty(alloc: Global) -> MemoryDisk
        ensures { folder_of result.file result.others.items result.fresh
            ≡ record { file = None; others = []; fresh = None } }
    {
        MemoryDisk {
            alloc,
            file: None,
            others: Vec::new(alloc),
            fresh: None,
            plan: None,
            faults: 0,
        }
    }

    /// Returns a disk whose file has these bytes, all of them on the disk, or that has no file.
    pub fn new(alloc: Global, bytes: Option<Vec<u8>>) -> MemoryDisk
        ensures folder { folder_of result.file result.others.items result.fresh
            ≡ record {
              file = file_with (option_map (λ b. b.items) bytes);
              others = [];
              fresh = None;
            } }
        ensures unplanned { result.plan ≡ None }
    {
        let file = match bytes {
            Some(bytes) => Some(MemoryFile {
                kept: bytes,
                more: Vec::new(alloc),
                is_sound: true,
            }),
            None => None,
        };
        MemoryDisk {
            alloc,
            file,
            others: Vec::new(alloc),
            fresh: None,
            plan: None,
            faults: 0,
        }
    }

    /// Plans the calls from now on.
    pub fn plan(&mut self, plan: Option<FaultPlan>)
        ensures { self.new ≡ record self.old { plan = plan } }
    {
        self.plan = plan;
    }

    /// Returns how many files may have the name after a crash: the one that has it, and others.
    pub fn names(&self) -> usize
        ensures { result ≡ 1 + length self.now.others.items }
    {
        1 + self.others.len()
    }

    /// Returns the file of that number that may have the name after a crash, if there is one.
    fn named(&self, which: usize) -> Option<&MemoryFile>
        ensures { option_map (λ file. file_state file.now) result
            ≡ named_in (folder_of self.now.file self.now.others.items self.now.fresh) which }
    {
        let file = if which == 0 {
            &self.file
        } else {
            self.others.get(which - 1)?
        };
        file.as_ref()
    }

    /// Returns how many bytes of that file are not on the disk for sure.
    pub fn loose(&self, which: usize) -> usize
        ensures { result ≡ loose_of (named_in
            (folder_of self.now.file self.now.others.items self.now.fresh) which) }
    {
        match self.named(which) {
            Some(file) => file.more.len(),
            None => 0,
        }
    }

    /// Returns what a restart finds after a crash that leaves the name with that file, and of the
    /// bytes that are not on the disk for sure so many, zeros in the place of those in the lost
    /// sectors. Sector 0 is the one in which these bytes begin.
    pub fn left(
        &self,
        alloc: Global,
        which: usize,
        count: usize,
        lost: [bool; 2],
    ) -> Result<Option<Vec<u8>>, AllocError>
        ensures { IfOk result (λ left. option_map (λ bytes. bytes.items) left
            ≡ left_of (named_in (folder_of self.now.file self.now.others.items self.now.fresh)
            which) count lost) }
    {
        match self.named(which) {
            Some(file) => Ok(Some(torn_file(file, count, lost)?)),
            None => Ok(None),
        }
    }
}

impl Disk for MemoryDisk {
    ghost honest = { Unit {0} };

    ghost folder = { λ d. folder_of d.file d.others.items d.fresh };

    ghost faults = { λ d. d.faults };

    fn length(&mut self) -> Result<Option<u64>, DiskFault> {
        let done = match fate_of(&mut self.plan) {
            Fate::Whole => Ok(length_of(&self.file)),
            _ => Err(DiskFault),
        };
        counted(done, &mut self.faults)
    }

    fn read(&mut self, bytes: &mut [u8]) -> Result<(), DiskFault> {
        let done = match (fate_of(&mut self.plan), &self.file) {
            (Fate::Whole, Some(file)) => read_of(file, bytes),
            _ => Err(DiskFault),
        };
        counted(done, &mut self.faults)
    }

    fn append(&mut self, bytes: &[u8]) -> Result<(), DiskFault> {
        let fate = fate_of(&mut self.plan);
        let done = match &mut self.file {
            Some(file) => append_to(file, bytes, fate),
            None => Err(DiskFault),
        };
        counted(done, &mut self.faults)
    }

    fn sync(&mut self) -> Result<(), DiskFault> {
        let fate = fate_of(&mut self.plan);
        let done = sync_file(&mut self.file, fate);
        counted(done, &mut self.faults)
    }

    fn sync_folder(&mut self) -> Result<(), DiskFault> {
        let done = match fate_of(&mut self.plan) {
            Fate::Whole => {
                self.others.clear();
                Ok(())
            }
            _ => Err(DiskFault),
        };
        counted(done, &mut self.faults)
    }

    fn write_fresh(&mut self, bytes: &[u8]) -> Result<(), DiskFault> {
        let fate = fate_of(&mut self.plan);
        let done = write_anew(self.alloc, &mut self.fresh, bytes, fate);
        counted(done, &mut self.faults)
    }

    fn sync_fresh(&mut self) -> Result<(), DiskFault> {
        let fate = fate_of(&mut self.plan);
        let done = sync_file(&mut self.fresh, fate);
        counted(done, &mut self.faults)
    }

    fn put_fresh(&mut self) -> Result<(), DiskFault> {
        let fate = fate_of(&mut self.plan);
        let done = put_in_place(&mut self.file, &mut self.others, &mut self.fresh, fate);
        counted(done, &mut self.faults)
    }
}
