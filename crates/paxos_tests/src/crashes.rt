//! Crashes of a store on a disk in memory, and calls of the disk that fail: at each call, after
//! each byte of a write, and with each sector of what was not synced as it was written or as zeros.
ghost use Rattle.std.specs.Prelude.{[], None};

use super::acceptor::{FIRST, ME, SECOND};
use paxos_acceptor::{Store, StoreFault};
use paxos_disk::{Disk, DiskFault, FaultPlan, LogStore, MemoryDisk, log_decode};
use paxos_msg::{Change, Characters, Record, Value};
use std::alloc::{AllocError, Global};
use std::marker::Model;
use std::process::Abort;
use std::test::Fail;

/// A disk in memory of which contracts know nothing, so that a test may begin with any bytes.
#[derive(Drop)]
struct Unknown {
    disk: MemoryDisk,
}

impl Disk for Unknown {
    ghost honest = { ⊥ };

    ghost folder = { λ _. record { file = None; others = []; fresh = None } };

    ghost faults = { λ d. d.disk.faults };

    fn length(&mut self) -> Result<Option<u64>, DiskFault> {
        self.disk.length()
    }

    fn read(&mut self, bytes: &mut [u8]) -> Result<(), DiskFault> {
        self.disk.read(bytes)
    }

    fn append(&mut self, bytes: &[u8]) -> Result<(), DiskFault> {
        self.disk.append(bytes)
    }

    fn sync(&mut self) -> Result<(), DiskFault> {
        self.disk.sync()
    }

    fn sync_folder(&mut self) -> Result<(), DiskFault> {
        self.disk.sync_folder()
    }

    fn write_fresh(&mut self, bytes: &[u8]) -> Result<(), DiskFault> {
        self.disk.write_fresh(bytes)
    }

    fn sync_fresh(&mut self) -> Result<(), DiskFault> {
        self.disk.sync_fresh()
    }

    fn put_fresh(&mut self) -> Result<(), DiskFault> {
        self.disk.put_fresh()
    }
}

fn are_same(a: &Record, b: &Record) -> bool {
    a.starts == b.starts && a.promised == b.promised && a.votes.as_slice() == b.votes.as_slice()
}

/// Returns the records of the first bytes of a log, as many as each number says.
fn records_of(alloc: Global, log: &[u8], lengths: &[usize]) -> Result<Vec<Record>, Fail> {
    let mut records = Vec::new(alloc);
    for length in lengths {
        let (record, _) = log_decode(alloc, log.get(..*length).unwrap_or_default(), ME)?;
        records.push(record)?;
    }
    Ok(records)
}

/// Returns true if what was found is one of these, from number `low` to `high`.
fn is_one_of(found: &Record, records: &[Record], low: usize, high: usize) -> bool {
    for (number, other) in records.iter().enumerate() {
        if low <= number && number <= high && are_same(found, other) {
            return true;
        }
    }
    false
}

/// Changes that are saved, and the record before them and after each.
#[derive(Clone, Copy)]
struct Story<'a> {
    changes: &'a [Change],
    records: &'a [Record],
}

/// Saves of such changes. So many are on the disk for sure, and so many in the record that was
/// found or saved last. Contracts see nothing of it, so that a test does not carry a record from
/// one call to the next.
struct Saves {
    store: LogStore<Unknown>,
    is_known: bool,
    sure: usize,
    done: usize,
}

impl Drop for Saves {
    fn drop(self) {
        let Saves {
            store: _store,
            is_known: _is_known,
            sure: _sure,
            done: _done,
        } = self;
    }
}

impl Model for Saves {
    ghost Value = { Unit {0} };

    ghost view = { λ _. tt };
}

impl Saves {
    fn new(alloc: Global, disk: MemoryDisk) -> Saves {
        Saves {
            store: LogStore::new(alloc, Unknown { disk }, ME),
            is_known: false,
            sure: 0,
            done: 0,
        }
    }

    fn load(&mut self) -> Result<Record, StoreFault> {
        self.store.load()
    }

    /// Loads the record at first, and again after a fault. A failed save may be found after all. It
    /// is on the disk for sure only after the next save, since a sync of the file may have failed.
    fn find(&mut self, story: Story<'_>) {
        let Ok(record) = self.load() else {
            return;
        };
        self.is_known = true;
        let next = self.done.saturating_add(1);
        if is_one_of(&record, story.records, next, next) {
            self.done = next;
        }
    }

    /// Saves the next change, if one is left.
    fn save(&mut self, story: Story<'_>) {
        if let Some(change) = story.changes.get(self.done) {
            self.is_known = self.store.save(change).is_ok();
            if self.is_known {
                self.done += 1;
                self.sure = self.done;
            }
        }
    }

    fn counts(&self) -> (usize, usize) {
        (self.sure, self.done)
    }

    fn into_disk(self) -> MemoryDisk {
        let Saves {
            store,
            is_known: _is_known,
            sure: _sure,
            done: _done,
        } = self;
        let Unknown { disk } = store.into_disk();
        disk
    }
}

/// Saves the changes over a disk with this plan. After a fault that is no crash the record is
/// loaded again.
fn run(alloc: Global, file: Option<Vec<u8>>, story: Story<'_>, plan: FaultPlan) -> Saves {
    let mut disk = MemoryDisk::new(alloc, file);
    disk.plan(Some(plan));
    let mut saves = Saves::new(alloc, disk);
    for _ in 0..12 {
        if saves.is_known {
            saves.save(story);
        } else {
            saves.find(story);
        }
    }
    saves
}

/// Each choice of sectors that a crash loses, of the two that an append reaches.
const LOST: [[bool; 2]; 4] = [[false, false], [true, false], [false, true], [true, true]];

/// Checks all that a crash may leave after these saves: the record of the changes that are saved
/// for sure, or of up to one more than were done. Returns how much that is.
fn check(rt: &impl Abort, alloc: Global, story: Story<'_>, saves: Saves) -> Result<u32, Fail> {
    let (sure, done) = saves.counts();
    let high = done.saturating_add(1);
    let disk = saves.into_disk();
    let mut tried: u32 = 0;
    for which in 0..disk.names() {
        for count in 0..=disk.loose(which) {
            for lost in LOST {
                let left = disk.left(alloc, which, count, lost)?;
                let record = Saves::new(alloc, MemoryDisk::new(alloc, left)).load()?;
                assert!(rt; is_one_of(&record, story.records, sure, high));
                tried = tried.saturating_add(1);
            }
        }
    }
    Ok(tried)
}

/// The log of a start, a promise, a vote for a batch, a start, a vote for none and a greater
/// promise.
const LOG: [u8; 56] = [
    0x50, 0x4C, 0x02, 0x02, 0x03, 0x00, 0x00, 0x00, 0x07, 0x01, 0x02, 0x00, 0x00, 0x00, 0x01, 0x01,
    0x03, 0x00, 0x00, 0x00, 0x00, 0x00, 0x00, 0x00, 0x01, 0x01, 0x01, 0x02, 0x00, 0x00, 0x00, 0x01,
    0x00, 0x00, 0x00, 0x01, 0x01, 0x48, 0x01, 0x03, 0x00, 0x00, 0x00, 0x03, 0x00, 0x00, 0x00, 0x01,
    0x01, 0x00, 0x02, 0x00, 0x00, 0x00, 0x02, 0x02,
];

/// The length of the log of the first changes, by their number.
const LENGTHS: [usize; 7] = [9, 10, 16, 38, 39, 50, 56];

/// Returns the changes of that log.
fn changes() -> [Change; 6] {
    let value = Value::Keys {
        node: 2,
        start: 1,
        first: 1,
        bytes: Characters::from(0x48),
    };
    [
        Change::Start,
        Change::Promise(FIRST),
        Change::Ballotted(0, FIRST, value),
        Change::Start,
        Change::Ballotted(3, FIRST, Value::Noop),
        Change::Promise(SECOND),
    ]
}

/// Checks what is left of six saves with such a fault at each call, after each byte that it writes.
/// A crash ends them; after a call that alone fails all are made in the end.
fn check_faults(rt: &impl Abort, alloc: Global, is_crash: bool) -> Result<(), Fail> {
    let changes = changes();
    let records = records_of(alloc, &LOG, &LENGTHS)?;
    let story = Story {
        changes: &changes,
        records: records.as_slice(),
    };
    let mut tried = 0;
    for calls in 0..40 {
        for part in 0..60 {
            let plan = FaultPlan {
                calls,
                part,
                is_crash,
            };
            let saves = run(alloc, None, story, plan);
            let (sure, done) = saves.counts();
            assert!(rt; done == if is_crash { sure } else { 6 });
            let more = check(rt, alloc, story, saves)?;
            tried = more.saturating_add(tried);
        }
    }
    assert!(rt; tried > 10_000);
    Ok(())
}

/// Shows LogStore::save (saved, restarts), LogStore::load (found, good), MemoryDisk::left: a crash
/// at each call of a load and of six saves, after each byte that it writes.
#[test]
fn crash_at_each_call(rt: HostRuntime) -> Result<(), Fail> {
    check_faults(&rt, rt.alloc(), true)
}

/// Shows LogStore::save (restarts, notes, cause), LogStore::load (good, synced, cause): one call
/// that fails, whatever it has done; then the record is loaded again, the other changes are saved,
/// and a crash comes.
#[test]
fn one_call_fails(rt: HostRuntime) -> Result<(), Fail> {
    check_faults(&rt, rt.alloc(), false)
}

/// The promise of the first ballot, and votes at place 7 under it for none and for 32 characters.
const PROMISE: &[u8] = b"\x02\0\0\0\x01\x01";

const NONE: &[u8] = b"\x03\0\0\0\x07\0\0\0\x01\x01\0";

const LONG: &[u8] = b"\x03\0\0\0\x07\0\0\0\x01\x01\x01\x02\0\0\0\x01\0\0\0\x01\x20\
    AAAAAAAAAAAAAAAAAAAAAAAAAAAAAAAA";

/// Returns a log whose header and starts have so many bytes, with a promise, if there is one, and
/// behind it a start and a vote. Returns its length before the start, before the vote and after it.
fn with_vote(
    alloc: Global,
    length: usize,
    promise: &[u8],
    vote: &[u8],
) -> Result<(Vec<u8>, [usize; 3]), AllocError> {
    let mut log = LOG[..9].to_vec(alloc)?;
    log.resize(length, 1)?;
    log.extend_from_slice(promise)?;
    let before = log.len();
    log.push(1)?;
    let started = log.len();
    log.extend_from_slice(vote)?;
    let after = log.len();
    Ok((log, [before, started, after]))
}

/// Loads such a log without the last start and the vote, saves them, and lets a crash come after so
/// many calls of the disk: a load makes 4, the first save 5, an append 3, and another save that
/// writes the log anew 5. Checks what is left. Returns how much that is.
fn tear(
    rt: &impl Abort,
    alloc: Global,
    length: usize,
    promise: &[u8],
    vote: &[u8],
    value: Value,
    calls: u64,
) -> Result<u32, Fail> {
    let (log, lengths) = with_vote(alloc, length, promise, vote)?;
    let file = Some(log.get(..lengths[0]).unwrap_or_default().to_vec(alloc)?);
    let records = records_of(alloc, log.as_slice(), &lengths)?;
    let story = Story {
        changes: &[Change::Start, Change::Ballotted(7, FIRST, value)],
        records: records.as_slice(),
    };
    let plan = FaultPlan {
        calls,
        part: 0,
        is_crash: true,
    };
    let saves = run(alloc, file, story, plan);
    assert!(rt; saves.counts() == (1, 1));
    check(rt, alloc, story, saves)
}

/// Shows laws::torn_appends, LogStore::save (restarts), LogStore::load (good): a vote is appended
/// where a sector ends at each of its bytes, and the power is cut before the sync. Before a ballot
/// is promised it is written with its whole log, and the power is cut at each call.
#[test]
fn votes_across_sectors(rt: HostRuntime) -> Result<(), Fail> {
    let text = Characters::new(&[0x41; 32]).ok_or("no characters")?;
    let long = Value::Keys {
        node: 2,
        start: 1,
        first: 1,
        bytes: text,
    };
    let mut tried: u32 = 0;
    for (lengths, promise, vote, value, calls) in [
        ((439, 509), PROMISE, NONE, Value::Noop, (11, 12)),
        ((439, 509), PROMISE, LONG, long, (11, 12)),
        ((459, 513), b"".as_slice(), LONG, long, (9, 14)),
    ] {
        for length in lengths.0..lengths.1 {
            for calls in calls.0..calls.1 {
                tried = tear(&rt, rt.alloc(), length, promise, vote, value, calls)?.saturating_add(
                    tried,
                );
            }
        }
    }
    assert!(rt; tried > 20_000);
    Ok(())
}
