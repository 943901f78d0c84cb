//! A record in a file.
use super::acceptor::{FIRST, ME, vote_for_none};
use paxos_acceptor::{Acceptor, AcceptorFault, Store, StoreFault};
use paxos_disk::FileStore;
use paxos_msg::{Change, Record, Value};
use std::fs;
use std::marker::Model;
use std::process::Abort;
use std::test::Fail;

/// A store in a file. Contracts see nothing of it, so that a test does not carry a record from one
/// call to the next.
struct Kept {
    store: FileStore<HostRuntime>,
}

impl Drop for Kept {
    fn drop(self) {
        let Kept { store: _store } = self;
    }
}

impl Model for Kept {
    ghost Value = { Unit {0} };

    ghost view = { λ _. tt };
}

impl Kept {
    fn new(rt: HostRuntime, path: &str) -> Result<Kept, Fail> {
        let store = FileStore::new(rt, path, ME)?;
        Ok(Kept { store })
    }

    /// Saves the change, or loads the record if there is none. Returns its number of starts then,
    /// and whether it has the promise and the vote.
    fn act(&mut self, change: Option<Change>) -> Result<Option<(u32, bool)>, StoreFault> {
        if let Some(change) = change {
            self.store.save(&change)?;
            return Ok(None);
        }
        let record = self.store.load()?;
        let has_voted = record.promised == Some(FIRST)
            && record.votes.as_slice() == [vote_for_none(3, FIRST)].as_slice();
        Ok(Some((record.starts, has_voted)))
    }

    fn faults(&self) -> u64 {
        self.store.faults()
    }
}

const PATH: &str = "record_of_a_test";

/// What others leave in place of the file before, if they do, a change to save or a load, and what
/// comes of it.
type Step = (
    Option<Option<&'static [u8]>>,
    Option<Change>,
    Result<Option<(u32, bool)>, StoreFault>,
);

/// The first load finds no file.
const MAKES: [Step; 4] = [
    (None, None, Ok(Some((0, false)))),
    (None, Some(Change::Start), Ok(None)),
    (None, Some(Change::Promise(FIRST)), Ok(None)),
    (
        None,
        Some(Change::Ballotted(3, FIRST, Value::Noop)),
        Ok(None),
    ),
];

/// The log of these changes.
const LOG: &[u8] = b"PL\x02\x02\x03\0\0\0\x07\x01\x02\0\0\0\x01\x01\
    \x03\0\0\0\x03\0\0\0\x01\x01\0";

/// The same with one start more.
const LONGER: &[u8] = b"PL\x02\x02\x03\0\0\0\x07\x01\x02\0\0\0\x01\x01\
    \x03\0\0\0\x03\0\0\0\x01\x01\0\x01";

/// Others leave a shorter file, an empty one, a longer one and none, and each time the same bytes
/// again: in the end in another file, which counts from the second load on. After a save that
/// failed nothing is saved until the record is loaded.
const GOES_ON: [Step; 14] = [
    (None, None, Ok(Some((1, true)))),
    (
        Some(Some(b"PL")),
        Some(Change::Start),
        Err(StoreFault::Device),
    ),
    (
        Some(Some(LOG)),
        Some(Change::Start),
        Err(StoreFault::Device),
    ),
    (None, None, Ok(Some((1, true)))),
    (
        Some(Some(b"")),
        Some(Change::Start),
        Err(StoreFault::Device),
    ),
    (None, None, Err(StoreFault::Bad)),
    (Some(Some(LOG)), None, Ok(Some((1, true)))),
    (
        Some(Some(LONGER)),
        Some(Change::Start),
        Err(StoreFault::Device),
    ),
    (Some(Some(LOG)), None, Ok(Some((1, true)))),
    (Some(None), Some(Change::Start), Err(StoreFault::Device)),
    (Some(Some(LOG)), None, Err(StoreFault::Device)),
    (None, None, Ok(Some((1, true)))),
    (None, Some(Change::Start), Ok(None)),
    (None, None, Ok(Some((2, true)))),
];

/// Without its folder a file counts as missing, and no save succeeds.
const FAILS: [Step; 2] = [
    (None, None, Ok(Some((0, false)))),
    (None, Some(Change::Start), Err(StoreFault::Device)),
];

/// A folder in the file's place, a path through a file, and a file without an end cannot be loaded.
const UNREADABLE: [Step; 1] = [(None, None, Err(StoreFault::Device))];

/// Takes the steps with a store in the file at `path`, which counts so many faults. What others
/// have left stays.
fn take(
    rt: &impl Abort,
    files: HostRuntime,
    path: &str,
    steps: &[Step],
    faults: u64,
) -> Result<(), Fail> {
    let mut store = Kept::new(files, path)?;
    for (others, change, result) in steps {
        match others {
            Some(Some(bytes)) => fs::write(&files, path, *bytes)?,
            Some(None) => fs::remove_file(&files, path)?,
            None => {}
        }
        assert_eq!(rt; store.act(*change), *result);
        if let Some(left) = others {
            match (fs::read(&files, path), left) {
                (Ok(read), Some(bytes)) => assert!(rt; read.as_slice() == *bytes),
                (read, left) => assert!(rt; read.is_err() && left.is_none()),
            }
        }
    }
    assert_eq!(rt; store.faults(), faults);
    Ok(())
}

/// Shows FileStore::new, FileStore::load, FileStore::save (notes), FileStore::faults: a file keeps
/// what was saved, each save built on the one before. After a save that failed a store saves no
/// more until it is loaded. A file that cannot be read is a fault of the device, not a missing one.
#[test]
fn keeps_a_record_in_a_file(rt: HostRuntime) -> Result<(), Fail> {
    let _ = fs::remove_file(&rt, PATH);
    take(&rt, rt, PATH, &MAKES, 0)?;
    assert!(rt; fs::read(&rt, PATH)?.as_slice() == LOG);
    take(&rt, rt, PATH, &GOES_ON, 6)?;
    take(&rt, rt, "no_such_folder/record", &FAILS, 1)?;
    for path in [".", "record_of_a_test/record", "/dev/zero"] {
        take(&rt, rt, path, &UNREADABLE, 1)?;
    }
    fs::remove_file(&rt, PATH)?;
    Ok(())
}

/// Takes the first start of an acceptor over a file, and then the next. Returns what it answered,
/// and how many faults its store has counted in the end.
fn start_twice(
    files: HostRuntime,
    path: &str,
) -> Result<(Result<u32, AcceptorFault>, Result<u32, AcceptorFault>, u64), Fail> {
    let store = FileStore::new(files, path, ME)?;
    let Ok(mut acceptor) = Acceptor::open(files.alloc(), store, ME) else {
        return Err(Fail::from("the acceptor is not opened"));
    };
    let first = acceptor.new_start();
    let second = acceptor.new_start();
    Ok((first, second, acceptor.into_store().faults()))
}

/// Shows Acceptor::open, Acceptor::new_start (counts): over a file in a folder that is not there an
/// acceptor is opened, since a missing file is an empty record. Its first start fails at the
/// device, and closes it, with one fault; the next start finds it closed.
#[test]
fn acceptor_without_a_folder(rt: HostRuntime) -> Result<(), Fail> {
    let (first, second, faults) = start_twice(rt, "no_such_folder/record")?;
    assert_eq!(rt; first, Err(AcceptorFault::Store));
    assert_eq!(rt; second, Err(AcceptorFault::Closed));
    assert_eq!(rt; faults, 1);
    Ok(())
}
