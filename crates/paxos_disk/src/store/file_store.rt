//! A store in a file.
ghost use Rattle.std.specs.Prelude.{◌≡◌, None, IfOk, IsErrOf};
ghost use Rattle.paxos_disk.specs.Files.{Finds, Notes, file_kind};

use crate::disk::file_disk::FileDisk;
use crate::store::log_store::LogStore;
use paxos_acceptor::{Me, Store, StoreFault};
use paxos_msg::{Change, Record};
use std::alloc::AllocError;
use std::fs::File;
use std::marker::Model;
use std::rt::Files;

/// A record in a file: a `LogStore` on the system's files. That these files are an honest disk is
/// trusted, and not known to contracts. They see the record that was found or saved last, and how
/// often the device has failed.
pub struct FileStore<R: Files<File = File> + AllocGlobal + Drop> {
    store: LogStore<FileDisk<R>>,
}

impl<R: Files<File = File> + AllocGlobal + Drop> Drop for FileStore<R> {
    fn drop(self) {
        let FileStore { store: _store } = self;
    }
}

impl<R: Files<File = File> + AllocGlobal + Drop> Model for FileStore<R> {
    ghost use Rattle.paxos_disk.specs.Files.{FileKnowledge};

    ghost Value = { FileKnowledge };

    ghost view = { λ s. s.store.filed };
}

impl<R: Files<File = File> + AllocGlobal + Drop> FileStore<R> {
    /// Returns a store in the file at `path`, for the record of node `me`. It knows no record and
    /// has counted no fault.
    ///
    /// It touches no file yet.
    pub fn new(rt: R, path: &str, me: Me) -> Result<FileStore<R>, AllocError>
        ensures { IfOk result (λ store. store ≡ record { me = me; found = None; faults = 0 }) }
    {
        let alloc = rt.alloc();
        let disk = FileDisk::new(rt, path)?;
        Ok(FileStore {
            store: LogStore::new(alloc, disk, me),
        })
    }
}

impl<R: Files<File = File> + AllocGlobal + Drop> Store for FileStore<R> {
    ghost kind = { file_kind };

    /// Returns a record, which the store knows from then on. After an error it knows none. `Device`
    /// counts one more fault, and nothing else counts one.
    fn load(&mut self) -> Result<Record, StoreFault>
        ensures { Finds self.old self.new result }
    {
        self.store.load()
    }

    /// Saves `change`. It is `Ok` only where a record is known, and then the changed record is
    /// known. After `Device`, which alone counts one more fault, none is known. After `Memory`, the
    /// only other fault, nothing has changed.
    fn save(&mut self, change: &Change) -> Result<(), StoreFault>
        ensures notes { Notes self.old self.new change.now result }
        ensures good { ¬ IsErrOf result StoreFault.Bad }
    {
        self.store.save(change)
    }

    fn faults(&self) -> u64
        ensures { result ≡ self.now.faults }
    {
        self.store.faults()
    }

    /// Changes nothing: a store in a file takes no plan.
    fn fail_next(&mut self, plan: Option<bool>)
        ensures { self.new ≡ self.old }
    {
        self.store.fail_next(plan);
    }
}
