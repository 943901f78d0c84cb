//! A store with its record on a disk.
ghost use Rattle.base.specs.Faults.{HasRisen};
ghost use Rattle.std.specs.Prelude.{◌≡◌, ℕ, List, Option, None, IfOk, IsSomeAnd, OnOk, IsErrOf};
ghost use Rattle.paxos_msg.specs.Batches.{Record as Kept};
ghost use Rattle.paxos_msg.specs.Records.{changed};
ghost use Rattle.paxos_disk.specs.Disks.{IsSyncedFrom, Remains};
ghost use Rattle.paxos_disk.specs.Entries.{IsEntry};
ghost use Rattle.paxos_disk.specs.Files.{Finds, Notes};
ghost use Rattle.paxos_disk.specs.Found.{LoadsNoMore, LoadsNoMoreBut, MayLoad, disk_kind};
ghost use Rattle.paxos_disk.specs.Reads.{IsFolderOf, Reads, Restarts, record_in, stored_in};
ghost use Rattle.paxos_acceptor.specs.Stores.{CountsIf, IsOneOf};

use crate::disk::Disk;
use crate::laws::what_restarts_load;
use crate::log::entry::is_entry;
use crate::log::reading::entry_is_spelling;
use crate::record::codec::record_is_spelling;
use crate::store::form::{Form, form_after, form_of, patch_of};
use crate::store::record_file::{is_as_left, put_synced, read_synced};
use base::count_fault;
use paxos_acceptor::{Me, Store, StoreFault};
use paxos_msg::{Change, Record};
use std::alloc::{AllocError, Global};
use std::marker::Model;

/// A record on a disk. Its file is a log of changes. A save appends one change, whatever the
/// record's size, and syncs it. These saves write the log anew, to a second file that gets the
/// first one's name: the first one after a load, since an append may have been torn, or a sync have
/// failed; and each one before a ballot is promised. A log of at least a megabyte whose record
/// needs less than half of it is then written with the entries that the record needs.
///
/// A file with a whole record, of version 2 or 1, is loaded too, and so is a log of version 1. Each
/// save then writes the whole record of version 2 to the second file. A load changes nothing.
///
/// After a fault nothing is saved until the record is loaded again. A save also fails if the file
/// has another length than the store has left, as after another process has written to it.
pub struct LogStore<D: Disk> {
    disk: D,
    alloc: Global,
    me: Me,
    found: Option<Record>,
    form: Form,
    faults: u64,
}

impl<D: Disk + Drop> Drop for LogStore<D> {
    fn drop(self) {
        let LogStore {
            disk: _disk,
            alloc: _alloc,
            me: _me,
            found: _found,
            form: _form,
            faults: _faults,
        } = self;
    }
}

impl<D: Disk> Model for LogStore<D> {
    ghost use Rattle.paxos_disk.specs.Reads.{IsStoreInStep, LogState};

    ghost Value = { LogState D };

    ghost view = { λ s. record {
      disk = s.disk;
      filed = record { me = s.me; found = s.found; faults = s.faults };
    } };

    ghost invariant = { λ s. IsStoreInStep D.honest (D.folder s.disk) s.me s.found s.form };
}

/// Counts a fault of the device. The content of the file is not known after it.
fn give_up(found: &mut Option<Record>, faults: &mut u64) -> StoreFault
    ensures device { result ≡ StoreFault.Device }
    ensures lost { found.new ≡ None }
    ensures counted { HasRisen faults.old faults.new }
{
    *found = None;
    *faults = count_fault(*faults);
    StoreFault::Device
}

/// A load of `me` reads no other record from what a restart finds than the one that `record_in`
/// says.
pub(crate) fn records_are_read(me: Me)
    ensures { (found : Option (List ℕ)) (r : Kept) → Reads me found r → record_in me found ≡ r }
{
    // The prover knows the range of a field once it is read.
    let _session = me.group.session;
    entry_is_spelling();
    record_is_spelling();
}

/// Returns a copy.
fn copy_of(kept: &Record) -> Result<Record, AllocError>
    ensures { IfOk result (λ copy. copy ≡ kept.now) }
{
    kept.clone()
}

impl<D: Disk> LogStore<D> {
    /// Returns a store on this disk, for the record of node `me`. It knows no record and has
    /// counted no fault. It makes no call of the disk yet.
    ///
    /// Whatever a restart finds on an honest disk has to be a record of `me`, or no file.
    pub fn new(alloc: Global, disk: D, me: Me) -> LogStore<D>
        requires { D.honest → IsFolderOf me (D.folder disk) }
        ensures { result ≡ record {
          disk = disk;
          filed = record { me = me; found = None; faults = 0 };
        } }
    {
        LogStore {
            disk,
            alloc,
            me,
            found: None,
            form: Form::Missing,
            faults: 0,
        }
    }

    /// Returns the disk. Whatever a restart finds on an honest one is a record of the node, or no
    /// file.
    pub fn disk(&self) -> &D
        ensures same { result.now ≡ self.now.disk }
        ensures good { D.honest → IsFolderOf self.now.filed.me (D.folder self.now.disk) }
    {
        &self.disk
    }

    /// Returns the disk. Whatever a restart finds on an honest one is a record of the node, or no
    /// file.
    pub fn into_disk(self) -> D
        ensures same { result ≡ self.disk }
        ensures good { D.honest → IsFolderOf self.filed.me (D.folder result) }
    {
        let LogStore {
            disk,
            alloc: _alloc,
            me: _me,
            found: _found,
            form: _form,
            faults: _faults,
        } = self;
        disk
    }
}

impl<D: Disk> Store for LogStore<D> {
    ghost kind = { disk_kind D.honest D.folder };

    /// Returns the record of the file, which the store knows from then on. After an error it knows
    /// none. `Device` counts one more fault, and nothing else counts one. It comes only where a
    /// call of the disk has failed, and `Bad` never on an honest disk.
    ///
    /// The end that a crash may have left of an append is passed over. A restart may find nothing
    /// that it could not find before, so it loads no other record, and this one it might load.
    /// After `Ok` it finds this record alone, if no sync of the file has failed before.
    fn load(&mut self) -> Result<Record, StoreFault>
        ensures loads { Finds self.old.filed self.new.filed result }
        ensures found { D.honest → IfOk result (λ r. r ≡ stored_in D.folder self.old) }
        ensures good { D.honest → ¬ IsErrOf result StoreFault.Bad }
        ensures remains { D.honest → Remains (D.folder self.old.disk) (D.folder self.new.disk) }
        ensures synced { D.honest
            → OnOk result (IsSyncedFrom (D.folder self.old.disk) (D.folder self.new.disk)) }
        ensures may { D.honest → IfOk result (λ r. MayLoad (D.folder self.old.disk) r) }
        ensures no_more { D.honest
            → LoadsNoMore (D.folder self.old.disk) (D.folder self.new.disk) }
        ensures cause { CountsIf (IsErrOf result StoreFault.Device) (D.faults self.old.disk)
            (D.faults self.new.disk) }
    {
        records_are_read(self.me);
        what_restarts_load(self.me);
        // Nothing is known of the file until it is read.
        self.found.take();
        let read = match read_synced(&mut self.disk, self.alloc) {
            Ok(read) => read,
            Err(StoreFault::Memory) => return Err(StoreFault::Memory),
            Err(_) => return Err(give_up(&mut self.found, &mut self.faults)),
        };
        let (record, form) = form_of(self.alloc, read, self.me)?;
        let found = copy_of(&record)?;
        self.form = form;
        self.found = Some(found);
        Ok(record)
    }

    /// Saves `change`. It is `Ok` only where a record is known, and then the changed record is
    /// known. After `Device`, which alone counts one more fault, none is known. After `Memory`, the
    /// only other fault, nothing has changed.
    ///
    /// After `Ok` each restart on an honest disk finds the changed record. A crash at any moment
    /// before leaves what it would have left before the call, the record or the changed one
    /// (`Restarts`); so a restart loads the changed record, or what it might load before. Where a
    /// record is known and the change can be made to it, `Device` comes only where a call of the
    /// disk has failed.
    fn save(&mut self, change: &Change) -> Result<(), StoreFault>
        ensures notes { Notes self.old.filed self.new.filed change.now result }
        ensures good { ¬ IsErrOf result StoreFault.Bad }
        ensures saved { D.honest → OnOk result
            (stored_in D.folder self.new ≡ changed (stored_in D.folder self.old) change.now) }
        ensures memory { D.honest → IsErrOf result StoreFault.Memory
            → D.folder self.new.disk ≡ D.folder self.old.disk }
        ensures device { D.honest → IsOneOf (stored_in D.folder self.new)
            (stored_in D.folder self.old) (changed (stored_in D.folder self.old) change.now) }
        ensures restarts { D.honest
            → Restarts self.old.filed.me (D.folder self.old.disk) (D.folder self.new.disk)
            (stored_in D.folder self.old) (changed (stored_in D.folder self.old) change.now)
            result }
        ensures only { D.honest → OnOk result ((r : Kept) → MayLoad (D.folder self.new.disk) r
            → r ≡ changed (stored_in D.folder self.old) change.now) }
        ensures no_more { D.honest → LoadsNoMoreBut (D.folder self.old.disk)
            (changed (stored_in D.folder self.old) change.now) (D.folder self.new.disk) }
        ensures cause { D.honest → IsSomeAnd self.old.filed.found
            (λ r. IsEntry self.old.filed.me.group.size r change.now)
            → CountsIf (IsErrOf result StoreFault.Device) (D.faults self.old.disk)
            (D.faults self.new.disk) }
    {
        records_are_read(self.me);
        what_restarts_load(self.me);
        let Some(found) = &mut self.found else {
            return Err(give_up(&mut self.found, &mut self.faults));
        };
        if !is_entry(found, change, self.me) {
            return Err(give_up(&mut self.found, &mut self.faults));
        }
        if is_as_left(&mut self.disk, &self.form) != Ok(true) {
            return Err(give_up(&mut self.found, &mut self.faults));
        }
        let patch = patch_of(self.alloc, &self.form, found, *change, self.me)?;
        if put_synced(&mut self.disk, &patch).is_err() {
            return Err(give_up(&mut self.found, &mut self.faults));
        }
        self.form = form_after(&self.form, &patch);
        Ok(())
    }

    fn faults(&self) -> u64
        ensures { result ≡ self.now.filed.faults }
    {
        self.faults
    }

    /// Changes nothing: a store on a disk takes no plan.
    fn fail_next(&mut self, _plan: Option<bool>)
        ensures { self.new ≡ self.old }
    {}
}
