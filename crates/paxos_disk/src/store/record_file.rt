//! Reads and writes the file of a record on a disk, so that a restart finds what was read or
//! written.
ghost use Rattle.base.specs.Faults.{CountsFault};
ghost use Rattle.std.specs.Prelude.{◌≡◌, ◌⊎◌, ◌^◌, ◌<◌, ◌++◌, ℕ, List, Option, Some, true, length, IfOk, IsErrOf, IsSomeAnd, OnOk};
ghost use Rattle.paxos_msg.specs.declared.record.Record.{Record};
ghost use Rattle.paxos_msg.specs.declared.value.Value.{Value};
ghost use Rattle.paxos_msg.specs.Fits.{AreBytes};
ghost use Rattle.paxos_acceptor.specs.declared.me.Me.{Me};
ghost use Rattle.paxos_disk.specs.Disks.{IsOnDisk, IsSyncedFrom, MayFind, Remains, seen_in};
ghost use Rattle.paxos_disk.specs.Puts.{IsBegun, IsGrown, IsPut, IsReadyFor};
ghost use Rattle.paxos_disk.specs.Reads.{IsContent, IsFormOfSeen};
ghost use Rattle.paxos_acceptor.specs.Stores.{CountsIf, IsOneOf};

use crate::disk::{Disk, DiskFault};
use crate::store::form::{Form, Patch};
use paxos_acceptor::StoreFault;
use std::alloc::Global;

/// Reads the whole file. Returns `None` if there is no file.
fn read_all<D: Disk>(disk: &mut D, alloc: Global) -> Result<Option<Vec<u8>>, StoreFault>
    ensures found { D.honest → IfOk result (IsContent (seen_in (D.folder disk.old))) }
    ensures same { D.honest → D.folder disk.new ≡ D.folder disk.old }
    ensures cause { CountsIf (IsErrOf result StoreFault.Device) (D.faults disk.old)
        (D.faults disk.new) }
    ensures good { ¬ IsErrOf result StoreFault.Bad }
{
    let Some(length) = disk.length()? else {
        return Ok(None);
    };
    let mut bytes = Vec::new(alloc);
    bytes.resize(length as usize, 0)?;
    disk.read(bytes.as_mut_slice())?;
    Ok(Some(bytes))
}

/// Syncs the file and its folder. The file may come from a save that failed after the renaming.
fn sync_found<D: Disk>(disk: &mut D) -> Result<(), DiskFault>
    ensures remains { D.honest → Remains (D.folder disk.old) (D.folder disk.new) }
    ensures synced { D.honest
        → OnOk result (IsSyncedFrom (D.folder disk.old) (D.folder disk.new)) }
    ensures cause { CountsFault (D.faults disk.old) (D.faults disk.new) result }
{
    disk.sync()?;
    disk.sync_folder()
}

/// Reads the file, and syncs it and its folder before it returns. Returns `None` if there is no
/// file.
pub(crate) fn read_synced<D: Disk>(
    disk: &mut D,
    alloc: Global,
) -> Result<Option<Vec<u8>>, StoreFault>
    ensures found { D.honest → IfOk result (IsContent (seen_in (D.folder disk.old))) }
    ensures remains { D.honest → Remains (D.folder disk.old) (D.folder disk.new) }
    ensures synced { D.honest
        → OnOk result (IsSyncedFrom (D.folder disk.old) (D.folder disk.new)) }
    ensures cause { CountsIf (IsErrOf result StoreFault.Device) (D.faults disk.old)
        (D.faults disk.new) }
    ensures good { ¬ IsErrOf result StoreFault.Bad }
{
    let found = read_all(disk, alloc)?;
    if found.is_some() {
        sync_found(disk)?;
    }
    Ok(found)
}

/// Returns true if the file's length is the one that the store knows. That of an honest disk is.
pub(crate) fn is_as_left<D: Disk>(disk: &mut D, form: &Form) -> Result<bool, DiskFault>
    ensures same { D.honest → D.folder disk.new ≡ D.folder disk.old }
    ensures known { D.honest → (me : Me) (r : Record Value)
        → IsFormOfSeen me (seen_in (D.folder disk.old)) r form.now
        → IfOk result (λ is_left. is_left ≡ true) }
    ensures cause { CountsFault (D.faults disk.old) (D.faults disk.new) result }
{
    let length = disk.length()?;
    Ok(match form {
        Form::Missing => length.is_none(),
        Form::Loaded(_, known) | Form::Log(known) | Form::Whole(known) => {
            length == Some(*known as u64)
        }
    })
}

/// Writes the bytes to the second file, and then gives it the name of the first. A restart finds
/// what it could find before, or these bytes.
fn replace_synced<D: Disk>(disk: &mut D, bytes: &[u8]) -> Result<(), DiskFault>
    ensures ok { D.honest → OnOk result (IsOnDisk (D.folder disk.new) bytes.now) }
    ensures left { D.honest → (found : Option (List ℕ)) → MayFind (D.folder disk.new) found
        → MayFind (D.folder disk.old) found ⊎ (found ≡ Some bytes.now) }
    ensures seen { D.honest
        → IsOneOf (seen_in (D.folder disk.new)) (seen_in (D.folder disk.old)) (Some bytes.now) }
    ensures cause { CountsFault (D.faults disk.old) (D.faults disk.new) result }
{
    disk.write_fresh(bytes)?;
    disk.sync_fresh()?;
    disk.put_fresh()?;
    disk.sync_folder()
}

/// Appends the bytes to a file that is on the disk, and syncs it. A restart finds the old bytes,
/// and after them what a crash leaves of the new ones.
fn append_synced<D: Disk>(disk: &mut D, bytes: &[u8]) -> Result<(), DiskFault>
    requires { D.honest
        → IsSomeAnd (seen_in (D.folder disk.old)) (IsOnDisk (D.folder disk.old)) }
    ensures ok { D.honest → OnOk result (IsSomeAnd (seen_in (D.folder disk.old))
        (λ all. IsOnDisk (D.folder disk.new) (all ++ bytes.now)
        × (length (all ++ bytes.now) < 2 ^ 63))) }
    ensures left { D.honest → (found : Option (List ℕ)) → MayFind (D.folder disk.new) found
        → IsGrown (seen_in (D.folder disk.old)) bytes.now found }
    ensures cause { CountsFault (D.faults disk.old) (D.faults disk.new) result }
{
    disk.append(bytes)?;
    disk.sync()
}

/// Writes the patch of a save.
pub(crate) fn put_synced<D: Disk>(disk: &mut D, patch: &Patch) -> Result<(), DiskFault>
    requires { D.honest → IsReadyFor (D.folder disk.old) patch.now }
    ensures ok { D.honest
        → OnOk result (IsPut (seen_in (D.folder disk.old)) patch.now (D.folder disk.new)) }
    ensures left { D.honest → (found : Option (List ℕ)) → MayFind (D.folder disk.new) found
        → MayFind (D.folder disk.old) found
        ⊎ IsBegun (seen_in (D.folder disk.old)) patch.now found }
    ensures seen { D.honest → (seen_in (D.folder disk.new) ≡ seen_in (D.folder disk.old))
        ⊎ IsBegun (seen_in (D.folder disk.old)) patch.now (seen_in (D.folder disk.new)) }
    ensures bytes { AreBytes patch.now.bytes.items }
    ensures cause { CountsFault (D.faults disk.old) (D.faults disk.new) result }
{
    let bytes = patch.bytes.as_slice();
    match patch.at {
        Some(_) => append_synced(disk, bytes),
        None => replace_synced(disk, bytes),
    }
}
