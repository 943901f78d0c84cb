//! The form of a file, and the bytes that the next save writes.
ghost use Rattle.std.specs.Prelude.{◌≡◌, ◌≤◌, None, Some, IfOk, IfSome, IsErrOf, IsNone, IsOk, length};
ghost use Rattle.paxos_msg.specs.declared.record.Record.{Record};
ghost use Rattle.paxos_msg.specs.declared.value.Value.{Value};
ghost use Rattle.paxos_msg.specs.Records.{changed, empty_record};
ghost use Rattle.paxos_acceptor.specs.declared.me.Me.{Me};
ghost use Rattle.paxos_disk.specs.Files.{IsFiledAs, IsAnew, IsFormAfter, IsFormIn, IsFormOf, IsPatch, IsWholeForm, IsWritten, log_of_starts};
ghost use Rattle.paxos_disk.specs.Log.{LogFound};
ghost use Rattle.paxos_disk.specs.Entries.{IsEntry, MakesChange};
ghost use Rattle.paxos_acceptor.specs.Records.{IsRecord};
ghost use Rattle.paxos_disk.specs.Disks.{Folder};
ghost use Rattle.paxos_disk.specs.Reads.{IsKeptAs};

use crate::laws::{files_are_known, forms_are_apart};
use crate::log::append::{append, append_behind};
use crate::log::ending::Ending;
use crate::log::entry::enter;
use crate::log::shortening::shortened;
use crate::log::{log_of, new_log};
use crate::record::codec::{record_decode, record_migrate, spell_changed};
use crate::record::version::Version;
use paxos_acceptor::{Me, StoreFault};
use paxos_msg::{Change, Record};
use std::alloc::{AllocError, Global};

/// The form of a file, which decides how the next save writes.
#[derive(Drop)]
pub(crate) enum Form {
    /// There is no file.
    Missing,
    /// A log that was loaded: its header and whole entries, and the length of the file. The next
    /// save writes it anew, since an entry may have been cut or torn, and a sync before the load
    /// may have failed.
    Loaded(Vec<u8>, usize),
    /// A log of this many bytes that a save of this store has left.
    Log(usize),
    /// A whole record, or a log of version 1, of this many bytes.
    Whole(usize),
}

/// The bytes that a save writes to a file.
#[derive(Drop)]
pub(crate) struct Patch {
    /// The length of the file, after which the bytes go. `None`: they go to another file, which
    /// then gets its name.
    pub(crate) at: Option<usize>,
    pub(crate) bytes: Vec<u8>,
}

/// Returns the record of a file in whole form, or with a log of version 1.
fn record_of_whole(alloc: Global, bytes: &[u8], me: Me) -> Result<Record, StoreFault>
    ensures found { IfOk result (λ r. IsWholeForm me bytes.now r) }
    ensures only { (r : Record Value) → IsWholeForm me bytes.now r
        → IfOk result (λ found. found ≡ r) }
    ensures bad { IsErrOf result StoreFault.Bad → (r : Record Value)
        → ¬ IsWholeForm me bytes.now r }
    ensures others { ¬ IsErrOf result StoreFault.Device }
{
    forms_are_apart();
    match record_decode(alloc, bytes, me) {
        Err(StoreFault::Bad) => {}
        read => return read,
    }
    match record_migrate(alloc, bytes, me) {
        Err(StoreFault::Bad) => {}
        read => return read,
    }
    let (record, _taken) = log_of(alloc, Ending::Cut, Version::One, bytes, me)?;
    Ok(record)
}

/// Returns the record of a file with these bytes, and for a log of version 2 the length of its
/// header and its whole entries.
fn record_of_bytes(
    alloc: Global,
    bytes: &[u8],
    me: Me,
) -> Result<(Record, Option<usize>), StoreFault>
    ensures log { IfOk result (λ x. IfSome x.1 (LogFound me bytes.now x.0)) }
    ensures whole { IfOk result (λ x. IsNone x.1 → IsWholeForm me bytes.now x.0) }
    ensures only { (r : Record Value) → IsWritten me bytes.now r → IfOk result (λ x. x.0 ≡ r) }
    ensures bad { IsErrOf result StoreFault.Bad → (r : Record Value) → ¬ IsWritten me bytes.now r }
    ensures others { ¬ IsErrOf result StoreFault.Device }
{
    forms_are_apart();
    match log_of(alloc, Ending::Torn(bytes.len()), Version::Two, bytes, me) {
        Ok((record, taken)) => Ok((record, Some(taken))),
        Err(StoreFault::Bad) => {
            let record = record_of_whole(alloc, bytes, me)?;
            Ok((record, None))
        }
        Err(fault) => Err(fault),
    }
}

/// Returns the form of a file with these bytes. `log` is the length of the header and the whole
/// entries of a log of version 2.
fn form_of_bytes(mut bytes: Vec<u8>, log: Option<usize>) -> Form
    requires { IfSome log (λ n. n ≤ length bytes.items) }
    ensures form { (me : Me) (r : Record Value) → IfSome log (LogFound me bytes.items r)
        → (IsNone log → IsWholeForm me bytes.items r) → IsFormIn me bytes.items r result }
    ensures kept { (folder : Folder) → IsKeptAs folder result }
{
    let length = bytes.len();
    match log {
        None => Form::Whole(length),
        Some(taken) => {
            bytes.truncate(taken);
            Form::Loaded(bytes, length)
        }
    }
}

/// The record that the file has, the empty one where there is no file, and its form.
pub(crate) fn form_of(
    alloc: Global,
    file: Option<Vec<u8>>,
    me: Me,
) -> Result<(Record, Form), StoreFault>
    ensures missing { IsNone file → IfOk result (λ x. (x.0 ≡ empty_record) × (x.1 ≡ Form.Missing)) }
    ensures no_file_is_good { IsNone file → IsOk result }
    ensures form { IfSome file (λ bytes. IfOk result (λ x. IsFormIn me bytes.items x.0 x.1)) }
    ensures only { IfSome file
        (λ bytes. (r : Record Value) → IsWritten me bytes.items r → IfOk result (λ x. x.0 ≡ r)) }
    ensures bad { IsErrOf result StoreFault.Bad
        → IfSome file (λ bytes. (r : Record Value) → ¬ IsWritten me bytes.items r) }
    ensures fits { IfOk result (λ x. IsFiledAs me x.0 x.1) }
    ensures kept { IfOk result (λ x. (folder : Folder) → IsKeptAs folder x.1) }
    ensures others { ¬ IsErrOf result StoreFault.Device }
{
    files_are_known();
    let Some(bytes) = file else {
        return Ok((Record::new(alloc), Form::Missing));
    };
    let (record, log) = record_of_bytes(alloc, bytes.as_slice(), me)?;
    Ok((record, form_of_bytes(bytes, log)))
}

/// Returns the log of so many starts.
fn log_of_starts(alloc: Global, starts: u32, me: Me) -> Result<Vec<u8>, AllocError>
    ensures { IfOk result (λ bytes. bytes.items ≡ log_of_starts me starts) }
{
    let mut bytes = new_log(alloc, me)?;
    bytes.resize(bytes.len() + starts as usize, 1)?;
    Ok(bytes)
}

/// Returns the log as it is, or one of less than half its length with the same record.
fn written_anew(alloc: Global, log: &[u8], kept: &Record, me: Me) -> Result<Vec<u8>, AllocError>
    requires { IsRecord me.group.size kept.now }
    ensures { IfOk result (λ bytes. IsAnew me log.now kept.now bytes.items) }
{
    match shortened(alloc, log, kept, me)? {
        Some(short) => Ok(short),
        None => log.to_vec(alloc),
    }
}

/// Makes a change that can be made, and returns the bytes that a file of that form needs to have
/// the changed record. The change comes last, so after an error nothing has changed.
pub(crate) fn patch_of(
    alloc: Global,
    form: &Form,
    kept: &mut Record,
    change: Change,
    me: Me,
) -> Result<Patch, AllocError>
    requires ranges { IsRecord me.group.size kept.old }
    requires entry { IsEntry me.group.size kept.old change }
    ensures makes { MakesChange me.group.size kept.old kept.new change result }
    ensures patch { IfOk result (λ patch. IsPatch me kept.old change form.now patch) }
{
    let mut bytes = match form {
        Form::Whole(_) => {
            let bytes = spell_changed(alloc, kept, change, me)?;
            return Ok(Patch { at: None, bytes });
        }
        Form::Missing => log_of_starts(alloc, 0, me)?,
        Form::Loaded(bytes, _) => written_anew(alloc, bytes.as_slice(), kept, me)?,
        Form::Log(length) => {
            if let Some(promised) = kept.promised {
                let bytes = append_behind(alloc, *length, promised, &change, me)?;
                enter(kept, change, me)?;
                let at = Some(*length);
                return Ok(Patch { at, bytes });
            }
            log_of_starts(alloc, kept.starts, me)?
        }
    };
    append(&change, me, &mut bytes)?;
    enter(kept, change, me)?;
    Ok(Patch { at: None, bytes })
}

/// Returns the form of a file that had the first form and got the patch.
pub(crate) fn form_after(form: &Form, patch: &Patch) -> Form
    ensures after { IsFormAfter form.now patch.now result }
    ensures fits { (me : Me) (r : Record Value) → IsFormOf me r result }
{
    let length = match patch.at {
        None => patch.bytes.len(),
        Some(before) => before.saturating_add(patch.bytes.len()),
    };
    match form {
        Form::Missing | Form::Loaded(_, _) | Form::Log(_) => Form::Log(length),
        Form::Whole(_) => Form::Whole(length),
    }
}
