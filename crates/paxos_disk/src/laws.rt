//! The laws of the bytes of a record, over the definitions alone: of logs, of what a crash leaves
//! of them, and of the forms of a file. Each contract is the law.
ghost use Rattle.std.specs.Prelude.{◌≡◌, ◌^◌, ◌++◌, ◌<◌, ◌≤◌, ◌⊎◌, ℕ, [], Bool, IsOk, List, None, Option, Result, Some, length, take};
ghost use Rattle.paxos_msg.specs.declared.ballot.Ballot.{Ballot};
ghost use Rattle.paxos_msg.specs.Batches.{Change, Record};
ghost use Rattle.paxos_msg.specs.Fits.{AreBytes};
ghost use Rattle.paxos_msg.specs.Records.{changed, empty_record};
ghost use Rattle.paxos_acceptor.specs.declared.me.Me.{Me};
ghost use Rattle.paxos_acceptor.specs.Records.{IsRecord};
ghost use Rattle.paxos_disk.specs.declared.record.version.Version.TheVariants.{One, Two};
ghost use Rattle.paxos_disk.specs.declared.record.version.Version.{Version};
ghost use Rattle.paxos_disk.specs.declared.log.ending.Ending.{Ending};
ghost use Rattle.paxos_disk.specs.declared.store.form.Form.{Form};
ghost use Rattle.paxos_disk.specs.declared.store.form.Form.TheVariants.{Missing};
ghost use Rattle.paxos_disk.specs.declared.store.form.Patch.{Patch};
ghost use Rattle.paxos_disk.specs.Entries.{IsEntry, entry_bytes};
ghost use Rattle.paxos_disk.specs.Files.{IsFiledAs, IsFormAfter, IsFormIn, IsPatch, patched};
ghost use Rattle.paxos_disk.specs.Log.{IsUncut, LogBy, LogFound, LogIn, log_header};
ghost use Rattle.paxos_disk.specs.Padding.{IsAppended};
ghost use Rattle.paxos_disk.specs.Sectors.{torn};
ghost use Rattle.paxos_acceptor.specs.declared.store.StoreFault.{StoreFault};
ghost use Rattle.paxos_msg.specs.Fits.{IsGroup};
ghost use Rattle.paxos_disk.specs.Disks.{Folder, Remains, seen_in};
ghost use Rattle.paxos_disk.specs.Found.{LoadsNoMore, LoadsNoMoreBut, MayLoad};
ghost use Rattle.paxos_disk.specs.Reads.{IsGood, Reads, Restarts, record_in};
ghost use Rattle.paxos_disk.specs.Records.{Rec};
ghost use Rattle.paxos_disk.specs.Version1.{Rec1};

use crate::log::entry::entries_stay_in_ranges;
use crate::log::reading::entry_is_spelling;
use crate::store::log_store::records_are_read;
use paxos_acceptor::Me;

/// In version 2 a header is a log of the empty record. A log without a cut entry, followed by a
/// change that can be made, is a log of the changed record; followed by only the first bytes of
/// that entry, it is one of the record before. A log without what was cut is a log of the same
/// record. So a save that is cut short while it appends leaves the old record or the changed one.
pub fn logs_grow()
    ensures new { (me : Me) → IsUncut me (log_header Two me) empty_record }
    ensures grown { (me : Me) (bytes : List ℕ) (r : Record) (c : Change) → IsUncut me bytes r
        → IsEntry me.group.size r c → IsUncut me (bytes ++ entry_bytes Two c) (changed r c) }
    ensures cut { (me : Me) (bytes : List ℕ) (r : Record) (c : Change) (xs ys : List ℕ)
        → IsUncut me bytes r → IsEntry me.group.size r c → entry_bytes Two c ≡ xs ++ ys
        → 0 < length ys → LogIn Two me (bytes ++ xs) r (length bytes) }
    ensures kept { (me : Me) (bytes : List ℕ) (r : Record) (n : ℕ) → LogIn Two me bytes r n
        → IsUncut me (take n bytes) r }
{}

/// What a crash leaves of an append to a log, by sectors as they were written or as zeros, is a log
/// of the record before it or after it, behind whose whole entries a load passes over the end. It
/// is never one of another record, and never bad.
pub fn torn_appends()
    ensures { (me : Me) (r : Record) (c : Change) (b : Ballot) (bytes xs ys : List ℕ)
        (lost : ℕ → Bool) → IsRecord me.group.size r → IsEntry me.group.size r c
        → r.promised ≡ Some b → IsUncut me bytes r → IsAppended b (length bytes) c (xs ++ ys)
        → ((n : ℕ) × LogFound me (bytes ++ torn lost (length bytes) xs) r n)
        ⊎ ((n : ℕ) × LogFound me (bytes ++ torn lost (length bytes) xs) (changed r c) n) }
{}

/// A load passes over nothing of a log with whole entries alone, whatever a crash has left behind
/// it. So nothing that was synced is passed over.
pub fn synced_entries_stay()
    ensures { (me : Me) (r s : Record) (bytes left : List ℕ) (n : ℕ) → AreBytes (bytes ++ left)
        → IsUncut me bytes r → LogFound me (bytes ++ left) s n → length bytes ≤ n }
{
    entry_is_spelling();
}

/// The knowledge that a store has of its file stays right at each save, as long as nothing else
/// writes there. The file has the changed record, in the form that the store notes. The length of a
/// log is below 2 to the power of 64.
pub(crate) fn files_are_known()
    ensures first { (me : Me) (c : Change) (patch : Patch) (form : Form)
        → IsEntry me.group.size empty_record c → IsPatch me empty_record c Missing patch
        → IsFormAfter Missing patch form
        → IsFormIn me patch.bytes.items (changed empty_record c) form }
    ensures next { (me : Me) (bytes : List ℕ) (r : Record) (c : Change) (form after : Form)
        (patch : Patch) → IsFormIn me bytes r form → IsEntry me.group.size r c
        → IsRecord me.group.size (changed r c) → IsPatch me r c form patch
        → IsFormAfter form patch after → length (patched bytes patch) < 2 ^ 64
        → IsFormIn me (patched bytes patch) (changed r c) after }
    ensures fits { (me : Me) (bytes : List ℕ) (r : Record) (form : Form) → IsFormIn me bytes r form
        → IsFiledAs me r form }
{
    entries_stay_in_ranges();
}

/// No bytes are both a whole record and a log, or of both versions.
pub fn forms_are_apart()
    ensures records { (me : Me) (bytes : List ℕ) (r old : Record) → Rec me bytes r
        → ¬ Rec1 me bytes old }
    ensures logs { (ending other : Ending) (me : Me) (bytes : List ℕ) (r s : Record) (m n : ℕ)
        → LogBy ending Two me bytes r m → ¬ LogBy other One me bytes s n }
    ensures log_or_record { (me : Me) (ending : Ending) (version : Version) (bytes : List ℕ)
        (r s : Record) (n : ℕ) → LogBy ending version me bytes r n → ¬ Rec me bytes s }
    ensures log_or_old_record { (me : Me) (ending : Ending) (version : Version) (bytes : List ℕ)
        (r s : Record) (n : ℕ) → LogBy ending version me bytes r n → ¬ Rec1 me bytes s }
{}

/// What a restart may load of the calls of a store on a disk, as records and not as bytes. All who
/// read a file read one record. On a disk without a file it is the empty record. It is what is
/// seen, which a load gives. After a load it is nothing new; after a save, the changed record or
/// what it was before; after a save that is `Ok`, the changed record alone.
pub fn what_restarts_load(me: Me)
    ensures one { (left : Option (List ℕ)) (r s : Record) (other : Me) → IsGroup other.group
        → Reads me left r → Reads other left s → s ≡ r }
    ensures none { (folder : Folder) (r : Record) → folder.file ≡ None → folder.others ≡ []
        → MayLoad folder r → r ≡ empty_record }
    ensures seen { (folder : Folder) → IsGood me (seen_in folder)
        → MayLoad folder (record_in me (seen_in folder)) }
    ensures load { (old new : Folder) → Remains old new → LoadsNoMore old new }
    ensures saved { (old new : Folder) (r next : Record) (result : Result (Unit {0}) StoreFault)
        → Restarts me old new r next result → IsOk result
        → (s : Record) → MayLoad new s → s ≡ next }
    ensures left { (old new : Folder) (next : Record) (result : Result (Unit {0}) StoreFault)
        → IsGood me (seen_in old)
        → Restarts me old new (record_in me (seen_in old)) next result
        → LoadsNoMoreBut old next new }
{
    // The prover knows the range of a field once it is read.
    let _session = me.group.session;
    records_are_read(me);
}
