//! Laws of processes over disks.
ghost use Rattle.std.specs.Prelude.{◌≡◌, ◌≢◌, ℕ, Bool, false, true, [], ◌∷◌, ◌++◌, Err, length, List, Option, Result, Some, take};
ghost use Rattle.std.specs.List.{AllByRecursion};
ghost use Rattle.pcode_file.specs.Parts.{Parts};
ghost use Rattle.paxos_msg.specs.declared.message.Group.{Group};
ghost use Rattle.paxos_msg.specs.Batches.{Record};
ghost use Rattle.paxos_msg.specs.Fits.{IsGroup};
ghost use Rattle.paxos_acceptor.specs.declared.me.Me.{Me};
ghost use Rattle.paxos_disk.specs.Disks.{FindsNoMore, Folder};
ghost use Rattle.paxos_disk.specs.Found.{LoadsNoMore, LoadsOnly, disk_kind};
ghost use Rattle.paxos_disk.specs.Reads.{IsFolderOf, LogState};
ghost use Rattle.group_protocol.specs.declared.start.StartRefused.{StartRefused};
ghost use Rattle.group_wire.specs.Starts.{HasStarted};
ghost use Rattle.node_io.specs.declared.fault.GroupFault.{GroupFault};
ghost use Rattle.node_run.specs.declared.cycles.RunPlan.{RunPlan};
ghost use Rattle.node_run.specs.Course.{Surroundings, around};
ghost use Rattle.node_run.specs.Runs.{RunsNode};
ghost use Rattle.group_protocol.specs.States.{IsSize};
ghost use Rattle.group_rules.specs.SmallPrograms.{letter_program};
ghost use Rattle.group_rules.specs.Claims.{ConsolesAgree, ConsolesGrow, ConsolesHoldOutput, HasNoGap, KeysOnce, LearnedAgree, LearnedChosen, LearnedStays, ConsolesShowReleased, SerialsInOrder};
ghost use Rattle.group_world.specs.Member.{Member};
ghost use Rattle.group_world.specs.Processes.{Entry};
ghost use Rattle.group_disk.specs.Wrong.{MayCampaign, taken_back};
ghost use Rattle.paxos_msg.specs.Records.{empty_record};
ghost use Rattle.group_process.specs.Network.{GivenEntry, entries_alone};
ghost use Rattle.group_process.specs.Runs.{AreStarts, NodeStart, ConsolesAreReleased, ConsolesShowRuns, IsOver, NodeRun, Starts};
ghost use Rattle.group_disk.specs.DiskCalls.{AreCallsAt, AreDiskCalls, DiskCall, FindsItsRecord, HandFolderOn, HaveStarts, WriteAt, runs_of};
ghost use Rattle.group_disk.specs.Folders.{AreOverDisk, DiskStart, IsFolderLog, IsNetworkFolderLog, IsNew, IsOverDisk, LeavesNoMoreThan, start_over, starts_of};
ghost use Rattle.group_disk.specs.Headline.{AlwaysLaterOfDisks, AlwaysOfDiskNodes, AlwaysOfDisks, AreSeenAlike, AreUpAsRun, DisksLeaveNodes, HasFirstStarts, HaveMomentOfDisks, IsAfterDisks};
ghost use Rattle.group_disk.specs.Recorded.{no_keyboard, recorded_plan, recorded_traffic, store_over};
ghost use Rattle.group_disk.specs.TornStarts.{changes_of_one, first_of_three, letter_shown, log_of_one, no_files, record_by_changes, synced_folder, torn_group, torn_log, torn_starts};
ghost use Rattle.group_process.specs.Terminals.{AreAtTerminal, TerminalsAreConsoles, TerminalsShowConsoles, TerminalsShowLastRuns, terminal_after};
ghost use Rattle.group_disk.specs.Written.{IsWrittenAt};
ghost use Rattle.group_disk.specs.Restarts.{AreChosenRuns, AreRestarts, AreSeenSame, HasKeptLog, HaveRuns, IsDiskLog};

use group_process::laws::{
    networks_carry, runs_headline, terminals_are_consoles, what_is_given_was_sent,
};
use paxos_acceptor::{Me, Store};
use paxos_disk::Disk;
use paxos_disk::laws::{logs_grow, torn_appends, what_restarts_load};
use paxos_msg::Group;
use paxos_msg::grammar::spelling_is_short;
use pcode_machine::laws::{output_only_grows, prefixes_are_ordered};

/// Starts over a disk are runs over a store that keeps its record, with the same deeds.
pub fn restarts_are_runs()
    ensures { (p : Parts) (me : Me) (kept : Record) (restarts : List NodeStart)
        → AreRestarts p me (kept ∷ []) restarts → HaveRuns p me kept restarts }
{}

/// Runs that are chosen from starts are seen the same as these starts.
pub fn chosen_runs_are_seen_same()
    ensures { (me : Me) (restarts starts : List NodeStart) → AreChosenRuns restarts starts
        → AreSeenSame me restarts starts }
{}

/// Starts over the folder of a disk from which a restart may load these records are such starts.
pub fn folders_restart()
    ensures { (p : Parts) (me : Me) (folder : Folder) (found : List Record)
        (starts : List DiskStart) → LoadsOnly folder found → AreOverDisk p me folder starts
        → AreRestarts p me found (starts_of starts) }
{}

/// A log over disks is one over stores that keep their records.
pub fn disk_logs_are_kept()
    ensures { (p : Parts) (group : Group) (restarts : ℕ → List NodeStart) (log : List Entry)
        → IsDiskLog p group restarts log → HasKeptLog p group restarts log }
{
    restarts_are_runs();
}

/// A log over folders that had no record at first is a log over disks.
pub fn folder_logs_are_disk_logs()
    ensures { (p : Parts) (group : Group) (folder : ℕ → Folder) (starts : ℕ → List DiskStart)
        (log : List Entry) → IsFolderLog p group folder starts log
        → IsDiskLog p group (λ i. starts_of (starts i)) log }
{
    folders_restart();
}

/// Where each datagram that a receive gave, if it spells a message, was handed to some wire before,
/// a log over folders with what receives gave is a log over folders: all that is heard was sent
/// before.
pub fn networks_carry_over_disks()
    ensures { (p : Parts) (group : Group) (folder : ℕ → Folder) (starts : ℕ → List DiskStart)
        (log : List GivenEntry) → IsGroup group → IsNetworkFolderLog p group folder starts log
        → IsFolderLog p group folder starts (entries_alone log) }
{
    networks_carry();
}

/// Each prefix of a log over disks is one too.
pub fn prefixes_of_disks()
    ensures { (p : Parts) (group : Group) (restarts : ℕ → List NodeStart) (log more : List Entry)
        → IsDiskLog p group restarts (log ++ more) → HasFirstStarts p group restarts log }
{}

/// The main theorem for processes over disks.
pub fn disks_headline()
    ensures nodes { (p : Parts) (group : Group) (restarts : ℕ → List NodeStart) (log : List Entry)
        → IsDiskLog p group restarts log → DisksLeaveNodes p group restarts log }
    ensures prefixes { (p : Parts) (group : Group) (restarts : ℕ → List NodeStart)
        (log more : List Entry) → IsDiskLog p group restarts (log ++ more)
        → HasFirstStarts p group restarts log }
    ensures moments { (p : Parts) (group : Group) (restarts : ℕ → List NodeStart)
        (log more : List Entry) → IsDiskLog p group restarts (log ++ more)
        → HaveMomentOfDisks p group restarts log more }
    ensures as_run { (p : Parts) (group : Group) (restarts : ℕ → List NodeStart) (log : List Entry)
        (now : List Member) → IsDiskLog p group restarts log
        → IsAfterDisks p group restarts log now → AreUpAsRun group restarts now }
    ensures alike { (p : Parts) (group : Group) (restarts : ℕ → List NodeStart) (log : List Entry)
        (now other : List Member) → IsSize group.size → IsGroup group
        → IsDiskLog p group restarts log → IsAfterDisks p group restarts log now
        → IsAfterDisks p group restarts log other → AreSeenAlike group now other }
    ensures learned_agree { AlwaysOfDisks LearnedAgree }
    ensures learned_chosen { AlwaysOfDisks LearnedChosen }
    ensures consoles_hold_output { AlwaysOfDisks ConsolesHoldOutput }
    ensures consoles_agree { AlwaysOfDisks ConsolesAgree }
    ensures no_gap { AlwaysOfDisks HasNoGap }
    ensures key_once { AlwaysOfDisks KeysOnce }
    ensures serials_in_order { AlwaysOfDisks SerialsInOrder }
    ensures shows_released { AlwaysOfDisks ConsolesShowReleased }
    ensures shows_runs { AlwaysOfDiskNodes ConsolesShowRuns }
    ensures only_released { AlwaysOfDiskNodes ConsolesAreReleased }
    ensures terminals_show { AlwaysOfDiskNodes TerminalsShowConsoles }
    ensures terminals_show_last { AlwaysOfDiskNodes TerminalsShowLastRuns }
    ensures terminals_are_whole { AlwaysOfDiskNodes TerminalsAreConsoles }
    ensures learned_stays { AlwaysLaterOfDisks LearnedStays }
    ensures consoles_grow { AlwaysLaterOfDisks ConsolesGrow }
{
    disk_logs_are_kept();
    prefixes_of_disks();
    runs_headline();
    terminals_are_consoles();
    prefixes_are_ordered();
}

/// Call by call starts over a disk are no runs over a store that keeps its record, however the
/// outcomes of the failed saves are chosen. So starts that nobody saw may have to be left out.
pub fn a_promise_is_taken_back()
    ensures may { (p : Parts) (me : Me) (loaded : Record) (a b c : Bool)
        → MayCampaign p me loaded
        → AreRestarts p me (loaded ∷ []) (taken_back p me loaded a b c) }
    ensures not { (p : Parts) (me : Me) (loaded : Record) (a b c : Bool)
        → ¬ AreStarts p me loaded (taken_back p me loaded a b c) }
    ensures some { (p : Parts) (me : Me) → MayCampaign p me empty_record }
{}

/// The premises of the main theorem can be met away from the first start. Starts of two nodes over
/// their disks are given with all bytes of their files, as a log of a group of three.
///
/// Node 1 campaigns, node 2 hears that and promises the ballot, and both are killed. The save of
/// the next start of node 1 fails, and was made for all that. The third start loads what it has
/// left and campaigns, and the append of its promise is torn. The fourth one starts over the log
/// with the torn end.
///
/// If the program is the one that writes the letter A, the first run and the last one show it: at
/// the terminal before the crashes, and again after them, since they have taken it from there.
pub fn starts_may_be_torn()
    ensures starts { (p : Parts) → AreOverDisk p first_of_three no_files (torn_starts p false) }
    ensures logged { (p : Parts) → IsFolderLog p first_of_three.group (λ i. no_files)
        (torn_group p false) (torn_log p false) }
    ensures shown_starts { AreOverDisk letter_program first_of_three no_files
        (torn_starts letter_program true) }
    ensures shown_log { IsFolderLog letter_program first_of_three.group (λ i. no_files)
        (torn_group letter_program true) (torn_log letter_program true) }
    ensures shown { AreAtTerminal (starts_of (torn_starts letter_program true)) (letter_shown 65) }
    ensures terminal { terminal_after [] (letter_shown 65) ≡ 65 ∷ [] }
{
    output_only_grows();
    let group = Group {
        size: 3,
        session: 7,
    };
    logs_grow();
    torn_appends();
    spelling_is_short();
    what_is_given_was_sent();
    what_restarts_load(Me { node: 1, group });
    what_restarts_load(Me { node: 2, group });
}

/// A run of which all is known. Node 1 of three starts over an empty disk, campaigns and shows a
/// letter. Its wire got the bytes of its Prepare, once for each node, and nothing else; its disk
/// has the log of one start and a promise; its terminal has the letter. So what is promised of a
/// run can be met, with each byte that passes and is written.
pub fn a_run_is_recorded()
    ensures { RunsNode (disk_kind (Unit {0}) (λ folder. folder)) first_of_three letter_program
        (store_over no_files None)
        (store_over (synced_folder log_of_one) (Some (record_by_changes changes_of_one)))
        recorded_plan (around (Some []) no_keyboard 0)
        (around (Some recorded_traffic) no_keyboard 0) (Some []) (Some (65 ∷ [])) (Ok tt) }
{
    let group = Group {
        size: 3,
        session: 7,
    };
    output_only_grows();
    logs_grow();
    what_restarts_load(Me { node: 1, group });
}

/// Starts that are none: over another record than a restart finds in the folder, as over the one
/// that the start before it has loaded; and a first start over a record, as over that of another
/// node.
pub fn wrong_starts()
    ensures other_record { (p : Parts) (me : Me) (folder after : Folder) (kept : Record)
        (run : NodeRun) → LoadsOnly folder (kept ∷ []) → run.process.loaded ≢ kept
        → ¬ AreOverDisk p me folder (start_over folder (Starts run) after ∷ []) }
    ensures first_over_a_record { (p : Parts) (me : Me) (after : Folder) (run : NodeRun)
        → run.process.loaded ≢ empty_record
        → ¬ AreOverDisk p me no_files (start_over no_files (Starts run) after ∷ []) }
{
    let group = Group {
        size: 3,
        session: 7,
    };
    what_restarts_load(Me { node: 1, group });
}

/// A run over an honest disk is a start of its node over the folder of that disk, whichever of the
/// two records a failed save has left. One that is refused is a start whose save failed, or it
/// leaves nothing to load that could not be loaded before.
///
/// So the runs of `run_over_disk`, one after the other over a disk to which nobody else writes, are
/// starts over its folders.
pub fn runs_are_starts<D: Disk>()
    ensures runs { (p : Parts) (me : Me) (store end : LogState D) (plan : RunPlan)
        (from to : Surroundings) (before after : Option (List ℕ))
        (result : Result (Unit {0}) GroupFault)
        (h : RunsNode (disk_kind D.honest D.folder) me p store end plan from to before after result)
        (is_changed : Bool) (rest : List DiskStart) → D.honest
        → IsOverDisk p me (start_over (D.folder store.disk)
        (Starts (record { process = h.runs.process; last = h.last; stand = IsOver is_changed }))
        (D.folder end.disk)) rest }
    ensures refused { (p : Parts) (me : Me) (store : LogState D)
        (refused : StartRefused (LogState D)) (rest : List DiskStart) → D.honest
        → HasStarted (disk_kind D.honest D.folder) me p store (Err refused)
        → LeavesNoMoreThan p me (D.folder store.disk) (D.folder refused.store.disk) rest }
{}

/// The calls of `run_over_disk` at a node, one after the other over one honest disk and at one
/// terminal, between which only a crash may touch either, are starts over the folder of that disk,
/// and runs at that terminal. So the premises of the main theorem that speak of the disks and
/// terminals of processes (`AreOverDisk`, `AreAtTerminal`) hold of such calls, if they return.
///
/// What a call requires of its disk is required of the first call alone, and a new folder meets it:
/// each call leaves it to the next one (`finds`). After each run a restart finds a record, and it
/// is that of the process, or one of the two that a failed save leaves. For this, nothing more may
/// be found between two calls; then nothing more may be loaded either (`between`).
pub fn calls_are_starts<D: Disk>()
    ensures starts { (p : Parts) (me : Me) (folder : Folder) (calls : List (DiskCall D))
        → D.honest → AreDiskCalls D.honest D.folder p me folder calls
        → HaveStarts p me folder (runs_of calls) }
    ensures new { (me : Me) (folder : Folder) → IsNew folder → IsFolderOf me folder }
    ensures finds { (p : Parts) (me : Me) (folder : Folder) (calls : List (DiskCall D))
        → D.honest → IsGroup me.group → IsFolderOf me folder
        → AreDiskCalls D.honest D.folder p me folder calls → HandFolderOn D.folder me folder calls
        → AllByRecursion (FindsItsRecord D.folder me) calls }
    ensures between { (old new : Folder) → FindsNoMore old new → LoadsNoMore old new }
    ensures terminal { (p : Parts) (me : Me) (folder : Folder) (calls : List (DiskCall D))
        (shown now : List ℕ) → AreDiskCalls D.honest D.folder p me folder calls
        → AreCallsAt shown calls now → WriteAt shown (runs_of calls) now }
{}

/// What a run of a node writes, to a writer that is told to begin at the number of the bytes that
/// are there, is what it shows at the terminal that this writer is. A start that is refused writes
/// nothing (`RefusesToStart`). So the runs of a node, over one writer, are at one terminal
/// (`AreAtTerminal`), which has a prefix of its console (`disks_headline`).
pub fn runs_write<S: Store>()
    ensures { (p : Parts) (me : Me) (store end : S) (plan : RunPlan) (from to : Surroundings)
        (shown : List ℕ) (kept : ℕ) (after : Option (List ℕ))
        (result : Result (Unit {0}) GroupFault)
        (h : RunsNode S.kind me p store end plan from to (Some (take kept shown)) after result)
        → plan.seen ≡ length (take kept shown) → IsWrittenAt shown kept h.last after result }
{}
