//! Laws of processes, as facts about the definitions alone.
ghost use Rattle.std.specs.Prelude.{◌≡◌, ◌≢◌, ◌+◌, ◌≤◌, ℕ, false, [], ◌∷◌, ◌++◌, Contains, drop, length, List, None, map, take};
ghost use Rattle.pcode_file.specs.Parts.{Parts};
ghost use Rattle.pcode_machine.specs.Runs.{IsPrefix};
ghost use Rattle.paxos_msg.specs.declared.message.Group.{Group};
ghost use Rattle.paxos_msg.specs.Batches.{Msg};
ghost use Rattle.paxos_msg.specs.Fits.{IsGroup};
ghost use Rattle.paxos_msg.specs.Datagrams.{Msgs};
ghost use Rattle.paxos_acceptor.specs.declared.me.Me.{Me};
ghost use Rattle.group_protocol.specs.Packets.{Datagram};
ghost use Rattle.group_protocol.specs.States.{IsSize};
ghost use Rattle.group_wire.specs.Traffic.{Letter, letters_of};
ghost use Rattle.group_world.specs.Group.{messages_in};
ghost use Rattle.group_world.specs.Member.{Member};
ghost use Rattle.group_rules.specs.Claims.{ConsolesAgree, ConsolesGrow, ConsolesHoldOutput, ConsolesShowReleased, HasNoGap, KeysOnce, LearnedAgree, LearnedChosen, LearnedStays, SerialsInOrder};
ghost use Rattle.group_world.specs.Processes.{Entry};
ghost use Rattle.group_process.specs.Network.{AreEntriesOf, GivenEntry, IsDeliveredLog, IsNetworkLog, MayHear, entries_alone};
ghost use Rattle.group_process.specs.Runs.{AlwaysLaterOfRuns, AlwaysOfNodes, AlwaysOfRuns, AreHistory, AreStarts, NodeStart, ConsolesAreReleased, ConsolesShowRuns, HasRuns, IsAfterRuns, IsGroupLog, IsOver, LeaveNodes};
ghost use Rattle.group_process.specs.Wrong.{beside_a_run, byte_then, left_first, then_over, writes_from};
ghost use Rattle.paxos_msg.specs.Records.{empty_record};
ghost use Rattle.group_process.specs.Terminals.{TerminalsAreConsoles, TerminalsShowConsoles, TerminalsShowLastRuns, WriteInTurn, terminal_after};

use group_world::laws::{logs_have_one_end, prefixes_of_logs, processes_headline, processes_show};
use paxos_msg::grammar::{spelling_is_read, spelling_is_short};
use pcode_machine::laws::prefixes_are_ordered;

/// A datagram that was handed over as a letter was sent. A message that a sent datagram spells is
/// one of the messages that were sent.
pub fn what_is_given_was_sent()
    ensures letter { (size : ℕ) (sent : List Datagram) (l : Letter)
        → Contains (letters_of size sent) l → Contains (map (λ x. x.bytes) sent) l.bytes }
    ensures message { (group : Group) (sent : List Datagram) (bytes : List ℕ) (m : Msg)
        → IsGroup group → Msgs group bytes m → Contains (map (λ x. x.bytes) sent) bytes
        → Contains (messages_in group sent) m }
{
    spelling_is_read();
}

/// The runs of a node, one after the other, are a history of it, over a store that keeps its
/// record.
pub fn runs_are_histories()
    ensures { (p : Parts) (me : Me) (m : Member) (starts : List NodeStart) → m.node ≡ None
        → AreStarts p me m.kept starts → AreHistory p me m starts }
{}

/// After a log of runs there are nodes (`IsAfterRuns`): all nodes of the group, each with the
/// record that its runs left, and up or down as they left it. There is only one such list of nodes,
/// whichever runs the log is taken for.
pub fn logs_leave_nodes()
    ensures nodes { (p : Parts) (group : Group) (starts : ℕ → List NodeStart) (log : List Entry)
        → IsGroupLog p group starts log → LeaveNodes p group starts log }
    ensures only { (p : Parts) (group : Group) (starts others : ℕ → List NodeStart)
        (log : List Entry) (now other : List Member) → IsAfterRuns p group starts log now
        → IsAfterRuns p group others log other → other ≡ now }
{
    runs_are_histories();
    logs_have_one_end();
}

/// Each prefix of a log of runs is a log of runs: of the first ones of each node, of which the last
/// one may be cut off at a deed. So what holds at the end of every log holds at each moment of one.
pub fn prefixes_of_runs()
    ensures { (p : Parts) (group : Group) (starts : ℕ → List NodeStart) (log more : List Entry)
        → IsGroupLog p group starts (log ++ more) → HasRuns p group starts log }
{}

/// If each message that a receive gave was handed over before (`IsNetworkLog`), the entries alone
/// are a log of the runs (`IsGroupLog`). Over any stores (`IsDeliveredLog`) they are entries of the
/// starts, and what is heard was sent before (`AreEntriesOf`).
pub fn networks_carry()
    ensures runs { (p : Parts) (group : Group) (starts : ℕ → List NodeStart) (log : List GivenEntry)
        → IsGroup group → IsNetworkLog p group starts log
        → IsGroupLog p group starts (entries_alone log) }
    ensures starts { (p : Parts) (group : Group) (starts : ℕ → List NodeStart)
        (log : List GivenEntry) → IsGroup group → IsDeliveredLog p group starts log
        → AreEntriesOf group starts (entries_alone log) }
{
    spelling_is_read();
}

/// Every program and every group of 1, 3, 5, 7 or 9 nodes has such runs as `MayHear` claims. So the
/// premises of the main theorem can be met.
pub fn runs_may_hear()
    ensures { (p : Parts) (group : Group) → IsSize group.size → IsGroup group → MayHear p group }
{
    spelling_is_short();
    networks_carry();
}

/// What a terminal shows of its node's console, if the runs write at it in turn and each is told in
/// `--seen` how many bytes are there (`AreAtTerminal`). Premise of all three: the console begins
/// with what each run has released. The third needs one more: the console is what one of them has
/// released, or nothing.
///
/// - The terminal shows a prefix of the console, whatever was lost.
/// - What the last run has released is there once that run has written all that it had to.
/// - If nothing was lost, the terminal is the console.
pub fn terminals_are_consoles()
    ensures shows { (starts : ℕ → List NodeStart) (now : List Member)
        → ConsolesShowRuns starts now → TerminalsShowConsoles starts now }
    ensures last { (starts : ℕ → List NodeStart) (now : List Member)
        → ConsolesShowRuns starts now → TerminalsShowLastRuns starts now }
    ensures whole { (starts : ℕ → List NodeStart) (now : List Member) → ConsolesShowRuns starts now
        → ConsolesAreReleased starts now → TerminalsAreConsoles starts now }
{}

/// What a run writes at a terminal that shows `shown`, a prefix of what the run has released, if
/// it is told another number than that of these bytes. After a smaller number the bytes from there
/// on are there twice. After one that is greater by `n`, the next `n` bytes are left out.
pub fn wrong_seen()
    ensures repeats { (shown released : List ℕ) (seen : ℕ) → IsPrefix shown released
        → seen ≤ length shown → shown ++ drop seen released
        ≡ shown ++ (drop seen shown ++ drop (length shown) released) }
    ensures leaves_out { (shown released : List ℕ) (n : ℕ) → IsPrefix shown released
        → released ≡ shown ++ (take n (drop (length shown) released)
        ++ drop (length shown + n) released) }
{}

/// Runs that are none, and the right ones beside them. A second run over the record that the first
/// one loaded, and not over the one that it left, is none; nor is one beside a run that goes on.
pub fn wrong_runs()
    ensures right { (p : Parts) (me : Me)
        → AreStarts p me empty_record (then_over p me (IsOver false) (left_first p me)) }
    ensures older_record { (p : Parts) (me : Me)
        → ¬ AreStarts p me empty_record (then_over p me (IsOver false) empty_record) }
    ensures beside_one { (p : Parts) (me : Me)
        → ¬ AreStarts p me empty_record (beside_a_run p me) }
{}

/// What no runs write at a terminal, and the right runs beside it. A byte that is there is not
/// written a second time, and none is left out before another one. A byte that the run has not
/// released is not written.
pub fn wrong_terminals()
    ensures right { (byte : ℕ) → WriteInTurn [] (byte_then byte 1 []) }
    ensures shown { (byte : ℕ) → terminal_after [] (byte_then byte 1 []) ≡ byte ∷ [] }
    ensures twice { (byte : ℕ) → ¬ WriteInTurn [] (byte_then byte 0 (byte ∷ [])) }
    ensures other { (byte next : ℕ) → byte ≢ next
        → ¬ WriteInTurn [] (writes_from (byte ∷ []) 0 0 (next ∷ []) ∷ []) }
    ensures left_out { (byte next : ℕ)
        → ¬ WriteInTurn [] (writes_from (byte ∷ next ∷ []) 0 1 (next ∷ []) ∷ []) }
{}

/// The main theorem for processes on wires. It is about every program, every group of 1, 3, 5, 7 or
/// 9 nodes, and every log of the runs of their processes in one order of time, over stores that
/// keep their records and a network that carries what was sent.
///
/// - Such a log leaves nodes: all nodes of the group, each as its runs left it. It leaves no others
/// (`logs_leave_nodes`), and all claims are of these nodes.
/// - The claims are those of `group_rules::laws::headline`. Each prefix of a log is a log too. So
/// they hold at each moment, and `learned_stays` and `consoles_grow` between each two moments.
/// - The console of a node begins with what each of its runs has released, also when the run is
/// over, and it is what one of them has released, or nothing: the longest of these.
/// - A terminal shows a prefix of its node's console. It shows all that the last run has released
/// once that run has written all that it had to. It shows the whole console if nothing was lost
/// (`terminals_are_consoles`).
pub fn runs_headline()
    ensures nodes { (p : Parts) (group : Group) (starts : ℕ → List NodeStart) (log : List Entry)
        → IsGroupLog p group starts log → LeaveNodes p group starts log }
    ensures prefixes { (p : Parts) (group : Group) (starts : ℕ → List NodeStart)
        (log more : List Entry)
        → IsGroupLog p group starts (log ++ more) → HasRuns p group starts log }
    ensures learned_agree { AlwaysOfRuns LearnedAgree }
    ensures learned_chosen { AlwaysOfRuns LearnedChosen }
    ensures consoles_hold_output { AlwaysOfRuns ConsolesHoldOutput }
    ensures consoles_agree { AlwaysOfRuns ConsolesAgree }
    ensures no_gap { AlwaysOfRuns HasNoGap }
    ensures key_once { AlwaysOfRuns KeysOnce }
    ensures serials_in_order { AlwaysOfRuns SerialsInOrder }
    ensures shows_released { AlwaysOfRuns ConsolesShowReleased }
    ensures shows_runs { AlwaysOfNodes ConsolesShowRuns }
    ensures only_released { AlwaysOfNodes ConsolesAreReleased }
    ensures terminals_show { AlwaysOfNodes TerminalsShowConsoles }
    ensures terminals_show_last { AlwaysOfNodes TerminalsShowLastRuns }
    ensures terminals_are_whole { AlwaysOfNodes TerminalsAreConsoles }
    ensures learned_stays { AlwaysLaterOfRuns LearnedStays }
    ensures consoles_grow { AlwaysLaterOfRuns ConsolesGrow }
{
    logs_leave_nodes();
    prefixes_of_runs();
    processes_headline();
    processes_show();
    prefixes_of_logs();
    logs_have_one_end();
    terminals_are_consoles();
    prefixes_are_ordered();
}
