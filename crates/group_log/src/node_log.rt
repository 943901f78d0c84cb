//! The log of one node.
use crate::drops::Drops;
use crate::milestones::{end_to_note, marks_reached};
use crate::note::{Note, line_of};
use crate::role::Role;
use crate::sends::Sends;
use group_protocol::Protocol;
use paxos_acceptor::Store;
use paxos_msg::Group;
use pcode_machine::End;
use std::alloc::Global;
use std::io::Write;
use std::time::{Clock, Duration, Instant, SystemTime};

/// The least time in seconds from one note of counts to the next of the same kind.
const COUNTS_APART: u64 = 1;

/// What is written into the log of a node.
#[derive(Clone, Copy, Debug, PartialEq, Eq)]
pub enum LogLevel {
    /// Nothing.
    Off,
    /// A line for each change.
    Notes,
    /// Also how many places are known and how many keys wait, once a second while that changes.
    Counts,
}

/// Returns the time in milliseconds from the start of 1970 on, in UTC, or 0 if the clock cannot be
/// read.
pub fn millis_now<H: Clock>(clock: &H) -> u64 {
    let Ok(now) = SystemTime::now(clock) else {
        return 0;
    };
    match now.duration_since(SystemTime::UNIX_EPOCH) {
        Ok(time) => u64::try_from(time.as_millis()).unwrap_or(0),
        Err(_) => 0,
    }
}

/// The log of one node. If it is not off, it writes notes to `errors`, a line each. A line that
/// cannot be made or written is left out.
#[derive(Drop)]
pub struct Log<'a, H, E> {
    alloc: Global,
    clock: &'a H,
    errors: &'a mut E,
    level: LogLevel,
    node: u8,
    role: Role,
    is_full: bool,
    marks: u8,
    has_ended: bool,
    counts_noted: Option<Instant>,
    /// The known front and the number of waiting keys that were noted last, and when.
    known: Option<(u32, usize)>,
    known_noted: Option<Instant>,
}

impl<'a, H: Clock, E: Write> Log<'a, H, E> {
    /// Makes the log of node `node`, before its start.
    pub fn new(
        alloc: Global,
        clock: &'a H,
        errors: &'a mut E,
        node: u8,
        level: LogLevel,
    ) -> Log<'a, H, E> {
        Log {
            alloc,
            clock,
            errors,
            level,
            node,
            role: Role::Follower,
            is_full: false,
            marks: 0,
            has_ended: false,
            counts_noted: None,
            known: None,
            known_noted: None,
        }
    }

    /// Returns true if notes are written.
    pub fn is_on(&self) -> bool {
        self.level != LogLevel::Off
    }

    /// Writes a note, if the log is on.
    pub fn note(&mut self, note: &Note<'_>) {
        if !self.is_on() {
            return;
        }
        if let Ok(line) = line_of(self.alloc, millis_now(self.clock), self.node, note) {
            let _ = self.errors.write_all(line.as_bytes());
        }
    }

    /// Notes that the node has started, and over which record.
    pub fn note_started<S: Store>(&mut self, node: &Protocol<S>, group: Group) {
        let record = node.record();
        if record.starts == 1 && record.promised.is_none() {
            return self.note(&Note::StartedNew(group));
        }
        self.note(&Note::Started {
            group,
            starts: record.starts,
            promised: record.promised,
            places: record.votes.as_slice().len(),
        });
    }

    /// Notes what has changed since the last look: of the node's ballot, and how many places are
    /// taken.
    pub fn look<S: Store>(&mut self, node: &Protocol<S>) {
        if !self.is_on() {
            return;
        }
        let next = self.role.next(node.ballot(), node.is_leading());
        if let Some(ballot) = self.role.lost_ballot(next) {
            let by = node.refusing_ballot().max(node.record().promised);
            self.note(&Note::BallotRefused { ballot, by });
        }
        if let Some(ballot) = self.role.new_ballot(next) {
            self.note(&Note::Campaigns(ballot));
        }
        if let Role::Leader(ballot) = next
            && self.role != next
        {
            self.note(&Note::Leads(ballot));
        }
        self.role = next;
        self.look_at_places(node.learner().known_front());
        self.look_at_known(node.learner().known_front(), node.waiting());
    }

    /// Notes that a half, three quarters, nine tenths or all of the places are taken, once each.
    fn look_at_places(&mut self, places: u32) {
        let reached = marks_reached(places);
        if reached > self.marks {
            self.note(&Note::Places(places));
        }
        self.marks = reached;
    }

    /// Notes the known front and how many keys wait, if that is asked for, one of them has changed,
    /// and a second has passed.
    fn look_at_known(&mut self, places: u32, waiting: usize) {
        if self.level != LogLevel::Counts || self.known == Some((places, waiting)) {
            return;
        }
        if let Some(now) = self.due_after(self.known_noted) {
            self.known_noted = Some(now);
            self.known = Some((places, waiting));
            self.note(&Note::Known { places, waiting });
        }
    }

    /// Notes the end of the program that a run has come to, if it has, for the first time in this
    /// process.
    pub fn note_program_end(&mut self, reached: Option<End>) {
        if let Some(end) = end_to_note(self.has_ended, reached) {
            self.note(&Note::Program(end));
            self.has_ended = true;
        }
    }

    /// Returns the time, if a second has passed since `last`.
    fn due_after(&self, last: Option<Instant>) -> Option<Instant> {
        let Ok(now) = Instant::now(self.clock) else {
            return None;
        };
        match last {
            Some(last) if now.saturating_duration_since(last) < Duration::from_secs(COUNTS_APART) =>
                { None }
            _ => Some(now),
        }
    }

    /// Notes dropped datagrams, and that none could be sent, at most once a second. Returns true if
    /// it was time for that; then they are to be counted from 0 again.
    pub fn note_counts(&mut self, drops: &Drops, sends: &Sends) -> bool {
        if !self.is_on() {
            return false;
        }
        let Some(now) = self.due_after(self.counts_noted) else {
            return false;
        };
        self.counts_noted = Some(now);
        if *drops != Drops::default() {
            self.note(&Note::Dropped(*drops));
        }
        if sends.is_cut_off() {
            self.note(&Note::Unsent(sends.refused));
        }
        true
    }

    /// Notes that typed bytes are left for which there is no room. Until there is room again, notes
    /// it only once.
    pub fn note_full(&mut self, waiting: usize, is_full: bool) {
        if is_full && !self.is_full {
            self.note(&Note::Full(waiting));
        }
        self.is_full = is_full;
    }
}
