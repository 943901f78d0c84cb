//! A rest of a node between two turns: when it began, and until when it lasts.
ghost use Rattle.std.specs.Prelude.{◌≡◌, ◌↔◌, false, IsTrue, None};
ghost use Rattle.group_udp.specs.Pace.{first_pace};
ghost use Rattle.group_udp.specs.Rests.{BeginsRest, IsLately, IsLater, IsTimeLeft, NotesLearned, NotesSent, earlier, time_to_learn, took};

use crate::limits::LONG_PAUSE;
use crate::pace::Pace;
use std::time::{Duration, Instant};

/// The last rest of a node, what has happened since it began, and when the node ticked last. A time
/// that the clock could not tell is `None`. Without `until` the rest is over.
#[derive(Clone, Copy)]
pub struct Rest {
    /// When it began, and when it ends.
    begun: Option<Instant>,
    until: Option<Instant>,
    pace: Pace,
    /// The known front of the node when it began.
    front: u32,
    /// True if anything but Asks was sent since then, and since a place was learned in it.
    has_sent: bool,
    /// From when on the time to learn a place counts. If anything but Asks was sent before the
    /// rest, that is its beginning; otherwise the first such sending in it. Once a place was
    /// learned in it, it is the first such sending after that. `None` if there was none.
    since: Option<Instant>,
    /// When the node ticked last. `None` if it has not ticked yet.
    ticked: Option<Instant>,
}

/// Returns the time so many milliseconds after another, if both are within what a clock counts.
fn later(time: Option<Instant>, millis: u64) -> Option<Instant>
    ensures { IsLater time millis result }
{
    time?.checked_add(Duration::from_millis(millis))
}

/// Returns the earlier of two times. One that is not known counts as the earliest.
fn earlier(one: Option<Instant>, other: Option<Instant>) -> Option<Instant>
    ensures { result ≡ earlier one other }
{
    let (one, other) = (one?, other?);
    match other.checked_duration_since(one) {
        Some(_) => Some(one),
        None => Some(other),
    }
}

/// Returns the time in milliseconds from `since` until now, at most 200.
fn took(since: Option<Instant>, now: Option<Instant>) -> u64
    ensures { result ≡ took since now }
{
    let (Some(since), Some(now)) = (since, now) else {
        return 0;
    };
    match u64::try_from(now.saturating_duration_since(since).as_millis()) {
        Ok(millis) => millis.min(LONG_PAUSE),
        Err(_) => LONG_PAUSE,
    }
}

impl Rest {
    /// Returns the rest of a node that starts, which is over.
    pub fn new() -> Rest
        ensures { result ≡ record {
          begun = None;
          until = None;
          pace = first_pace;
          front = 0;
          has_sent = false;
          since = None;
          ticked = None;
        } }
    {
        Rest {
            begun: None,
            until: None,
            pace: Pace::new(),
            front: 0,
            has_sent: false,
            since: None,
            ticked: None,
        }
    }

    /// Returns true if anything but Asks was sent since the rest began, and since a place was
    /// learned in it.
    pub fn has_sent(&self) -> bool
        ensures { result ≡ self.now.has_sent }
    {
        self.has_sent
    }

    /// Returns the time in milliseconds that it took to learn a place, if one was learned since the
    /// rest began: if `front` is above what it was then.
    fn time_to_learn(&self, now: Option<Instant>, front: u32) -> Option<u64>
        ensures { result ≡ time_to_learn self.now now front }
    {
        if front > self.front {
            Some(took(self.since, now))
        } else {
            None
        }
    }

    /// Begins a rest now, of a node whose known front is `front`. It is as long as the pace of the
    /// node says (`BeginsRest`).
    pub fn begin(&mut self, now: Option<Instant>, front: u32)
        ensures { BeginsRest self.old now front self.new }
    {
        let learned = self.time_to_learn(now, front);
        let pace = self.pace.next(learned, self.has_sent);
        *self = Rest {
            begun: now,
            until: later(now, pace.rest),
            pace,
            front,
            has_sent: false,
            since: if self.has_sent { now } else { None },
            ticked: self.ticked,
        };
    }

    /// Notes that the node sends something but an Ask now, the first such datagram of the rest, or
    /// since a place was learned in it. If none was sent before the rest either, it ends soon,
    /// since what is sent may be lost (`NotesSent`).
    pub fn note_sent(&mut self, now: Option<Instant>)
        requires unsent { self.old.has_sent ≡ false }
        ensures { NotesSent self.old now self.new }
    {
        if !self.pace.sent_before {
            self.until = earlier(self.until, later(now, self.pace.first));
            self.since = now;
        }
        self.has_sent = true;
    }

    /// Notes that a place was learned, in a group of `size` nodes. The rest ends as soon as one may
    /// while keys are under way (`NotesLearned`).
    pub fn note_learned(&mut self, size: u8)
        ensures { NotesLearned self.old size self.new }
    {
        self.has_sent = false;
        self.until = earlier(self.until, later(self.begun, self.pace.least(size)));
    }

    /// Notes that the node ticks now.
    pub fn note_ticked(&mut self, now: Option<Instant>)
        ensures { self.new ≡ record self.old { ticked = now } }
    {
        self.ticked = now;
    }

    /// Returns true if the node ticked less than 200 milliseconds ago. If the clock could not tell,
    /// it did not.
    pub fn has_ticked_lately(&self, now: Option<Instant>) -> bool
        ensures { IsTrue result ↔ IsLately self.now.ticked now }
    {
        self.ticked.is_some() && now.is_some() && took(self.ticked, now) < LONG_PAUSE
    }

    /// Returns the time that is left of the rest, or `None` if it is over.
    pub fn left(&self, now: Option<Instant>) -> Option<Duration>
        ensures { IsTimeLeft self.now.until now result }
    {
        self.until?.checked_duration_since(now?)
    }
}
