//! How long a node rests between two turns.
ghost use Rattle.std.specs.Prelude.{◌≡◌};
ghost use Rattle.group_udp.specs.Pace.{first_after, first_pace, least_of, pace_after, rest_after};

use crate::limits::{LONG_PAUSE, LONG_REST, SHORT_REST};

/// How long a node rests between two turns, and what its next rest depends on. Times are in
/// milliseconds.
#[derive(Clone, Copy, Debug, PartialEq, Eq)]
pub struct Pace {
    /// The time of the rest.
    pub rest: u64,
    /// The first pause between repeats: about twice the time from the last sending to learning.
    pub first: u64,
    /// True if the node sent anything but Asks before the rest.
    pub sent_before: bool,
}

impl Pace {
    /// Returns the pace of a node that starts.
    pub fn new() -> Pace
        ensures { result ≡ first_pace }
    {
        Pace {
            rest: SHORT_REST,
            first: SHORT_REST,
            sent_before: false,
        }
    }

    /// Returns the first pause between repeats, once a place was learned so many milliseconds after
    /// something was last sent for it. It is twice this time, but at least half of what it was and
    /// at most four times what it was, and in any case from 10 to 200 milliseconds.
    fn first_after(self, learned: Option<u64>) -> u64
        ensures { result ≡ first_after self.first learned }
    {
        match learned {
            Some(took) => {
                let most = LONG_PAUSE.min(self.first.min(LONG_PAUSE) * 4);
                let least = SHORT_REST.max(self.first / 2);
                least
                    .max(took.min(LONG_PAUSE) * 2)
                    .min(most.max(SHORT_REST))
            }
            None => self.first,
        }
    }

    /// Returns the time of the next rest.
    fn rest_after(self, learned: Option<u64>, has_sent: bool) -> u64
        ensures { result ≡ rest_after self learned has_sent }
    {
        match (learned.is_some(), has_sent, self.sent_before) {
            (false, true, true) => self.rest.min(LONG_PAUSE / 2) * 2,
            (_, true, _) => self.first_after(learned),
            (_, false, _) => LONG_REST,
        }
    }

    /// Returns the pace at the next rest. `learned` is the time from when something was last sent
    /// until a place was learned, if one was since the last rest began, and `has_sent` is true if
    /// anything but Asks was sent since then.
    ///
    /// A node that has sent nothing but Asks rests for 100 milliseconds. If it has sent more, had
    /// also done so before the last rest, and nothing was learned, then what it sent counts as
    /// repeats, and the pause before the next ones is twice as long as the last, up to 200. Else it
    /// rests for the `first` that is returned.
    pub fn next(self, learned: Option<u64>, has_sent: bool) -> Pace
        ensures { result ≡ pace_after self learned has_sent }
    {
        Pace {
            rest: self.rest_after(learned, has_sent),
            first: self.first_after(learned),
            sent_before: has_sent,
        }
    }

    /// Returns the time in milliseconds that a rest takes at least in a group of `size` nodes, if
    /// more keys than those that are under way are too few for a turn of their own: none if places
    /// are learned quickly, and else up to 95 for three nodes and 190 for nine, since with more
    /// nodes a repeat costs more datagrams.
    pub fn least(self, size: u8) -> u64
        ensures { result ≡ least_of self.first size }
    {
        let most = self.first.min(LONG_PAUSE).saturating_sub(SHORT_REST);
        most * (u64::from(size) + 3) / 12
    }
}
