//! A proposer under one ballot.
ghost use Rattle.std.specs.Prelude.{◌≡◌, ◌↔◌, ◌+◌, ◌<◌, ◌≤◌, IsTrue, IsSome, IfOk, IfSome, IsOkUnless, OnOk, OnErr, IsErrOf, option_map};
ghost use Rattle.paxos_msg.specs.Bodies.{IsBody};
ghost use Rattle.paxos_proposer.specs.Proposer.{IsPromisePart, asks_after, new_proposer, coverage_of, is_covered, is_kept_from, next_of, next_value, heard_promise, proposal, proposed_at, proposing};
ghost use Rattle.paxos_msg.specs.declared.limits.TheConstants.{LAST_PLACE, MOST_NODES, PLACES};
ghost use Rattle.paxos_proposer.specs.declared.proposer.TheConstants.{RESERVED_PROPOSALS};

use crate::covering::count_covering;
use crate::fault::ProposerFault;
use crate::hearing::hear_votes;
use crate::kept::KeptVotes;
use paxos_msg::{Ballot, BodyView, PLACES, Value, View, Vote};
use std::alloc::Global;
use std::marker::Model;

/// The most proposals with which a node goes on at one event, before it offers a value.
pub const MOST_PUMPED: u8 = 16;

/// The number of proposals that `Proposer::reserve` makes room for: those of one event of a node,
/// which goes on and then offers a value.
pub const RESERVED_PROPOSALS: usize = MOST_PUMPED as usize + 1;

/// A proposer under one ballot. From the promises of the acceptors it finds the value that it may
/// propose at each place, one place after another. A proposal takes two searches, and a part of a
/// promise two for each of its votes, however many votes are kept. The calls that only read take
/// none.
#[derive(Drop)]
pub struct Proposer {
    ballot: Ballot,
    size: u8,
    /// The place up to which, and without which, the promises of an acceptor reach, by its number,
    /// 1 to 9.
    coverages: [u32; 10],
    /// The vote to keep for each place from the next one on, of the reported ones.
    kept: KeptVotes,
    first: u32,
    /// The proposed values, at the first place and on, one after another.
    values: Vec<Value>,
}

impl Model for Proposer {
    ghost use Rattle.paxos_proposer.specs.States.{ProposerState};

    ghost Value = { ProposerState };

    ghost use Rattle.paxos_proposer.specs.Fields.{AreWhole, proposer_state};

    ghost view = { proposer_state };

    ghost invariant = { AreWhole };
}

impl Proposer {
    /// Returns a proposer under `ballot` in a group of `size` nodes, at most 9. It has heard
    /// nothing and proposed nothing. Its next place is `from`, at most 65,535.
    ///
    /// It takes no memory.
    pub fn begin(alloc: Global, ballot: Ballot, from: u32, size: u8) -> Proposer
        requires from { from ≤ LAST_PLACE }
        requires size { size ≤ MOST_NODES }
        ensures { result.known ≡ new_proposer ballot from size }
    {
        Proposer {
            ballot,
            size,
            coverages: [from; 10],
            kept: KeptVotes::new(alloc),
            first: from,
            values: Vec::new(alloc),
        }
    }

    /// Returns the proposer's ballot.
    pub fn ballot(&self) -> Ballot
        ensures { result ≡ self.now.known.ballot }
    {
        self.ballot
    }

    /// Returns the next place to propose at, at most 65,536.
    pub fn next_place(&self) -> u32
        ensures next { result ≡ next_of self.now.known }
        ensures few { result ≤ PLACES }
    {
        self.first + self.values.len() as u32
    }

    /// Returns the place below which the promises of acceptor `node` reach, at most 65,536.
    pub fn coverage(&self, node: u8) -> u32
        requires { node ≤ MOST_NODES }
        ensures coverage { result ≡ coverage_of self.now.known node }
        ensures few { result ≤ PLACES }
    {
        self.coverages[usize::from(node)]
    }

    /// Returns true if the promises of a majority reach beyond `place`.
    pub fn is_covered(&self, place: u32) -> bool
        ensures { result ≡ is_covered self.now.known place }
    {
        usize::from(self.size) < 2 * count_covering(self.size, &self.coverages, place)
    }

    /// Returns true if a vote is kept at `place` or above it.
    pub fn is_kept_from(&self, place: u32) -> bool
        ensures { result ≡ is_kept_from self.now.known.kept place }
    {
        self.kept.is_from(place)
    }

    /// Returns the value that is proposed at `place`, if any. `place` may be any number.
    pub fn proposed(&self, place: u32) -> Option<Value>
        ensures { result ≡ proposed_at self.now.known place }
    {
        if place < self.first {
            return None;
        }
        self.values.get((place - self.first) as usize).copied()
    }

    /// Hears a part of a promise of acceptor `sender` under the proposer's own ballot
    /// (`heard_promise`). Returns the place from which to ask it for more, at most 65,535, exactly
    /// if its coverage rose and does not reach all places. What is proposed never changes. Fails
    /// only with `Memory`; then nothing that is known has changed.
    ///
    /// A part that does not raise the coverage is ignored. Of the votes of one that does, those
    /// count that are at places from the old coverage on where nothing is proposed yet. At each
    /// place the vote with the greatest ballot is kept.
    pub fn on_promise(&mut self, sender: u8, view: &View<'_>) -> Result<Option<u32>, ProposerFault>
        requires sender { sender ≤ MOST_NODES }
        requires part { IsPromisePart self.old.known.ballot view.now.body }
        requires ranges { IsBody self.old.known.size sender view.now.body }
        ensures ok { OnOk result
            (self.new.known ≡ heard_promise self.old.known sender view.now.body) }
        ensures answer { IfOk result
            (λ from. from ≡ asks_after self.old.known sender view.now.body) }
        ensures place { IfOk result (λ from. IfSome from (λ place. place ≤ LAST_PLACE)) }
        ensures err { OnErr result (self.new.known ≡ self.old.known) }
        ensures memory { IsOkUnless result ProposerFault.Memory }
        ensures room { self.old.room ≤ self.new.room }
    {
        let BodyView::Promise {
            first,
            upto,
            votes,
            ..
        } = &view.body
        else {
            unreachable!()
        };
        let node = usize::from(sender);
        let reached = self.coverages[node];
        if reached < *first || *upto <= reached {
            return Ok(None);
        }
        let low = reached.max(self.next_place());
        hear_votes(low, votes.iter(), &mut self.kept)?;
        self.coverages[node] = *upto;
        if *upto < PLACES {
            Ok(Some(*upto))
        } else {
            Ok(None)
        }
    }

    /// Returns the value to propose at the next place, if any.
    #[tactic(auto, using(crate::proofs::CountingCoverage::covered_below))]
    fn next_value(&self, offered: Option<Value>) -> Option<Value>
        ensures value { result ≡ next_value self.now.known offered }
        ensures below { IsSome result → next_of self.now.known ≤ LAST_PLACE }
    {
        let place = self.next_place();
        if !self.is_covered(place) {
            return None;
        }
        if let Some(vote) = self.kept.at(place) {
            return Some(vote.value);
        }
        if self.is_kept_from(place + 1) {
            return Some(Value::Noop);
        }
        offered
    }

    /// Proposes at the next place, at most 65,535, exactly if `next_value` gives a value. Returns
    /// and remembers the proposal; a vote kept there is dropped. Nothing else that is known
    /// changes, nothing at an error. Fails with `PlacesSpent` exactly if a value is offered and the
    /// next place is 65,536, never with `RoundsSpent`.
    ///
    /// It proposes if a majority's promises reach beyond the place. The value is that of the vote
    /// that is kept there; without one a no-op if a vote is kept above; and else `offered`.
    /// `PlacesSpent` comes before `Memory`.
    pub fn next_accept(&mut self, offered: Option<Value>) -> Result<Option<Vote>, ProposerFault>
        ensures ok { OnOk result
            (self.new.known ≡ proposing self.old.known (next_value self.old.known offered)) }
        ensures answer { IfOk result
            (λ vote. vote ≡ option_map (proposal self.old.known)
            (next_value self.old.known offered)) }
        ensures place { IfOk result (λ vote. IfSome vote (λ v. v.place ≤ LAST_PLACE)) }
        ensures spent { IsErrOf result ProposerFault.PlacesSpent
            ↔ (IsSome offered × (next_of self.old.known ≡ PLACES)) }
        ensures err { OnErr result (self.new.known ≡ self.old.known) }
        ensures others { ¬ IsErrOf result ProposerFault.RoundsSpent }
        ensures sure { 0 < self.old.room → ¬ IsErrOf result ProposerFault.Memory }
        ensures room { self.old.room ≤ self.new.room + 1 }
    {
        let place = self.next_place();
        if place == PLACES && offered.is_some() {
            return Err(ProposerFault::PlacesSpent);
        }
        let Some(value) = self.next_value(offered) else {
            return Ok(None);
        };
        let proposal = Vote {
            place,
            ballot: self.ballot,
            value,
        };
        let Ok(()) = self.values.push(proposal.value) else {
            return Err(ProposerFault::Memory);
        };
        self.kept.pass(place);
        Ok(Some(proposal))
    }

    /// Makes room for 17 more proposals (`RESERVED_PROPOSALS`). Nothing that is known changes.
    /// Fails only with `Memory`.
    ///
    /// After `Ok` the next 17 `next_accept` never fail with `Memory`, also with calls of
    /// `on_promise` and `reserve` between them.
    pub fn reserve(&mut self) -> Result<(), ProposerFault>
        ensures same { self.new.known ≡ self.old.known }
        ensures ok { OnOk result (RESERVED_PROPOSALS ≤ self.new.room) }
        ensures memory { IsOkUnless result ProposerFault.Memory }
        ensures room { self.old.room ≤ self.new.room }
    {
        self.values.reserve(RESERVED_PROPOSALS)?;
        Ok(())
    }

    /// Hears that an acceptor refused `ballot`. Returns true exactly if it is the proposer's own:
    /// then the proposer is over, and is to be dropped by [`Proposer::drop_ballot`].
    pub fn on_refused(&self, ballot: Ballot) -> bool
        ensures { IsTrue result ↔ (self.now.known.ballot ≡ ballot) }
    {
        ballot == self.ballot
    }

    /// Drops the ballot: consumes the proposer, with all that was heard and proposed under it.
    pub fn drop_ballot(self) {}
}
