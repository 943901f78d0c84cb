//! What a node does at a Prepare and at an Accept: its acceptor answers.
ghost use Rattle.std.specs.Prelude.{◌≡◌, [], false, option_map};
ghost use Rattle.paxos_msg.specs.Fits.{IsPlace};
ghost use Rattle.group_protocol.specs.Calls.{MayFailToSave, DoesAndSaves};
ghost use Rattle.group_protocol.specs.AcceptorResponses.{accept_answered_to, on_accept, on_prepare, unless_passed};
ghost use Rattle.group_protocol.specs.Ranges.{IsGroupBallot, IsGroupValue};

use crate::fault::{NodeFault, node_fault};
use crate::laws::responses_fit;
use crate::outbox::Outbox;
use crate::packet::To;
use crate::protocol::Protocol;
use paxos_acceptor::laws::{promises_fit, votes_fit};
use paxos_acceptor::{Store, greater_promise};
use paxos_msg::{Ballot, Value};
use paxos_proposer::Proposer;

/// Returns the proposer, unless the promised ballot is above its own.
fn unless_passed(promised: Option<Ballot>, proposer: Option<Proposer>) -> Option<Proposer>
    ensures { option_map (λ p. p.known) result
        ≡ unless_passed promised (option_map (λ p. p.known) proposer) }
{
    match proposer {
        Some(proposer) if greater_promise(promised, proposer.ballot()).is_none() => Some(proposer),
        _ => None,
    }
}

/// Returns to whom the answer to an Accept goes.
fn accept_answered_to(greater: Option<Ballot>, ballot: Ballot) -> To
    ensures { result ≡ accept_answered_to greater ballot }
{
    match greater {
        Some(_) => To::One(ballot.node),
        None => To::All,
    }
}

impl<S: Store> Protocol<S> {
    /// Answers a Prepare. The acceptor's answer goes to the ballot's node. Room for it is made
    /// before anything changes.
    pub(crate) fn on_prepare(
        &mut self,
        ballot: Ballot,
        from: u32,
        outbox: &mut Outbox,
    ) -> Result<(), NodeFault>
        requires ballot { IsGroupBallot self.old.known ballot }
        requires from { IsPlace from }
        requires open { self.old.is_stopped ≡ false }
        requires empty { outbox.old.packets ≡ [] }
        ensures responds { DoesAndSaves S.kind (on_prepare self.old.known ballot from) self outbox
            result }
        ensures others { MayFailToSave result }
    {
        promises_fit();
        responses_fit();
        // It says that a restart may load no other record.
        let _record = self.record();
        outbox.make_ready(1)?;
        let answer = match self.acceptor.prepare(ballot, from) {
            Ok(answer) => answer,
            Err(fault) => return Err(node_fault(fault)),
        };
        self.proposer = unless_passed(self.acceptor.record().promised, self.proposer.take());
        outbox.put(self.me, To::One(ballot.node), answer);
        Ok(())
    }

    /// Answers an Accept. An Accepted goes to all, a Refused to the ballot's node.
    pub(crate) fn on_accept(
        &mut self,
        ballot: Ballot,
        place: u32,
        value: Value,
        outbox: &mut Outbox,
    ) -> Result<(), NodeFault>
        requires ballot { IsGroupBallot self.old.known ballot }
        requires place { IsPlace place }
        requires value { IsGroupValue self.old.known value }
        requires open { self.old.is_stopped ≡ false }
        requires empty { outbox.old.packets ≡ [] }
        ensures responds { DoesAndSaves S.kind (on_accept self.old.known ballot place value) self
            outbox result }
        ensures others { MayFailToSave result }
    {
        votes_fit();
        responses_fit();
        // It says that a restart may load no other record.
        let _record = self.record();
        outbox.make_ready(1)?;
        let greater = greater_promise(self.acceptor.record().promised, ballot);
        let answer = match self.acceptor.accept(ballot, place, value) {
            Ok(answer) => answer,
            Err(fault) => return Err(node_fault(fault)),
        };
        self.proposer = unless_passed(self.acceptor.record().promised, self.proposer.take());
        outbox.put(self.me, accept_answered_to(greater, ballot), answer);
        Ok(())
    }
}
