//! Node 2 of a group of three as an acceptor. Contracts see nothing of it, so that a test does not
//! carry a record from one call to the next. Each call of the acceptor is in a function of its own.
ghost use Rattle.paxos_msg.specs.Fits.{IsBallot, IsPlace, IsValue};

use super::acceptor::ME;
use paxos_acceptor::{Acceptor, AcceptorFault, MemoryStore};
use paxos_msg::{Ballot, Body, Record, Value};
use std::alloc::Global;
use std::marker::Model;

pub struct Voter {
    acceptor: Acceptor<MemoryStore>,
}

impl Drop for Voter {
    fn drop(self) {
        let Voter {
            acceptor: _acceptor,
        } = self;
    }
}

impl Model for Voter {
    ghost use Rattle.std.specs.Prelude.{◌≡◌};

    ghost Value = { Unit {0} };

    ghost view = { λ _. tt };

    ghost invariant = { λ v.
        v.acceptor.me ≡ record { node = 2; group = record { size = 3; session = 7 } } };
}

impl Voter {
    /// Opens one over the store. A refusal gives the fault, and the store back.
    pub fn open(alloc: Global, store: MemoryStore) -> Result<Voter, (AcceptorFault, MemoryStore)> {
        match Acceptor::open(alloc, store, ME) {
            Ok(acceptor) => Ok(Voter { acceptor }),
            Err(refused) => Err((refused.fault, refused.store)),
        }
    }

    /// Counts a start.
    pub fn start(&mut self) -> Result<u32, AcceptorFault> {
        self.acceptor.new_start()
    }

    pub fn prepare(&mut self, ballot: Ballot, from: u32) -> Result<Body, AcceptorFault>
        requires { IsBallot 3 ballot }
    {
        self.acceptor.prepare(ballot, from)
    }

    pub fn accept(
        &mut self,
        ballot: Ballot,
        place: u32,
        value: Value,
    ) -> Result<Body, AcceptorFault>
        requires ballot { IsBallot 3 ballot }
        requires place { IsPlace place }
        requires value { IsValue 3 value }
    {
        self.acceptor.accept(ballot, place, value)
    }

    pub fn record(&self) -> &Record {
        self.acceptor.record()
    }

    pub fn is_closed(&self) -> bool {
        self.acceptor.is_closed()
    }

    pub fn fail_next(&mut self, plan: Option<bool>) {
        self.acceptor.fail_next(plan);
    }

    pub fn into_store(self) -> MemoryStore {
        let Voter { acceptor } = self;
        acceptor.into_store()
    }
}
