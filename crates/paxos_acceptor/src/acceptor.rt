//! An acceptor.
ghost use Rattle.std.specs.Prelude.{◌≡◌, ◌≢◌, [], ◌∷◌, false, None, IfOk, IfErr, IsErrOf};
ghost use Rattle.paxos_msg.specs.Fits.{IsBallot, IsPlace, IsValue};
ghost use Rattle.paxos_acceptor.specs.Answers.{accept_of, prepare_of, greater_promise};
ghost use Rattle.base.specs.Calls.{FailsOnlyWith, IsAmong};
ghost use Rattle.paxos_acceptor.specs.Follows.{Answers, CountsStart};
ghost use Rattle.paxos_acceptor.specs.Opening.{IsOpened, OpensByPlan, OpensFrom, OpensOnce, fault_of_load};
ghost use Rattle.paxos_acceptor.specs.Records.{IsRecord};
ghost use Rattle.paxos_acceptor.specs.Stores.{HasSameOwner, MayLoadNoMore};

use crate::answers::{accepted, greater_promise, is_promised, part_from, value_under};
use crate::fault::AcceptorFault;
use crate::fits::record_fits;
use crate::me::Me;
use crate::saving::{save_to, save_vote};
use crate::store::{Store, StoreFault};
use paxos_msg::limits::LAST_START;
use paxos_msg::{Ballot, Body, Change, Record, Value, Vote, Votes, find_vote};
use std::alloc::Global;
use std::marker::Model;
use std::mem;

/// An acceptor over a store, whose record it keeps.
pub struct Acceptor<S: Store> {
    record: Record,
    me: Me,
    is_closed: bool,
    store: S,
    alloc: Global,
}

impl<S: Store + Drop> Drop for Acceptor<S> {
    fn drop(self) {
        let Acceptor {
            record: _record,
            me: _me,
            is_closed: _is_closed,
            store: _store,
            alloc: _alloc,
        } = self;
    }
}

impl<S: Store> Model for Acceptor<S> {
    ghost use Rattle.paxos_acceptor.specs.Follows.{AcceptorState, IsAcceptorInStep};

    ghost Value = { AcceptorState S };

    ghost view = { λ a. record {
      me = a.me;
      kept = a.record;
      is_closed = a.is_closed;
      store = a.store;
    } };

    ghost invariant = { λ a.
        IsAcceptorInStep S.kind
        (record { me = a.me; kept = a.record; is_closed = a.is_closed; store = a.store }) };
}

/// The refusal to open an acceptor, with the store.
#[derive(Drop)]
pub struct OpenRefused<S> {
    pub fault: AcceptorFault,
    pub store: S,
}

/// Returns the acceptor's fault for the fault of a load.
fn fault_of_load(fault: StoreFault) -> AcceptorFault
    ensures { result ≡ fault_of_load fault }
{
    match fault {
        StoreFault::Memory => AcceptorFault::Memory,
        StoreFault::Device => AcceptorFault::Store,
        StoreFault::Bad => AcceptorFault::BadRecord,
    }
}

/// Returns an acceptor over `store`, whose loaded record is `kept`. Fails with `BadRecord` if the
/// record is out of its ranges. It takes no memory.
fn over<S: Store>(
    alloc: Global,
    store: S,
    kept: Record,
    me: Me,
) -> Result<Acceptor<S>, OpenRefused<S>>
    requires { S.kind.honest → (S.kind.state store).stored ≡ kept }
    ensures ok { IfOk result
        (λ a. a ≡ record { me = me; kept = kept; is_closed = false; store = store }) }
    ensures ranges { IfOk result (λ _. IsRecord me.group.size kept) }
    ensures err { IfErr result
        (λ e. (e.fault ≡ AcceptorFault.BadRecord) × (e.store ≡ store)
        × ¬ IsRecord me.group.size kept) }
{
    if !record_fits(&kept, me) {
        let fault = AcceptorFault::BadRecord;
        return Err(OpenRefused { fault, store });
    }
    Ok(Acceptor {
        record: kept,
        me,
        is_closed: false,
        store,
        alloc,
    })
}

impl<S: Store> Acceptor<S> {
    /// Loads the record of `store` once, and opens an acceptor of node and group `me` that has it
    /// and is not closed (`Opens`). Fails with `Memory` or `Store` if the load answers `Memory` or
    /// `Device`, and with `BadRecord` if it answers `Bad` or the record is out of its ranges. There
    /// is no other refusal. Each gives the store back.
    ///
    /// An honest store keeps its record, also after a refusal, and the acceptor has that record.
    /// `BadRecord` then comes only where it is out of its ranges. The plan of any store stays. A
    /// store that fails at will is never refused with `Store`. `Store` counts one more fault, and
    /// nothing else counts one.
    ///
    /// Call `new_start` before the first answer. What was loaded may come from a save whose sync
    /// has failed in an earlier process, and is on the disk for sure only after the next save.
    pub fn open(alloc: Global, store: S, me: Me) -> Result<Acceptor<S>, OpenRefused<S>>
        ensures once { OpensOnce S.kind me store result }
        ensures opened { IfOk result (IsOpened me) }
        ensures from { S.kind.honest → OpensFrom S.kind me store result }
        ensures plan { OpensByPlan S.kind store result }
        ensures others { IfErr result (λ e. IsAmong (AcceptorFault.Memory ∷ AcceptorFault.Store
            ∷ AcceptorFault.BadRecord ∷ []) e.fault) }
    {
        let mut store = store;
        match store.load() {
            Ok(kept) => over(alloc, store, kept, me),
            Err(fault) => {
                let fault = fault_of_load(fault);
                Err(OpenRefused { fault, store })
            }
        }
    }

    /// Returns the acceptor's record, which is in its ranges. An honest store has it too while the
    /// acceptor is open.
    pub fn record(&self) -> &Record
        ensures same { result.now ≡ self.now.kept }
        ensures ranges { IsRecord self.now.me.group.size self.now.kept }
        ensures stored { S.kind.honest → self.now.is_closed ≡ false
            → (S.kind.state self.now.store).stored ≡ self.now.kept }
    {
        &self.record
    }

    /// Returns true if the acceptor is closed.
    ///
    /// A call that fails with `Store` closes it, and each later `new_start`, `prepare` and `accept`
    /// fails with `Closed`.
    pub fn is_closed(&self) -> bool
        ensures { result ≡ self.now.is_closed }
    {
        self.is_closed
    }

    /// Counts one more start, saves it, and returns the number of starts with it. Fails with
    /// `StartsSpent` exactly if the acceptor is open and has counted 4,294,967,295 starts. It never
    /// fails with `BadRecord`.
    ///
    /// `Follows` says what each answer leaves in the acceptor and its store.
    pub fn new_start(&mut self) -> Result<u32, AcceptorFault>
        ensures counts { CountsStart S.kind self.old self.new result }
        ensures others { FailsOnlyWith (AcceptorFault.Closed ∷ AcceptorFault.StartsSpent
            ∷ AcceptorFault.Memory ∷ AcceptorFault.Store ∷ []) result }
    {
        if self.is_closed {
            return Err(AcceptorFault::Closed);
        }
        if self.record.starts == LAST_START {
            return Err(AcceptorFault::StartsSpent);
        }
        save_to(&mut self.store, &mut self.is_closed, Change::Start)?;
        self.record.starts += 1;
        Ok(self.record.starts)
    }

    /// Answers a Prepare: Refused if a greater ballot is promised, else a part of a promise, with
    /// the first 8 votes from place `from` on. It covers the places up to its last vote, or all
    /// places if it leaves out no vote. A new promise is saved first. `Memory` comes only where no
    /// greater ballot is promised; `BadRecord` and `StartsSpent` never come.
    ///
    /// `Follows` says what each answer leaves in the acceptor and its store.
    pub fn prepare(&mut self, ballot: Ballot, from: u32) -> Result<Body, AcceptorFault>
        requires ballot { IsBallot self.old.me.group.size ballot }
        ensures answers { Answers S.kind (prepare_of self.old.kept ballot from) self result }
        ensures memory { IsErrOf result AcceptorFault.Memory
            → greater_promise self.old.kept.promised ballot ≡ None }
        ensures others { FailsOnlyWith (AcceptorFault.Closed ∷ AcceptorFault.Memory
            ∷ AcceptorFault.Store ∷ []) result }
    {
        if self.is_closed {
            return Err(AcceptorFault::Closed);
        }
        if let Some(promised) = greater_promise(self.record.promised, ballot) {
            return Ok(Body::Refused { ballot, promised });
        }
        let part = part_from(self.alloc, ballot, from, self.record.votes.as_slice())?;
        if is_promised(self.record.promised, ballot) {
            return Ok(part);
        }
        save_to(
            &mut self.store,
            &mut self.is_closed,
            Change::Promise(ballot),
        )?;
        self.record.promised = Some(ballot);
        Ok(part)
    }

    /// Answers an Accept: Refused if a greater ballot is promised. Else it is Accepted with
    /// `value`, or with the value voted for at `place` under the same ballot before. A new vote is
    /// saved first. `Memory` comes only where a vote is to be saved; `BadRecord` and `StartsSpent`
    /// never come.
    ///
    /// `Follows` says what each answer leaves in the acceptor and its store.
    pub fn accept(
        &mut self,
        ballot: Ballot,
        place: u32,
        value: Value,
    ) -> Result<Body, AcceptorFault>
        requires ballot { IsBallot self.old.me.group.size ballot }
        requires place { IsPlace place }
        requires value { IsValue self.old.me.group.size value }
        ensures answers { Answers S.kind (accept_of self.old.kept ballot place value) self result }
        ensures memory { IsErrOf result AcceptorFault.Memory
            → (accept_of self.old.kept ballot place value).saves ≢ None }
        ensures others { FailsOnlyWith (AcceptorFault.Closed ∷ AcceptorFault.Memory
            ∷ AcceptorFault.Store ∷ []) result }
    {
        if self.is_closed {
            return Err(AcceptorFault::Closed);
        }
        if let Some(promised) = greater_promise(self.record.promised, ballot) {
            return Ok(Body::Refused { ballot, promised });
        }
        let vote = find_vote(self.record.votes.as_slice(), place);
        if let Some(value) = value_under(vote, ballot) {
            return Ok(Body::Accepted {
                ballot,
                place,
                value,
            });
        }
        let empty = Votes::new(Vec::new(self.alloc));
        let mut votes = mem::replace(&mut self.record.votes, empty).into_vec();
        let vote = Vote {
            place,
            ballot,
            value,
        };
        let saved = save_vote(&mut self.store, &mut self.is_closed, &mut votes, &vote);
        self.record.votes = Votes::new(votes);
        saved?;
        self.record.promised = Some(ballot);
        Ok(accepted(&vote))
    }

    /// Returns the store as it is.
    pub fn into_store(self) -> S
        ensures { result ≡ self.store }
    {
        let Acceptor {
            record: _record,
            me: _me,
            is_closed: _is_closed,
            store,
            alloc: _alloc,
        } = self;
        store
    }

    /// Gives `plan` to the store: its next save is to fail and leave the changed record
    /// (`Some(true)`) or the old one (`Some(false)`), or not to fail (`None`). A store that fails
    /// at will then has it. The acceptor's node and record, whether it is closed, whose store it
    /// is, the record of an honest store, and the count of faults stay. Of an honest store a
    /// restart may load no more than before.
    pub fn fail_next(&mut self, plan: Option<bool>)
        ensures same { S.kind.honest
            → (S.kind.state self.new.store).stored ≡ (S.kind.state self.old.store).stored }
        ensures may { S.kind.honest → MayLoadNoMore S.kind self.old.store self.new.store }
        ensures owner { HasSameOwner S.kind self.old.store self.new.store }
        ensures plan { S.kind.fails_at_will → (S.kind.state self.new.store).plan ≡ plan }
        ensures faults { (S.kind.state self.new.store).faults
            ≡ (S.kind.state self.old.store).faults }
        ensures rest { (self.new.me ≡ self.old.me) × (self.new.kept ≡ self.old.kept)
            × (self.new.is_closed ≡ self.old.is_closed) }
    {
        self.store.fail_next(plan);
    }
}
