//! The start of a node's part in the protocol.
ghost use Rattle.std.specs.Prelude.{◌≡◌, ◌<◌, [], ◌∷◌, false, IfErr, IfOk};
ghost use Rattle.base.specs.Calls.{IsAmong};
ghost use Rattle.paxos_acceptor.specs.Stores.{IsStoreOf, MayLoadOnly};
ghost use Rattle.group_protocol.specs.Known.{begun, on_start};
ghost use Rattle.group_protocol.specs.Ranges.{IsInRange};
ghost use Rattle.group_protocol.specs.Starting.{StartsOver};

use crate::config::Config;
use crate::fault::{NodeFault, node_fault};
use crate::laws::what_goes_out_fits;
use crate::protocol::Protocol;
use crate::waiting_keys::Waiting;
use paxos_acceptor::{Acceptor, Store};
use paxos_learner::{KeySet, Learner};
use std::alloc::Global;

/// A store over which a node was not started, and why.
#[derive(Drop)]
pub struct StartRefused<S> {
    pub fault: NodeFault,
    pub store: S,
}

impl<S: Store> Protocol<S> {
    /// Returns the node after a start that `acceptor` has counted.
    fn begun(alloc: Global, config: &Config, acceptor: Acceptor<S>, waiting: Waiting) -> Protocol<S>
        requires me { acceptor.me ≡ config.now }
        requires counted { 0 < acceptor.kept.starts }
        requires none { waiting ≡ record { first = 1; bytes = [] } }
        requires owned { IsStoreOf S.kind config.now acceptor.store }
        requires loads { S.kind.honest → acceptor.is_closed ≡ false
            → MayLoadOnly S.kind acceptor.store acceptor.kept }
        ensures known { result.known ≡ begun config.now acceptor.kept }
        ensures works { result.is_stopped ≡ acceptor.is_closed }
        ensures store { result.store ≡ acceptor.store }
        ensures ranges { IsInRange result.known }
    {
        what_goes_out_fits();
        let me = config.me();
        // It says that the record is in its ranges, and that an honest store has it.
        let _record = acceptor.record();
        Protocol {
            me,
            acceptor,
            learner: Learner::new(alloc, me.group.size),
            proposer: None,
            remembered: None,
            offered: KeySet::new(alloc),
            waiting,
            alloc,
        }
    }

    /// Starts the node: `acceptor` counts one more start, and saves it. The node has then heard,
    /// learned, offered and typed nothing. Fails with `Stopped` if `acceptor` is closed, else with
    /// `StartsSpent` if it has counted 4,294,967,295 starts, else with `Memory` or `Store`.
    ///
    /// The node has no proposer, and remembers no ballot that refused it. Its next key has the
    /// serial 1. Over an honest store no start has the number of an earlier one, so that no two of
    /// its keys have one name. A refusal gives the store back, as `Acceptor::new_start` leaves it.
    ///
    /// `acceptor` and its store are of the node of `config`, and `waiting` is empty, as
    /// `Waiting::new` makes it: a caller makes that room, and all that its machine needs, before
    /// the start is saved.
    pub fn start(
        alloc: Global,
        config: &Config,
        acceptor: Acceptor<S>,
        waiting: Waiting,
    ) -> Result<Protocol<S>, StartRefused<S>>
        requires me { acceptor.me ≡ config.now }
        requires owned { IsStoreOf S.kind config.now acceptor.store }
        requires none { waiting ≡ record { first = 1; bytes = [] } }
        ensures over { StartsOver S.kind config.now acceptor result }
        ensures known { IfOk result (λ p. p.known ≡ (on_start config.now acceptor.kept).node) }
        ensures ranges { IfOk result (λ p. IsInRange p.known) }
        ensures others { IfErr result (λ e. IsAmong (NodeFault.Stopped ∷ NodeFault.StartsSpent
            ∷ NodeFault.Memory ∷ NodeFault.Store ∷ []) e.fault) }
    {
        let mut acceptor = acceptor;
        match acceptor.new_start() {
            Ok(_) => Ok(Protocol::begun(alloc, config, acceptor, waiting)),
            Err(fault) => {
                let fault = node_fault(fault);
                let store = acceptor.into_store();
                Err(StartRefused { fault, store })
            }
        }
    }
}
