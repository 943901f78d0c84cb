//! Saves a change before it is answered.
ghost use Rattle.std.specs.Prelude.{◌≡◌, ◌<◌, false, OnErr, OnOk};
ghost use Rattle.paxos_msg.specs.declared.record.Change.TheVariants.{Ballotted, Start};
ghost use Rattle.paxos_msg.specs.Messages.{IsAscending};
ghost use Rattle.paxos_msg.specs.Records.{with_vote};
ghost use Rattle.paxos_acceptor.specs.Saves.{SavesChange};
ghost use Rattle.paxos_msg.specs.declared.limits.TheConstants.{LAST_START};

use crate::fault::AcceptorFault;
use crate::store::{Store, StoreFault};
use paxos_msg::{Change, Vote, insert_vote};

/// Saves a change. Sets `is_closed` if the device fails.
pub(crate) fn save_to<S: Store>(
    store: &mut S,
    is_closed: &mut bool,
    change: Change,
) -> Result<(), AcceptorFault>
    requires open { is_closed.old ≡ false }
    requires starts { S.kind.honest → change ≡ Start
        → (S.kind.state store.old).stored.starts < LAST_START }
    requires ascending { S.kind.honest → IsAscending (S.kind.state store.old).stored.votes }
    ensures { SavesChange S.kind change store is_closed.new result }
{
    match store.save(&change) {
        Ok(()) => Ok(()),
        Err(StoreFault::Memory) => Err(AcceptorFault::Memory),
        Err(StoreFault::Device) => {
            *is_closed = true;
            Err(AcceptorFault::Store)
        }
        Err(StoreFault::Bad) => unreachable!(),
    }
}

/// Saves a vote and puts it among the votes. The room for it is made before the save, so nothing
/// can fail after it. After an error the votes are as they were.
pub(crate) fn save_vote<S: Store>(
    store: &mut S,
    is_closed: &mut bool,
    votes: &mut Vec<Vote>,
    vote: &Vote,
) -> Result<(), AcceptorFault>
    requires open { is_closed.old ≡ false }
    requires in_order { IsAscending votes.old.items }
    requires ascending { S.kind.honest → IsAscending (S.kind.state store.old).stored.votes }
    ensures saves { SavesChange S.kind (Ballotted vote.now.place vote.now.ballot vote.now.value)
        store is_closed.new result }
    ensures ok { OnOk result (votes.new.items ≡ with_vote votes.old.items vote.now) }
    ensures err { OnErr result (votes.new.items ≡ votes.old.items) }
{
    votes.reserve(1)?;
    let change = Change::Ballotted(vote.place, vote.ballot, vote.value);
    save_to(store, is_closed, change)?;
    match insert_vote(votes, *vote) {
        Ok(()) => Ok(()),
        Err(_) => unreachable!(),
    }
}
