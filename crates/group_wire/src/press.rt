//! Bytes that are typed at a node.
ghost use Rattle.std.specs.Prelude.{◌≡◌, ◌↔◌, ◌+◌, ◌<◌, [], ◌∷◌, false, true, length, if◌then◌else◌, IfErr, IfOk, IsErrOf};
ghost use Rattle.paxos_msg.specs.declared.limits.TheConstants.{LAST_SERIAL};
ghost use Rattle.group_protocol.specs.declared.limits.TheConstants.{MOST_WAITING};
ghost use Rattle.group_protocol.specs.Calls.{RefusesIfStopped};
ghost use Rattle.group_protocol.specs.Known.{next_serial};
ghost use Rattle.group_wire.specs.Turns.{SameReleased};
ghost use Rattle.group_wire.specs.Doings.{ActsTyping};
ghost use Rattle.group_wire.specs.Presses.{HasPressed, HasKeyRoom, IsPressFault, after_pressed};

use crate::host::Host;
use group_node::NodeFault;
use paxos_acceptor::Store;

impl<'a, S: Store> Host<'a, S> {
    /// Types a byte at the node. Returns true if there was room for its key. At false and at `Err`
    /// nothing has changed.
    fn press_one(&mut self, byte: u8) -> Result<bool, NodeFault>
        ensures typed { IfOk result (λ has_room. self.new.protocol.known
            ≡ (if has_room then after_pressed self.old.protocol.known (byte ∷ [])
            else self.old.protocol.known)) }
        ensures room { IfOk result (λ has_room.
            has_room ≡ true → HasKeyRoom self.old.protocol.known) }
        ensures full { IfOk result (λ has_room.
            has_room ≡ false → length self.old.protocol.known.waiting ≡ MOST_WAITING) }
        ensures err { IfErr result (λ _. self.new.protocol.known ≡ self.old.protocol.known) }
        ensures others { IfErr result IsPressFault }
        ensures stopped { RefusesIfStopped self.old.protocol result }
        ensures spent { IsErrOf result NodeFault.SerialSpent
            ↔ ((self.old.protocol.is_stopped ≡ false)
            × (length self.old.protocol.known.waiting < MOST_WAITING)
            × (next_serial self.old.protocol.known ≡ LAST_SERIAL + 1)) }
        ensures rest { (self.new.protocol.store ≡ self.old.protocol.store)
            × (self.new.protocol.is_stopped ≡ self.old.protocol.is_stopped)
            × (self.new.progress ≡ self.old.progress) }
    {
        // At most 256 keys wait.
        let _waiting = self.node.waiting();
        match self.node.typed(byte) {
            Ok(_) => Ok(true),
            Err(NodeFault::Busy) => Ok(false),
            Err(fault) => Err(fault),
        }
    }

    /// Types bytes from the front of `bytes`, as `press` says.
    fn press_all(&mut self, bytes: &mut &[u8]) -> Result<(), NodeFault>
        ensures pressed { HasPressed self.old self.new bytes.old.now bytes.new.now result }
        ensures stays { SameReleased self.old self.new }
    {
        while let Some((byte, others)) = bytes.split_first() {
            if !self.press_one(*byte)? {
                return Ok(());
            }
            *bytes = others;
        }
        Ok(())
    }

    /// Types bytes from the front of `bytes`, each once and in order, and leaves the others there.
    /// At `Ok` none is left, or 256 keys wait (`HasPressed`). Fails with `Stopped` if a save has
    /// failed and there is a byte; then nothing is typed. Else fails with `SerialSpent` if bytes
    /// are left, fewer than 256 keys wait, and the serial 4,294,967,295 was given.
    ///
    /// At `SerialSpent` the bytes before the refused byte are typed, and it is the first that is
    /// left.
    pub fn press(&mut self, bytes: &mut &[u8]) -> Result<(), NodeFault>
        ensures pressed { HasPressed self.old self.new bytes.old.now bytes.new.now result }
        ensures acts { ActsTyping self.old self.new bytes.old.now bytes.new.now }
        ensures stays { SameReleased self.old self.new }
    {
        self.press_all(bytes)
    }
}
