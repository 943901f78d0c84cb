//! Transfers between memory and a unit: the call that starts one, and each byte.
ghost use Rattle.std.specs.Prelude.{◌≡◌, ℕ, List, None, Some, IfErr, OnErr, OnOk};
ghost use Rattle.pcode_file.specs.Parts.{Parts};
ghost use Rattle.pcode_frames.specs.Frames.{current_of};
ghost use Rattle.pcode_machine.specs.declared.turn.Direction.TheVariants.{Writing};
ghost use Rattle.pcode_machine.specs.declared.errors.ExecutionError.TheVariants.{BadAddress};
ghost use Rattle.pcode_machine.specs.declared.turn.End.TheVariants.{Error};
ghost use Rattle.pcode_machine.specs.Errors.{error_number};
ghost use Rattle.pcode_frames.specs.Words.{live_byte_at, with_byte};
ghost use Rattle.pcode_machine.specs.Configuration.{configuration_of};
ghost use Rattle.pcode_machine.specs.Transfers.{begun_transfer, unit_call, is_console, HoldsNextByte, rest_of};
ghost use Rattle.pcode_machine.specs.Transition.{moved};
ghost use Rattle.pcode_machine.specs.Turns.{Passes, sent};
ghost use Rattle.pcode_machine.specs.Ready.{ChangesTo, state_of};

use crate::bytes::byte_address;
use crate::errors::ExecutionError;
use crate::parts::MachineParts;
use crate::turn::{Direction, End, Pause, Stop, Transfer};
use pcode_frames::Frame;

/// Returns true if a unit is the console: unit 1 (CONSOLE:) or unit 2 (SYSTERM:).
fn is_console(unit: u16) -> bool
    ensures { result ≡ is_console unit }
{
    unit == 1 || unit == 2
}

/// Returns the transfer that a call at an offset starts, if there is a byte to move. The length is
/// signed. The byte address is the base plus the signed index.
fn begun(
    direction: Direction,
    unit: u16,
    base: u16,
    index: u16,
    len: u16,
    at: u32,
) -> Option<Transfer>
    ensures { result ≡ begun_transfer direction unit base index len at }
{
    if !is_console(unit) {
        return None;
    }
    if len == 0 {
        return None;
    }
    if len >= 32768 {
        return None;
    }
    Some(Transfer {
        direction,
        unit,
        address: byte_address(base, index),
        left: len,
        at,
    })
}

/// Returns the end of a transfer whose next byte is not in a live word.
fn not_live(frame: Frame, transfer: Transfer) -> End
    ensures { result ≡ Error (error_number BadAddress) frame.procedure transfer.at }
{
    End::Error {
        number: ExecutionError::BadAddress.number(),
        procedure: frame.procedure,
        at: transfer.at,
    }
}

impl MachineParts {
    /// Calls UNITREAD or UNITWRITE: pops mode, block, length, index, base and unit, the last pushed
    /// first, and goes on at `next`. Mode and block are ignored.
    pub fn call(&mut self, direction: Direction, next: u32) -> Result<(), Stop>
        ensures { ChangesTo (unit_call direction next (state_of self.old) self.old.stack)
            self.old self.new result }
    {
        if self.stack.len() < 6 {
            return Err(Stop::Error(ExecutionError::StackUnderflow));
        }
        let _mode = self.stack.pop()?;
        let _block = self.stack.pop()?;
        let len = self.stack.pop()?;
        let index = self.stack.pop()?;
        let base = self.stack.pop()?;
        let unit = self.stack.pop()?;
        self.io_result = if is_console(unit) { 0 } else { 2 };
        self.transfer = begun(direction, unit, base, index, len, self.next);
        self.next = next;
        Ok(())
    }

    /// Keeps the rest of a transfer after one byte, whose address was live.
    #[tactic(auto, using(crate::proofs::Live::live_address))]
    fn pass_byte(&mut self, transfer: Transfer)
        requires { HoldsNextByte transfer self.old.memory }
        ensures { self.new ≡ record self.old { transfer = rest_of transfer } }
    {
        // A live address is far below the greatest of its type.
        let _top = self.memory.top();
        self.transfer = if transfer.left > 1 {
            Some(Transfer {
                address: transfer.address + 1,
                left: transfer.left - 1,
                ..transfer
            })
        } else {
            None
        };
    }

    /// Stores a byte of a transfer at its live address, and keeps the rest of the transfer.
    pub fn take_byte(&mut self, transfer: Transfer, byte: u8)
        requires { HoldsNextByte transfer self.old.memory }
        ensures { self.new ≡ record self.old {
          memory = with_byte self.old.memory transfer.address byte;
          transfer = rest_of transfer;
        } }
    {
        self.pass_byte(transfer);
        self.memory.put_byte(transfer.address, byte);
    }

    /// Writes the next byte of a transfer to a unit, and returns it. Fails with how the program
    /// ends if its address is not live.
    fn write_byte(&mut self, frame: Frame, transfer: Transfer) -> Result<u8, End>
        requires { self.old.transfer ≡ Some transfer }
        ensures value { (x : List ℕ) (read : ℕ) (output : List ℕ) →
            moved Writing x (configuration_of (state_of self.old) read output) frame transfer
            ≡ sent result (state_of self.new) read output }
        ensures err { OnErr result (self.new ≡ self.old) }
        ensures next { self.new.next ≡ self.old.next }
        ensures frames { self.new.frames ≡ self.old.frames }
    {
        match self.memory.get_byte(transfer.address) {
            None => Err(not_live(frame, transfer)),
            Some(byte) => {
                self.pass_byte(transfer);
                Ok(byte)
            }
        }
    }

    /// Checks the address of the next byte of a transfer from a unit. Fails with how the program
    /// ends if it is not live.
    fn find_place(&self, frame: Frame, transfer: Transfer) -> Result<(), End>
        ensures live { OnOk result (HoldsNextByte transfer self.now.memory) }
        ensures dead { IfErr result (λ e. (live_byte_at self.now.memory transfer.address ≡ None)
            × (e ≡ Error (error_number BadAddress) frame.procedure transfer.at)) }
    {
        match self.memory.get_byte(transfer.address) {
            None => Err(not_live(frame, transfer)),
            Some(_) => Ok(()),
        }
    }

    /// Goes on with a pending transfer: writes its next byte, or waits for it. The address is
    /// checked first.
    pub fn pass(&mut self, frame: Frame, transfer: Transfer) -> Pause
        requires current { current_of self.old.frames ≡ Some frame }
        requires pending { self.old.transfer ≡ Some transfer }
        ensures passes { (p : Parts) → Passes p (state_of self.old) (state_of self.new) result }
        ensures next { self.new.next ≡ self.old.next }
        ensures frames { self.new.frames ≡ self.old.frames }
    {
        match transfer.direction {
            Direction::Reading => match self.find_place(frame, transfer) {
                Ok(()) => Pause::Wants,
                Err(end) => Pause::Ended(end),
            },
            Direction::Writing => match self.write_byte(frame, transfer) {
                Ok(byte) => Pause::Wrote(byte),
                Err(end) => Pause::Ended(end),
            },
        }
    }
}
