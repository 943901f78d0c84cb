//! A run of a program on a whole input, to where it halts.
ghost use Rattle.std.specs.Prelude.{◌≡◌, IfSome, None};
ghost use Rattle.pcode_machine.specs.Configuration.{start};
ghost use Rattle.machine_state.specs.Halt.{HasHalted, IsSpent};

use pcode_machine::laws::{quiet_steps_lead_on, same_run_on_longer_input};
use pcode_machine::{End, Machine, Pause};

/// How a run on a whole input halted.
#[derive(Clone, Copy, Debug, PartialEq, Eq)]
pub struct Halt {
    /// How the program has ended; none if it waits for more input.
    pub end: Option<End>,
    /// How many bytes of the input it has read.
    pub read: u64,
    /// How many bytes it has written.
    pub wrote: u64,
}

/// Runs a machine from the start of its program on the whole `input`, for at most `steps` steps.
/// Returns how it halted: the program has ended, or it waits and all input is read. Returns `None`
/// exactly if all steps were made before.
///
/// Before each step it looks first whether the steps are spent. What the program writes is counted
/// and not kept.
pub fn run_to_halt(machine: &mut Machine<'_>, input: &[u8], steps: u32) -> Option<Halt>
    requires { machine.old.state ≡ start machine.old.program }
    ensures program { machine.new.program ≡ machine.old.program }
    ensures halted { IfSome result
        (λ h. HasHalted machine.old.program input.now steps machine.new.state h) }
    ensures spent { result ≡ None → IsSpent machine.old.program input.now steps }
{
    // These laws say that steps on an input are steps on each longer input, and that quiet steps go
    // on from where steps have led.
    same_run_on_longer_input();
    quiet_steps_lead_on();
    let mut left = steps;
    let mut read = 0usize;
    let mut wrote = 0u64;
    while left > 0 {
        let (made, pause) = machine.run(left);
        left -= made;
        match pause {
            Pause::Spent => return None,
            Pause::Wrote(_) => wrote += 1,
            Pause::Ended(end) => {
                return Some(Halt {
                    end: Some(end),
                    read: read as u64,
                    wrote,
                });
            }
            Pause::Wants => match input.get(read) {
                None => {
                    return Some(Halt {
                        end: None,
                        read: read as u64,
                        wrote,
                    });
                }
                Some(byte) => {
                    if machine.take(*byte).is_some() {
                        wrote += 1;
                    }
                    read += 1;
                    left -= 1;
                }
            },
        }
    }
    None
}
