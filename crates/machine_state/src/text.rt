//! The text of a configuration.
ghost use Rattle.std.specs.Prelude.{◌≡◌, [], ◌∷◌, ◌++◌, flat_map, IfOk, OnOk, string_bytes, codes};
ghost use Rattle.machine_state.specs.Text.{end_line, ended_line, frame_line, line, state_with, spaced, state_lines, state_text, transfer_line};

use crate::halt::Halt;
use pcode_frames::{Frame, Frames, Memory, Stack};
use pcode_machine::{Direction, End, Machine, Transfer};
use std::alloc::{AllocError, Global};

/// Appends a space and a word.
#[tactic(auto, unfolding(crate::specs::Text::spaced))]
fn push_word(text: &mut String, word: u16) -> Result<(), AllocError>
    ensures { OnOk result (string_bytes text.new ≡ string_bytes text.old ++ spaced word) }
{
    write!(text, " {word}")
}

/// Appends a line of a word and a number.
#[tactic(auto, unfolding(crate::specs::Text::spaced, crate::specs::Text::line))]
fn push_line(text: &mut String, word: &str, number: u64) -> Result<(), AllocError>
    ensures { OnOk result (string_bytes text.new
        ≡ string_bytes text.old ++ line word.now (number ∷ [])) }
{
    writeln!(text, "{word} {number}")
}

/// Appends the line of how the program ended.
#[tactic(auto, unfolding(crate::specs::Text::ended_line))]
fn push_ended(text: &mut String, end: End) -> Result<(), AllocError>
    ensures { OnOk result (string_bytes text.new ≡ string_bytes text.old ++ ended_line end) }
{
    match end {
        End::Normal => text.push_str("ends normal\n"),
        End::Error {
            number,
            procedure,
            at,
        } => writeln!(text, "ends error {number} procedure {procedure} at {at}"),
    }
}

/// Appends the line of how the program ended, or that it waits.
fn push_end(text: &mut String, end: Option<End>) -> Result<(), AllocError>
    ensures { OnOk result (string_bytes text.new ≡ string_bytes text.old ++ end_line end) }
{
    match end {
        None => text.push_str("ends waits\n"),
        Some(end) => push_ended(text, end),
    }
}

/// Appends the line of the bytes that are still to be moved, if there are any.
#[tactic(auto, unfolding(crate::specs::Text::spaced, crate::specs::Text::transfer_line))]
fn push_transfer(text: &mut String, transfer: Option<Transfer>) -> Result<(), AllocError>
    ensures { OnOk result (string_bytes text.new
        ≡ string_bytes text.old ++ transfer_line transfer) }
{
    let Some(
        Transfer {
            direction,
            unit,
            address,
            left,
            at,
        },
    ) = transfer
    else {
        return Ok(());
    };
    match direction {
        Direction::Reading => writeln!(text, "pending reading {unit} {address} {left} {at}"),
        Direction::Writing => writeln!(text, "pending writing {unit} {address} {left} {at}"),
    }
}

/// Appends the line of a frame.
#[tactic(auto, unfolding(crate::specs::Text::spaced, crate::specs::Text::line, crate::specs::Text::frame_line))]
fn push_frame(text: &mut String, frame: Frame) -> Result<(), AllocError>
    ensures { OnOk result (string_bytes text.new ≡ string_bytes text.old ++ frame_line frame) }
{
    let Frame {
        procedure,
        base,
        size,
        link,
        back,
    } = frame;
    writeln!(text, "frame {procedure} {base} {size} {link} {back}")
}

/// Appends the lines of all frames, the main frame first.
fn push_frames(text: &mut String, frames: &Frames) -> Result<(), AllocError>
    ensures { OnOk result (string_bytes text.new
        ≡ string_bytes text.old ++ flat_map frame_line frames.now) }
{
    for index in 0..frames.count() {
        let Some(frame) = frames.frame(index as u16) else {
            unreachable!()
        };
        push_frame(text, frame)?;
    }
    Ok(())
}

/// Appends the lines of all frames of a list, the main frame first.
fn push_frame_list(text: &mut String, frames: &[Frame]) -> Result<(), AllocError>
    ensures { OnOk result (string_bytes text.new
        ≡ string_bytes text.old ++ flat_map frame_line frames.now) }
{
    for index in 0..frames.len() {
        push_frame(text, frames[index])?;
    }
    Ok(())
}

/// Appends the line of the stack: its words, the top first.
#[tactic(auto, unfolding(crate::specs::Text::line))]
fn push_stack(text: &mut String, stack: &Stack) -> Result<(), AllocError>
    ensures { OnOk result (string_bytes text.new
        ≡ string_bytes text.old ++ line (codes "stack") stack.now) }
{
    text.push_str("stack")?;
    for depth in 0..stack.len() {
        let Some(word) = stack.get(depth as u16) else {
            unreachable!()
        };
        push_word(text, word)?;
    }
    text.push_str("\n")
}

/// Appends the line of memory: its live words, from word 1 on.
#[tactic(auto, unfolding(crate::specs::Text::line))]
fn push_memory(text: &mut String, memory: &Memory) -> Result<(), AllocError>
    ensures { OnOk result (string_bytes text.new
        ≡ string_bytes text.old ++ line (codes "memory") memory.now) }
{
    text.push_str("memory")?;
    for index in 0..memory.top() {
        let Some(word) = memory.get(index + 1) else {
            unreachable!()
        };
        push_word(text, word)?;
    }
    text.push_str("\n")
}

/// Appends the lines of a machine's state.
fn push_state(text: &mut String, machine: &Machine<'_>) -> Result<(), AllocError>
    ensures { OnOk result (string_bytes text.new
        ≡ string_bytes text.old ++ state_lines machine.now.state) }
{
    push_line(text, "ioresult", u64::from(machine.io_result()))?;
    push_line(text, "next", u64::from(machine.next_offset()))?;
    push_transfer(text, machine.transfer())?;
    push_frames(text, machine.frames())?;
    push_stack(text, machine.stack())?;
    push_memory(text, machine.memory())
}

/// Appends the lines of a machine's state with these frames, this next offset and this transfer in
/// place of its own.
fn push_placed_state(
    text: &mut String,
    machine: &Machine<'_>,
    frames: &[Frame],
    next: u32,
    transfer: Option<Transfer>,
) -> Result<(), AllocError>
    ensures { OnOk result (string_bytes text.new
        ≡ string_bytes text.old
        ++ state_lines (state_with frames.now next transfer machine.now.state)) }
{
    push_line(text, "ioresult", u64::from(machine.io_result()))?;
    push_line(text, "next", u64::from(next))?;
    push_transfer(text, transfer)?;
    push_frame_list(text, frames)?;
    push_stack(text, machine.stack())?;
    push_memory(text, machine.memory())
}

/// Appends the lines before those of a state: how the program halted there.
fn push_halt(text: &mut String, halt: Halt) -> Result<(), AllocError>
    ensures { OnOk result (string_bytes text.new ≡ string_bytes text.old
        ++ (codes "state 1\n" ++ end_line halt.end ++ line (codes "read") (halt.read ∷ [])
        ++ line (codes "wrote") (halt.wrote ∷ []))) }
{
    text.push_str("state 1\n")?;
    push_end(text, halt.end)?;
    push_line(text, "read", halt.read)?;
    push_line(text, "wrote", halt.wrote)
}

/// Returns the text of a machine's state, and of how its program halted there. Fails if memory runs
/// out.
pub fn state_text(alloc: Global, machine: &Machine<'_>, halt: Halt) -> Result<String, AllocError>
    ensures { IfOk result (λ text. string_bytes text
        ≡ state_text halt.end halt.read halt.wrote machine.now.state) }
{
    let mut text = String::new(alloc);
    push_halt(&mut text, halt)?;
    push_state(&mut text, machine)?;
    Ok(text)
}

/// Returns the text of a machine's state with these frames, this next offset and this transfer in
/// place of its own, and of how its program halted there. Fails if memory runs out.
pub fn placed_state_text(
    alloc: Global,
    machine: &Machine<'_>,
    frames: &[Frame],
    next: u32,
    transfer: Option<Transfer>,
    halt: Halt,
) -> Result<String, AllocError>
    ensures { IfOk result (λ text. string_bytes text ≡ state_text halt.end halt.read halt.wrote
        (state_with frames.now next transfer machine.now.state)) }
{
    let mut text = String::new(alloc);
    push_halt(&mut text, halt)?;
    push_placed_state(&mut text, machine, frames, next, transfer)?;
    Ok(text)
}
