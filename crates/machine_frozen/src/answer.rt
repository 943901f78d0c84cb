//! The text of the original's configuration.
ghost use Rattle.std.specs.Prelude.{◌≡◌, IfErr, IfOk};
ghost use Rattle.pcode_frozen.specs.Originals.{begun_at, original_of};
ghost use Rattle.pcode_frozen.specs.States.{AreTwins};
ghost use Rattle.pcode_frozen.specs.Twins.{listed, AreTwinPrograms};
ghost use Rattle.machine_run.specs.declared.refusal.MachineRefusal.TheVariants as machine;
ghost use Rattle.machine_run.specs.declared.run.RunIo.TheVariants as run;
ghost use Rattle.machine_state.specs.Command.{text_bytes};
ghost use Rattle.machine_frozen.specs.declared.refusal.FrozenRefusal.TheVariants as refusal;
ghost use Rattle.machine_frozen.specs.Text.{IsAnswer, IsFrozenFile, IsOriginalText, IsProgramOf};
ghost use Rattle.machine_frozen.specs.Refusals.{IsAnswerRefusal, IsBytesRefusal, IsFrozenLoad, IsFrozenRefusal, IsOriginalLoad, IsUncounted, IsUnlike, IsWakeRefusal};
ghost use Rattle.machine_frozen.specs.Wakes.{HasWoken, IsCountedFrom};

use crate::originals::{begun_by, frames_by, next_by};
use crate::refusal::FrozenRefusal;
use crate::trailer::{Trailer, trailer_of};
use crate::walk::pairs_from;
use machine_run::{MachineRefusal, RunIo, load};
use machine_state::{Halt, placed_state_text, run_to_halt};
use pcode_frames::Frame;
use pcode_frozen::{Pair, are_twin_states, are_twins};
use pcode_machine::laws::same_run_on_longer_input;
use pcode_machine::{Machine, Transfer};
use pcode_ops::Program;
use std::alloc::Global;

/// What was found of the original, and the pairs by which it was checked.
#[derive(Drop)]
struct Original {
    pairs: Vec<Pair>,
    frames: Vec<Frame>,
    /// Its next offset.
    next: u32,
    /// Where its transfer began.
    at: u32,
}

/// Returns the refusal for lack of memory.
fn no_memory() -> FrozenRefusal
    ensures { result ≡ refusal.Machine (machine.Run run.Memory) }
{
    FrozenRefusal::Machine(MachineRefusal::Run(RunIo::Memory))
}

/// Runs a frozen program on no input to where it waits. Returns false if the steps were spent
/// before. Fails with `Wakes` if it ends, or has read or written.
fn wake(alloc: Global, frozen: &Program, steps: u32) -> Result<bool, FrozenRefusal>
    ensures ok { IfOk result (HasWoken frozen.now steps) }
    ensures err { IfErr result (IsWakeRefusal frozen.now steps) }
{
    let Ok(mut machine) = Machine::new(alloc, frozen) else {
        return Err(no_memory());
    };
    let Some(halt) = run_to_halt(&mut machine, &[], steps) else {
        return Ok(false);
    };
    if halt.end.is_some() || halt.read != 0 || halt.wrote != 0 {
        return Err(FrozenRefusal::Wakes);
    }
    Ok(true)
}

/// Returns the original where a machine over the frozen program is. Fails with `State` if their
/// states are not alike, and with `Program` if the programs do not go on alike.
fn original_at(
    alloc: Global,
    original: &Program,
    frozen: &Program,
    rows: &[u8],
    machine: &Machine<'_>,
) -> Result<Original, FrozenRefusal>
    ensures closed { IfOk result
        (λ o. AreTwinPrograms original.now frozen.now (listed o.pairs.items)) }
    ensures twins { IfOk result (λ o. AreTwins frozen.now (listed o.pairs.items)
        (original_of o.frames.items o.next o.at machine.now.state) machine.now.state) }
    ensures unlike { IfErr result IsUnlike }
{
    let Ok(pairs) = pairs_from(alloc, frozen, rows, machine) else {
        return Err(no_memory());
    };
    let Ok(frames) = frames_by(alloc, rows, machine.frames()) else {
        return Err(no_memory());
    };
    let next = next_by(rows, machine);
    let at = begun_by(rows, machine);
    if !are_twin_states(
        frozen,
        pairs.as_slice(),
        machine,
        frames.as_slice(),
        next,
        at,
    ) {
        return Err(FrozenRefusal::State);
    }
    if !are_twins(original, frozen, pairs.as_slice()) {
        return Err(FrozenRefusal::Program);
    }
    Ok(Original {
        pairs,
        frames,
        next,
        at,
    })
}

/// Returns a transfer with another offset at which it began.
fn begun(transfer: Option<Transfer>, at: u32) -> Option<Transfer>
    ensures { result ≡ begun_at at transfer }
{
    match transfer {
        None => None,
        Some(transfer) => Some(Transfer { at, ..transfer }),
    }
}

/// Returns how a run halted that waits, counted from the start of the original on. Fails with
/// `Ends` if it has ended, and with `Counts` if the sums do not fit.
fn counted(halt: Halt, read: u64, wrote: u64) -> Result<Halt, FrozenRefusal>
    ensures ok { IfOk result (λ h. IsCountedFrom halt read wrote h) }
    ensures err { IfErr result (IsUncounted halt read wrote) }
{
    if halt.end.is_some() {
        return Err(FrozenRefusal::Ends);
    }
    let Some(read) = read.checked_add(halt.read) else {
        return Err(FrozenRefusal::Counts);
    };
    let Some(wrote) = wrote.checked_add(halt.wrote) else {
        return Err(FrozenRefusal::Counts);
    };
    Ok(Halt {
        end: None,
        read,
        wrote,
    })
}

/// Returns the text for a frozen program, its original and what its trailer says, as
/// `original_text` has it.
fn answer_of(
    alloc: Global,
    original: &Program,
    frozen: &Program,
    trailer: Trailer<'_>,
    input: &[u8],
    steps: u32,
) -> Result<Option<String>, FrozenRefusal>
    ensures ok { IfOk result (λ text. IsAnswer original.now frozen.now input.now steps
        trailer.entry.read trailer.entry.wrote (text_bytes text)) }
    ensures err { IfErr result (IsAnswerRefusal frozen.now input.now steps
        trailer.entry.read trailer.entry.wrote) }
{
    // The law says that steps on no input are steps on each input.
    same_run_on_longer_input();
    if !wake(alloc, frozen, steps)? {
        return Ok(None);
    }
    let Ok(mut machine) = Machine::new(alloc, frozen) else {
        return Err(no_memory());
    };
    let Some(halt) = run_to_halt(&mut machine, input, steps) else {
        return Ok(None);
    };
    let whole = counted(halt, trailer.read, trailer.wrote)?;
    let found = original_at(alloc, original, frozen, trailer.rows, &machine)?;
    let transfer = begun(machine.transfer(), found.at);
    let frames = found.frames.as_slice();
    match placed_state_text(alloc, &machine, frames, found.next, transfer, whole) {
        Ok(text) => Ok(Some(text)),
        Err(_) => Err(no_memory()),
    }
}

/// Returns the program of the original's bytes. Fails with `Original` if they are refused.
fn load_original(alloc: Global, bytes: &[u8]) -> Result<Program, FrozenRefusal>
    ensures ok { IfOk result (IsProgramOf bytes.now) }
    ensures err { IfErr result (IsOriginalLoad bytes.now) }
{
    match load(alloc, bytes) {
        Ok(program) => Ok(program),
        Err(refusal) => Err(FrozenRefusal::Original(refusal)),
    }
}

/// Returns the program of a frozen file's own bytes. Fails with `Machine` if they are refused.
fn load_frozen(alloc: Global, bytes: &[u8]) -> Result<Program, FrozenRefusal>
    ensures ok { IfOk result (IsProgramOf bytes.now) }
    ensures err { IfErr result (IsFrozenLoad bytes.now) }
{
    match load(alloc, bytes) {
        Ok(program) => Ok(program),
        Err(refusal) => Err(FrozenRefusal::Machine(refusal)),
    }
}

/// A frozen code file that was loaded.
#[derive(Drop)]
pub(crate) struct Opened<'a> {
    /// The program of the original.
    original: Program,
    /// The program of the file itself.
    frozen: Program,
    trailer: Trailer<'a>,
}

impl<'a> Opened<'a> {
    /// Loads the bytes of a frozen code file, as `original_text` does.
    pub(crate) fn load(alloc: Global, bytes: &'a [u8]) -> Result<Opened<'a>, FrozenRefusal>
        ensures ok { IfOk result (λ o. IsFrozenFile bytes.now o.original o.frozen
            o.trailer.read o.trailer.wrote) }
        ensures err { IfErr result (IsBytesRefusal bytes.now) }
    {
        let trailer = trailer_of(bytes)?;
        let original = load_original(alloc, trailer.original)?;
        let frozen = load_frozen(alloc, bytes)?;
        Ok(Opened {
            original,
            frozen,
            trailer,
        })
    }

    /// Returns the text of the original's configuration, as `original_text` does.
    pub(crate) fn text(
        &self,
        alloc: Global,
        input: &[u8],
        steps: u32,
    ) -> Result<Option<String>, FrozenRefusal>
        ensures ok { IfOk result (λ text. IsAnswer self.now.original self.now.frozen input.now
            steps self.now.trailer.read self.now.trailer.wrote (text_bytes text)) }
        ensures err { IfErr result (IsAnswerRefusal self.now.frozen input.now steps
            self.now.trailer.read self.now.trailer.wrote) }
    {
        answer_of(
            alloc,
            &self.original,
            &self.frozen,
            self.trailer,
            input,
            steps,
        )
    }
}

/// Returns the text of the configuration of the original where the program of a frozen code file
/// waits on the whole `input`. What it has read and written is counted from the original's start.
/// Returns `None` exactly if all `steps` steps were made before the program halts.
///
/// Fails with `NotFrozen` or `Damaged` if the file has no trailer or a wrong one, with `Original`
/// or `Machine` if its original or its own program is refused; with `Wakes` if the program does not
/// wait on no input with nothing written, with `Ends` if it ends on `input`, with `Counts` if a
/// number of bytes does not fit; and with `State` or `Program` if it is not seen that it goes on as
/// its original does. Fails with `Machine` too if memory runs out.
pub fn original_text(
    alloc: Global,
    bytes: &[u8],
    input: &[u8],
    steps: u32,
) -> Result<Option<String>, FrozenRefusal>
    ensures ok { IfOk result
        (λ text. IsOriginalText bytes.now input.now steps (text_bytes text)) }
    ensures err { IfErr result (IsFrozenRefusal bytes.now input.now steps) }
{
    let opened = Opened::load(alloc, bytes)?;
    let text = opened.text(alloc, input, steps)?;
    Ok(text)
}
