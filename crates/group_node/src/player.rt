//! The machine of a node, and its output.
ghost use Rattle.std.specs.Prelude.{◌≡◌, ◌↔◌, ◌+◌, ◌<◌, ◌≤◌, ◌++◌, ◌∷◌, ℕ, [], IfNone, IfOk, IsTrue, List, OnSome, length, min, option_map, slice_get};
ghost use Rattle.circular_buffer.specs.Buffer.{buffer};
ghost use Rattle.paxos_learner.specs.Input.{learned_input};
ghost use Rattle.pcode_machine.specs.Turns.{WaitsOn};
ghost use Rattle.group_node.specs.declared.limits.TheConstants.{RING_BYTES};
ghost use Rattle.group_node.specs.Output.{most_of, no_progress, RunsOn, unreleased_of};
ghost use Rattle.group_node.specs.Player.{HasByteRoom, HasPlayedLearned, IsPlayed, PlaysStep, PlaysOn, progress_of};

use crate::limits::RING_BYTES;
use circular_buffer::HeapCircularBuffer;
use paxos_learner::Learner;
use pcode_machine::laws::{
    output_only_grows, quiet_steps_lead_on, run_is_after, same_step_on_longer_input,
};
use pcode_machine::{End, Machine, MachineFault, Pause};
use pcode_ops::Program;
use std::alloc::{AllocError, Global};

/// Why a run is over.
#[derive(Clone, Copy, Debug, PartialEq, Eq)]
pub enum Ran {
    /// The steps are spent, or the count of steps is at its greatest value.
    More,
    /// The machine waits for a key.
    Waits,
    /// 256 bytes of output wait.
    Full,
    /// The program has ended.
    Ended(End),
}

impl Ran {
    /// Returns how the program has ended, if it has.
    pub fn end(self) -> Option<End>
        ensures { (e : End) → (result ≡ Some e) ↔ (self ≡ Ran.Ended e) }
    {
        match self {
            Ran::Ended(end) => Some(end),
            _ => None,
        }
    }
}

/// The machine of a node, and its output.
#[derive(Drop)]
pub(crate) struct Player<'a> {
    pub(crate) machine: Machine<'a>,
    /// The output that was not released, the oldest byte first.
    pub(crate) unreleased: HeapCircularBuffer<u8>,
    /// The number of steps that were made.
    pub(crate) steps: u64,
    /// The number of input bytes that were read.
    pub(crate) read: usize,
    /// The number of output bytes that were released.
    pub(crate) released: u64,
}

/// Returns how many of `steps` steps can still be counted after `made` steps.
fn counted(steps: u32, made: u64) -> u32
    ensures most { result ≤ steps }
    ensures counted { made + result ≡ most_of made steps }
{
    u64::from(steps).min(u64::MAX - made) as u32
}

impl<'a> Player<'a> {
    /// Makes a machine before its first step. All its room is allocated here.
    pub(crate) fn begin(alloc: Global, program: &'a Program) -> Result<Player<'a>, AllocError>
        ensures progress { IfOk result (λ q. progress_of q ≡ no_progress program.now) }
        ensures exact { (x : List ℕ) → IfOk result (λ q. IsPlayed x q) }
    {
        let machine = match Machine::new(alloc, program) {
            Ok(machine) => machine,
            Err(MachineFault::Memory) => return Err(AllocError),
        };
        Ok(Player {
            machine,
            unreleased: HeapCircularBuffer::with_capacity(alloc, RING_BYTES)?,
            steps: 0,
            read: 0,
            released: 0,
        })
    }

    /// Returns true if there is room for one more byte of output.
    fn has_room(&self) -> bool
        ensures { IsTrue result ↔ (length self.now.unreleased.items < RING_BYTES) }
    {
        self.unreleased.len() < RING_BYTES
    }

    /// Puts a byte after the output that waits, for which there is room.
    fn write(&mut self, byte: u8)
        requires { HasByteRoom self.old }
        ensures { self.new ≡ record self.old {
          unreleased = buffer
              (self.old.unreleased.items ++ byte ∷ []) self.old.unreleased.capacity;
        } }
    {
        match self.unreleased.try_push_back(byte) {
            Ok(()) => (),
            Err(_) => unreachable!(),
        }
    }

    /// Gives the machine the byte that it waits for.
    fn feed(&mut self, byte: u8)
        requires waits { WaitsOn self.old.machine.program self.old.machine.state }
        requires room { HasByteRoom self.old }
        requires steps { self.old.steps < 18446744073709551615 }
        requires read { self.old.read < 18446744073709551615 }
        ensures { (wrote : List ℕ) × PlaysStep self.old self.new (byte ∷ []) wrote }
    {
        self.read += 1;
        self.steps += 1;
        if let Some(echo) = self.machine.take(byte) {
            self.write(echo);
        }
    }

    /// Returns the byte of the learned input that the machine reads next, if there is one.
    fn next_byte(&self, learner: &Learner) -> Option<u8>
        ensures { result ≡ slice_get (learned_input learner.now.learned) self.now.read }
    {
        learner.input_at(self.read)
    }

    /// Makes at most `most` steps, until one takes a byte of the learned input or writes one, or
    /// the run is over. Returns how many it made, and why the run is over if it is.
    fn play_on(&mut self, learner: &Learner, most: u32) -> (u32, Option<Ran>)
        requires exact { HasPlayedLearned learner.now self.old }
        requires room { length self.old.unreleased.items < RING_BYTES }
        requires steps { self.old.steps + most ≤ 18446744073709551615 }
        ensures exact { HasPlayedLearned learner.now self.new }
        ensures plays { PlaysOn (learned_input learner.now.learned) most self.old self.new result }
        ensures most { result.0 ≤ most }
        ensures steps { self.new.steps ≡ self.old.steps + result.0 }
        ensures released { self.new.released ≡ self.old.released }
        ensures program { self.new.machine.program ≡ self.old.machine.program }
    {
        run_is_after();
        same_step_on_longer_input();
        quiet_steps_lead_on();
        let (made, pause) = self.machine.run(most);
        self.steps += u64::from(made);
        match pause {
            Pause::Spent => (made, Some(Ran::More)),
            Pause::Ended(end) => (made, Some(Ran::Ended(end))),
            Pause::Wrote(byte) => {
                self.write(byte);
                (made, None)
            }
            Pause::Wants => match self.next_byte(learner) {
                Some(byte) => {
                    self.feed(byte);
                    (made + 1, None)
                }
                None => (made, Some(Ran::Waits)),
            },
        }
    }

    /// Makes at most `steps` steps on the learned input. Before each step it checks whether the
    /// steps are spent, then whether 256 bytes wait, then the machine. It allocates nothing.
    pub(crate) fn run(&mut self, learner: &Learner, steps: u32) -> Ran
        requires { HasPlayedLearned learner.now self.old }
        ensures exact { HasPlayedLearned learner.now self.new }
        ensures runs { RunsOn (learned_input learner.now.learned) steps (progress_of self.old)
            (progress_of self.new) result }
    {
        run_is_after();
        output_only_grows();
        let mut left = counted(steps, self.steps);
        while left > 0 {
            if !self.has_room() {
                return Ran::Full;
            }
            let (made, ran) = self.play_on(learner, left);
            if let Some(ran) = ran {
                return ran;
            }
            left -= made;
        }
        Ran::More
    }

    /// Releases the first byte of the output that was not released. Returns its number, from 0 on,
    /// and the byte. It allocates nothing.
    pub(crate) fn release(&mut self) -> Option<(u64, u8)>
        requires { (x : List ℕ) × IsPlayed x self.old }
        ensures value { (x : List ℕ) → IsPlayed x self.old
            → result ≡ option_map (λ b. (self.old.released, b))
            (slice_get (unreleased_of x (progress_of self.old)) 0) }
        ensures exact { (x : List ℕ) → IsPlayed x self.old → IsPlayed x self.new }
        ensures some { OnSome result
            (progress_of self.new
            ≡ record (progress_of self.old) { released = self.old.released + 1 }) }
        ensures none { IfNone result (self.new ≡ self.old) }
    {
        run_is_after();
        // No more bytes are released than steps were made, so that their count fits.
        let _steps = self.steps;
        let byte = self.unreleased.pop_front()?;
        let number = self.released;
        self.released += 1;
        Some((number, byte))
    }

    /// Returns the number of output bytes that were not released.
    pub(crate) fn unreleased_len(&self) -> usize
        ensures { (x : List ℕ) → IsPlayed x self.now
            → (result ≡ length (unreleased_of x (progress_of self.now))) × (result ≤ RING_BYTES) }
    {
        run_is_after();
        self.unreleased.len()
    }
}
