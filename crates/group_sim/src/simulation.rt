//! The performance of a script on a group.
ghost use Rattle.std.specs.Prelude.{◌≡◌, ◌↔◌, ◌+◌, ◌≤◌, is_some, length, IfErr, IfOk, IfSome};
ghost use Rattle.group_protocol.specs.Fault.{code_of};
ghost use Rattle.group_protocol.specs.States.{IsSize};
ghost use Rattle.group_world.specs.Event.{kept_event};
ghost use Rattle.group_sim.specs.Groups.{node_at};
ghost use Rattle.group_sim.specs.Moments.{DeliversOne, DeliversAll, HappensAt, InTurn, PerformsLines, PerformsTask, Plays, ReleasesAll, Says, Settles, Shows, event_text, group_of, halt_answer, is_meant, moment, refusal_text, unreleased_count};
ghost use Rattle.group_sim.specs.Texts.{held, PutsText};

use crate::limits::{DELIVERIES, SETTLE_STEPS};
use crate::showing::write_group;
use crate::text::{put, put_number};
use group_node::{NodeFault, To};
use group_world::{Act, Done, Event, Line, Outcome, Script, World, WorldFault};
use machine_run::{ByteWriter, RunIo, WriteFault};
use pcode_ops::Program;
use std::alloc::Global;

/// The line at which a script stopped, and why.
#[derive(Clone, Copy, Debug, PartialEq, Eq)]
pub struct Stopped {
    /// The number of the line, from 1.
    pub line: usize,
    /// Why the world refused an event of the line, or, at line 1, the group. `None` means that the
    /// line is a settle that has more than 10,000 deliveries to make.
    pub fault: Option<WorldFault>,
}

/// Why a script doesn't go on after a line.
#[derive(Clone, Copy, Debug, PartialEq, Eq)]
enum ScriptHalt {
    /// The line itself is the cause: the fault of what it asks for, or a settle that is too long.
    For(Option<WorldFault>),
    /// A write failed, or took nothing.
    Unwritten,
}

/// Returns the code of a node's refusal.
fn code(fault: NodeFault) -> &'static [u8]
    ensures { result.now ≡ code_of fault }
{
    fault.code().as_bytes()
}

/// Writes the line of a node's refusal.
fn write_refusal<W: ByteWriter>(
    writer: &mut W,
    line: usize,
    fault: NodeFault,
) -> Result<(), WriteFault>
    ensures { PutsText W.contents W.write_faults writer result (refusal_text line fault) }
{
    put_number(writer, b"line ", line as u64)?;
    put(writer, b" node ")?;
    put(writer, code(fault))?;
    put(writer, b"\n")
}

/// Writes the line of a node's refusal, if it refused the event.
fn tell<W: ByteWriter>(writer: &mut W, line: usize, done: Done) -> Result<(), WriteFault>
    ensures { PutsText W.contents W.write_faults writer result (event_text line done) }
{
    match done {
        Done::Refused(fault) => write_refusal(writer, line, fault),
        Done::Applied | Done::Fell => Ok(()),
    }
}

/// Returns true if a message to `to` is for the node.
fn is_meant_for(to: To, node: u8) -> bool
    ensures { result ≡ is_meant to node }
{
    match to {
        To::All => true,
        To::One(one) => one == node,
    }
}

/// A group on which a script is performed, and how far its settles have come.
#[derive(Drop)]
struct Simulation<'a> {
    world: World<'a>,
    size: u8,
    /// The number of messages that the settles so far have passed.
    passed: usize,
    /// The number of deliveries that the settle may still make.
    left: u32,
}

impl Simulation<'_> {
    /// Applies an event of the line. Writes a refusal of its node, after which the script goes on.
    fn happen<W: ByteWriter>(
        &mut self,
        writer: &mut W,
        line: usize,
        event: &Event,
    ) -> Result<(), ScriptHalt>
        ensures size { self.new.size ≡ self.old.size }
        ensures happens { PerformsTask W.contents W.write_faults
            (HappensAt line event.now) self writer result }
    {
        let done = match self.world.apply(event) {
            Ok(done) => done,
            Err(fault) => return Err(ScriptHalt::For(Some(fault))),
        };
        tell(writer, line, done).or(Err(ScriptHalt::Unwritten))
    }

    /// Performs an act of a settle, whose save does not fail.
    fn happen_kept<W: ByteWriter>(
        &mut self,
        writer: &mut W,
        line: usize,
        act: Act,
    ) -> Result<(), ScriptHalt>
        ensures size { self.new.size ≡ self.old.size }
        ensures happens { PerformsTask W.contents W.write_faults
            (HappensAt line (kept_event act)) self writer result }
    {
        let save = Outcome::Kept;
        self.happen(writer, line, &Event { act, save })
    }

    /// Returns true if there is such a node and it is up.
    fn is_up(&self, node: u8) -> bool
        ensures { result ≡ is_some (node_at self.now.world node) }
    {
        self.world.node(node).is_some()
    }

    /// Delivers a message to a node, if it is for that node and the node is up.
    fn deliver<W: ByteWriter>(
        &mut self,
        writer: &mut W,
        line: usize,
        message: usize,
        to: To,
        node: u8,
    ) -> Result<(), ScriptHalt>
        ensures size { self.new.size ≡ self.old.size }
        ensures delivers { PerformsTask W.contents W.write_faults
            (DeliversOne line message to node) self writer result }
    {
        if !is_meant_for(to, node) || !self.is_up(node) {
            return Ok(());
        }
        if self.left == 0 {
            return Err(ScriptHalt::For(None));
        }
        self.left -= 1;
        self.happen_kept(writer, line, Act::Deliver(message, node))
    }

    /// Delivers a message to those whom it is for and who are up, in ascending order.
    fn pass<W: ByteWriter>(
        &mut self,
        writer: &mut W,
        line: usize,
        message: usize,
        to: To,
    ) -> Result<(), ScriptHalt>
        ensures size { self.new.size ≡ self.old.size }
        ensures passes { PerformsTask W.contents W.write_faults
            (InTurn (DeliversOne line message to) 1 self.old.size) self writer result }
    {
        let size = self.size;
        for before in 0..size {
            self.deliver(writer, line, message, to, 1 + before)?;
        }
        Ok(())
    }

    /// Delivers the messages that no settle has passed, and those that they cause, in the order in
    /// which they were sent.
    fn deliver_all<W: ByteWriter>(&mut self, writer: &mut W, line: usize) -> Result<(), ScriptHalt>
        ensures size { self.new.size ≡ self.old.size }
        ensures delivers { PerformsTask W.contents W.write_faults
            (DeliversAll line self.old.size) self writer result }
    {
        // Each delivery may cause further messages.
        for message in self.passed..usize::MAX {
            let Some(packet) = self.world.message(message) else {
                self.passed = message;
                return Ok(());
            };
            let to = packet.to;
            self.pass(writer, line, message, to)?;
        }
        // A vector has no more items than this.
        let _sent = self.world.sent();
        self.passed = usize::MAX;
        Ok(())
    }

    /// Returns the number of output bytes that a node has not released, 0 if it is not up.
    fn unreleased(&self, node: u8) -> usize
        ensures { result ≡ unreleased_count self.now.world node }
    {
        match self.world.node(node) {
            None => 0,
            Some(running) => running.unreleased(),
        }
    }

    /// Releases all output that a node has not released.
    fn release_all<W: ByteWriter>(
        &mut self,
        writer: &mut W,
        line: usize,
        node: u8,
    ) -> Result<(), ScriptHalt>
        ensures size { self.new.size ≡ self.old.size }
        ensures releases { PerformsTask W.contents W.write_faults
            (ReleasesAll line node) self writer result }
    {
        let unreleased = self.unreleased(node);
        for _ in 0..unreleased {
            self.happen_kept(writer, line, Act::Release(node))?;
        }
        Ok(())
    }

    /// Runs a node, if it is up, and releases all output that it has not released.
    fn play<W: ByteWriter>(
        &mut self,
        writer: &mut W,
        line: usize,
        node: u8,
    ) -> Result<(), ScriptHalt>
        ensures size { self.new.size ≡ self.old.size }
        ensures plays { PerformsTask W.contents W.write_faults
            (Plays line node) self writer result }
    {
        if !self.is_up(node) {
            return Ok(());
        }
        self.happen_kept(writer, line, Act::Run(node, SETTLE_STEPS))?;
        self.release_all(writer, line, node)
    }

    /// Runs each node that is up and releases all its output, in ascending order.
    fn play_all<W: ByteWriter>(&mut self, writer: &mut W, line: usize) -> Result<(), ScriptHalt>
        ensures size { self.new.size ≡ self.old.size }
        ensures plays { PerformsTask W.contents W.write_faults
            (InTurn (Plays line) 1 self.old.size) self writer result }
    {
        let size = self.size;
        for before in 0..size {
            self.play(writer, line, 1 + before)?;
        }
        Ok(())
    }

    /// Delivers each message that no settle has passed, and each that these cause, in the order in
    /// which they were sent, to those of its addressees that are up. Then lets each node that is up
    /// run for at most 1,000 steps and release all its output, node 1 first. Halts with
    /// `ScriptHalt::For(None)` before the 10,001st delivery. What was done before a halt has
    /// happened.
    fn settle<W: ByteWriter>(&mut self, writer: &mut W, line: usize) -> Result<(), ScriptHalt>
        ensures size { self.new.size ≡ self.old.size }
        ensures settles { PerformsTask W.contents W.write_faults
            (Settles line self.old.size) self writer result }
    {
        self.left = DELIVERIES;
        self.deliver_all(writer, line)?;
        self.play_all(writer, line)
    }

    /// Writes the group.
    fn show<W: ByteWriter>(&self, writer: &mut W) -> Result<(), ScriptHalt>
        ensures { Shows self.now.size
            (moment self.now (held W.contents W.write_faults writer.old)) result
            (moment self.now (held W.contents W.write_faults writer.new)) }
    {
        write_group(writer, &self.world, self.size).or(Err(ScriptHalt::Unwritten))
    }

    /// Performs a line.
    fn perform<W: ByteWriter>(
        &mut self,
        writer: &mut W,
        number: usize,
        line: &Line,
    ) -> Result<(), ScriptHalt>
        ensures size { self.new.size ≡ self.old.size }
        ensures says { PerformsTask W.contents W.write_faults
            (Says self.old.size number line.now) self writer result }
    {
        match line {
            Line::Act(event) => self.happen(writer, number, event),
            Line::Settle => self.settle(writer, number),
            Line::Show => self.show(writer),
        }
    }
}

/// Returns the answer of a script that halts at a line.
fn halted_at(line: usize, halt: ScriptHalt) -> Result<Option<Stopped>, RunIo>
    ensures { result ≡ halt_answer line halt }
{
    match halt {
        ScriptHalt::For(fault) => Ok(Some(Stopped { line, fault })),
        ScriptHalt::Unwritten => Err(RunIo::Write),
    }
}

/// Performs `script` on a new group that runs `program`. At `Ok(None)` each line was done, in
/// order. Else a line halted for just the fault returned, after all before it. Line 1 halts with
/// `Size` exactly if the size is even or above 9, else only with `Memory`; then nothing is written.
/// `Write` means that a write failed.
///
/// It writes `line N node Dk` for an event that its node refuses, nothing for another event, and
/// the text of the group for a `show`. It fails exactly if a write fails, or takes nothing: then a
/// prefix of that text was written. A want of memory is a refusal of the world, so it never fails
/// with `Memory`. What the line that halts did before has happened.
///
/// A `settle` passes the messages that no earlier settle has passed, with those that it causes, in
/// the order in which they were sent. It delivers each to those whom it is for and who are up, in
/// ascending order, and halts if it has a 10,001st delivery to make. Then each node that is up, in
/// ascending order, runs at most 1,000 steps and releases all output that it has not released.
pub fn sim<W: ByteWriter>(
    alloc: Global,
    program: &Program,
    script: &Script,
    writer: &mut W,
) -> Result<Option<Stopped>, RunIo>
    ensures line { IfOk result
        (λ answer. IfSome answer
        (λ stopped. (1 ≤ stopped.line) × (stopped.line ≤ length script.now.lines.items + 1))) }
    ensures write { IfErr result (λ fault. fault ≡ RunIo.Write) }
    ensures performs { PerformsLines (group_of program.now script.now) script.now.lines.items
        (held W.contents W.write_faults writer.old) (held W.contents W.write_faults writer.new)
        result }
    ensures size { result
        ≡ Ok (Some (record { line = 1; fault = Some WorldFault.Size }))
        ↔ ¬ IsSize script.now.size }
{
    let size = script.size;
    let mut simulation = match World::new(alloc, program, size, script.session) {
        Ok(world) => Simulation {
            world,
            size,
            passed: 0,
            left: 0,
        },
        Err(fault) => return halted_at(1, ScriptHalt::For(Some(fault))),
    };
    let mut number = 1;
    for line in script.lines.iter() {
        number += 1;
        if let Err(halt) = simulation.perform(writer, number, line) {
            return halted_at(number, halt);
        }
    }
    Ok(None)
}
