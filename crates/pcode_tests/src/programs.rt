//! A code file, its superinstructions, and the turns of a machine on it.
use pcode_file::CodeFile;
use pcode_machine::{End, Machine, Turn};
use pcode_ops::{Operation, Program, Pushed, Sink, Source, Superinstruction};
use std::alloc::Global;
use std::test::Fail;
use test_programs::{PRINTS_A, code_file};

/// Returns the file of a segment.
fn file(alloc: Global, segment: &[u8]) -> Result<CodeFile, Fail> {
    let bytes = code_file(alloc, b"LETTER  ", segment)?;
    match CodeFile::read(alloc, bytes.as_slice()) {
        Ok(file) => Ok(file),
        Err(_) => Err(Fail::from("no file")),
    }
}

/// Returns the program of a segment.
fn program(alloc: Global, segment: &[u8]) -> Result<Program, Fail> {
    match Program::check(alloc, file(alloc, segment)?) {
        Ok(program) => Ok(program),
        Err(_) => Err(Fail::from("no program")),
    }
}

/// Shows CodeFile::read (found), CodeFile::name, CodeFile::segment (value), CodeFile::number,
/// CodeFile::count (value, some), CodeFile::procedure (value): the parts of a code file.
#[test]
fn looks_at_a_file(rt: HostRuntime) -> Result<(), Fail> {
    let file = file(rt.alloc(), &PRINTS_A)?;
    assert!(rt; file.name() == *b"LETTER  " && file.segment() == PRINTS_A.as_slice());
    assert!(rt; file.number() == 1 && file.count() == 1);
    assert!(rt; file.procedure(0).is_none() && file.procedure(2).is_none());
    Ok(())
}

/// SLDL 1, SLDC 5, ADI, STL 1; SLDL 1, SLDC 10, LESI, FJP to 12; UJP to 12; SLDL 1; SLDC 0, SLDC 9,
/// CHK, SRO 2; RBP. By hand.
const FUSES: [u8; 34] = [
    0xd8, 0x05, 0x82, 0xcc, 0x01, 0xd8, 0x0a, 0xc9, 0xa1, 0x02, 0xb9, 0x00, 0xd8, 0x00, 0x09, 0x88,
    0xab, 0x02, 0xc1, 0x00, 0x04, 0x00, 0x00, 0x00, 0x06, 0x00, 0x1a, 0x00, 0x01, 0x00, 0x02, 0x00,
    0x01, 0x01,
];

/// Offsets that are reached, and the superinstruction that begins there, if there is one: with a
/// store, with a branch, after a jump, and with bounds. RBP is fused with nothing.
const FUSED: [(u32, Option<Superinstruction>); 5] = [
    (
        0,
        Some(Superinstruction {
            steps: 4,
            operation: Some(Operation::Sum),
            pushed: Pushed::Two(Source::Own(1), Source::Constant(5)),
            sink: Sink::Own(1),
            next: 5,
        }),
    ),
    (
        5,
        Some(Superinstruction {
            steps: 4,
            operation: Some(Operation::Less),
            pushed: Pushed::Two(Source::Own(1), Source::Constant(10)),
            sink: Sink::Unless(12),
            next: 10,
        }),
    ),
    (
        10,
        Some(Superinstruction {
            steps: 3,
            operation: None,
            pushed: Pushed::Two(Source::Own(1), Source::Constant(0)),
            sink: Sink::Push,
            next: 14,
        }),
    ),
    (
        13,
        Some(Superinstruction {
            steps: 4,
            operation: None,
            pushed: Pushed::Bounds(0, 9),
            sink: Sink::Main(2),
            next: 18,
        }),
    ),
    (18, None),
];

/// Shows Program::check (ok), Program::is_start, Program::superinstruction: which instructions are
/// fused. An offset past the segment is not reached.
#[test]
fn fuses_instructions(rt: HostRuntime) -> Result<(), Fail> {
    let program = program(rt.alloc(), &FUSES)?;
    for (at, wanted) in FUSED {
        assert!(rt; program.is_start(at), "at {at}");
        assert!(rt; program.superinstruction(at).copied() == wanted, "at {at}");
    }
    assert!(rt; !program.is_start(34));
    Ok(())
}

/// Reads a byte from unit 1 to word 3, and another one from unit 2, and writes that to unit 1.
const READS_TWO: [u8; 44] = [
    0x01, 0xa5, 0x03, 0x00, 0x01, 0x00, 0x00, 0x9e, 0x05, 0x02, 0xa5, 0x03, 0x00, 0x01, 0x00, 0x00,
    0x9e, 0x05, 0x01, 0xa5, 0x03, 0x00, 0x01, 0x00, 0x00, 0x9e, 0x06, 0xc1, 0x00, 0x00, 0x02, 0x00,
    0x04, 0x00, 0x07, 0x00, 0x24, 0x00, 0x01, 0x00, 0x02, 0x00, 0x01, 0x01,
];

/// How often a byte is offered or none, and the turn of the machine. It takes a byte only where it
/// wants one, so none of the sevens.
const TURNS: [(u8, Option<u8>, Turn); 10] = [
    (7, Some(7), Turn::Went),
    (1, None, Turn::Waits),
    (1, Some(0x48), Turn::TookAndWrote(0x48)),
    (7, Some(7), Turn::Went),
    (1, None, Turn::Waits),
    (1, Some(0x49), Turn::Took),
    (7, Some(7), Turn::Went),
    (1, Some(7), Turn::Wrote(0x49)),
    (1, None, Turn::Ended(End::Normal)),
    (1, Some(7), Turn::Ended(End::Normal)),
];

/// Shows Machine::new (start), Machine::step: the turns of a program that reads and writes. A byte
/// that it does not want is not taken.
#[test]
fn steps_through_a_program(rt: HostRuntime) -> Result<(), Fail> {
    let program = program(rt.alloc(), &READS_TWO)?;
    let Ok(mut machine) = Machine::new(rt.alloc(), &program) else {
        return Err(Fail::from("no machine"));
    };
    for (times, offered, turn) in TURNS {
        for _ in 0..times {
            assert!(rt; machine.step(offered) == turn, "{turn:?}");
        }
    }
    Ok(())
}
