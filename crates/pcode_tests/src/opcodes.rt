//! Code that no loadable program holds. The values are those of the table of instructions.
use pcode_ops::{Instr, OpFault, decode};

/// XJP at 0 from 1 to 2: its bounds are at 2 and 4, its UJP at 6, and the table at 8 and 10.
const CASE_JUMP: [u8; 12] = [
    0xac, 0x00, 0x01, 0x00, 0x02, 0x00, 0xb9, 0x04, 0x0d, 0x00, 0x0c, 0x00,
];

/// Code, how many of its bytes there are, and what it is decoded as.
type Row = ([u8; 12], usize, Result<(Instr, usize), OpFault>);

const ROWS: [Row; 12] = [
    // More than 127 static links, CLP 0, and RNP of more than two words.
    (
        [0xb6, 0xff, 0x80, 0x80, 0, 0, 0, 0, 0, 0, 0, 0],
        4,
        Ok((Instr::Lod(255, 128), 4)),
    ),
    (
        [0xb2, 0x80, 0x03, 0, 0, 0, 0, 0, 0, 0, 0, 0],
        3,
        Ok((Instr::Lda(128, 3), 3)),
    ),
    (
        [0xce, 0x00, 0, 0, 0, 0, 0, 0, 0, 0, 0, 0],
        2,
        Ok((Instr::Clp(0), 2)),
    ),
    (
        [0xad, 0xff, 0, 0, 0, 0, 0, 0, 0, 0, 0, 0],
        2,
        Ok((Instr::Rnp(255), 2)),
    ),
    // Jumps by odd places of the jump table.
    (
        [0xb9, 0xf7, 0, 0, 0, 0, 0, 0, 0, 0, 0, 0],
        2,
        Ok((Instr::Ujp(-9), 2)),
    ),
    (
        [0xa1, 0xff, 0, 0, 0, 0, 0, 0, 0, 0, 0, 0],
        2,
        Ok((Instr::Fjp(-1), 2)),
    ),
    // The case jump, and one for -32768 alone, whose table is one word.
    (
        CASE_JUMP,
        12,
        Ok((
            Instr::Xjp {
                low: 1,
                high: 2,
                sb: 4,
                table: 8,
            },
            12,
        )),
    ),
    (
        [0xac, 0, 0x00, 0x80, 0x00, 0x80, 0xb9, 0x04, 0x0d, 0, 0, 0],
        10,
        Ok((
            Instr::Xjp {
                low: -32768,
                high: -32768,
                sb: 4,
                table: 8,
            },
            10,
        )),
    ),
    // Bounds in the wrong order, whole and cut, and another instruction in the UJP's place. These
    // faults come before the table is read.
    (
        [0xac, 0, 2, 0, 1, 0, 0xb9, 0x04, 0x0d, 0, 0x0c, 0],
        12,
        Err(OpFault::CaseTable),
    ),
    (
        [0xac, 0, 2, 0, 1, 0, 0xb9, 0x04, 0, 0, 0, 0],
        8,
        Err(OpFault::CaseTable),
    ),
    (
        [0xac, 0, 2, 0, 1, 0, 0xb9, 0, 0, 0, 0, 0],
        7,
        Err(OpFault::Cut),
    ),
    (
        [0xac, 0, 1, 0, 2, 0, 0xa1, 0x04, 0x0d, 0, 0x0c, 0],
        12,
        Err(OpFault::CaseTable),
    ),
];

/// Shows pcode_ops::decode (found, only, exact, table): instructions with operands that no program
/// may have, and case jumps: whole, faulty, and cut at each byte.
#[test]
fn code_of_no_program(rt: HostRuntime) {
    for (code, length, wanted) in ROWS {
        let front = code.get(..length).unwrap_or(&[]);
        assert!(rt; decode(front, 0) == wanted, "{code:?}");
    }
    for length in 0..12 {
        let front = CASE_JUMP.get(..length).unwrap_or(&[]);
        assert!(rt; decode(front, 0) == Err(OpFault::Cut), "{length} bytes");
    }
}
