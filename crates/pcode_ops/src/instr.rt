//! Instructions.
ghost use Rattle.std.specs.Prelude.{◌≡◌};

use std::fmt;

/// A standard procedure.
#[derive(Clone, Copy, Debug, PartialEq, Eq)]
pub enum StandardProcedure {
    /// Number 0, IOCHECK: an error if the last transfer had one.
    IoCheck,
    /// Number 5: bytes go from a unit to memory.
    UnitRead,
    /// Number 6: bytes go from memory to a unit.
    UnitWrite,
    /// Number 34: pushes the result of the last transfer.
    IoResult,
    /// Number 39: ends the program by an error.
    Halt,
}

impl StandardProcedure {
    ghost use Rattle.pcode_ops.specs.At.{standard_number};

    /// Returns the number of the standard procedure.
    pub fn number(self) -> u8
        ensures { result ≡ standard_number self }
    {
        match self {
            StandardProcedure::IoCheck => 0,
            StandardProcedure::UnitRead => 5,
            StandardProcedure::UnitWrite => 6,
            StandardProcedure::IoResult => 34,
            StandardProcedure::Halt => 39,
        }
    }
}

/// An instruction with its operands as they are in the code. Counts and places in a frame are in
/// words; a frame's words are counted from 1. A pointer is an address in bytes. A jump has its
/// operand SB, in bytes: from 0 on a distance after the instruction, below 0 a place of the jump
/// table.
#[derive(Clone, Copy, Debug, PartialEq, Eq)]
pub enum Instr {
    // Constants.
    /// Pushes a constant of 0 to 127, which is its opcode.
    Sldc(u8),
    /// Pushes NIL, which is 0.
    Ldcn,
    /// Pushes a word.
    Ldci(u16),

    // Words of the current frame, of the main frame, and of a frame some static links up.
    /// Pushes word 1 to 16 of the current frame.
    Sldl(u8),
    /// Pushes a word of the current frame.
    Ldl(u16),
    /// Pops a word into a word of the current frame.
    Stl(u16),
    /// Pushes a pointer to a word of the current frame.
    Lla(u16),
    /// Pushes word 1 to 16 of the main frame.
    Sldo(u8),
    /// Pushes a word of the main frame.
    Ldo(u16),
    /// Pops a word into a word of the main frame.
    Sro(u16),
    /// Pushes a pointer to a word of the main frame.
    Lao(u16),
    /// Pushes a word of a frame some static links up: the links, then the word.
    Lod(u8, u16),
    /// Pops a word into a word of a frame some static links up: the links, then the word.
    Str(u8, u16),
    /// Pushes a pointer to a word of a frame some static links up: the links, then the word.
    Lda(u8, u16),

    // Words and bytes at pointers.
    /// Pops a word and a pointer, and stores the word there.
    Sto,
    /// Pops a pointer and pushes the word 0 to 7 words after it.
    Sind(u8),
    /// Pops a pointer and pushes the word n words after it.
    Ind(u16),
    /// Moves the pointer on top of the stack on by n words.
    Inc(u16),
    /// Pops an index and moves the pointer below it on by that number of elements of n words each.
    Ixa(u16),
    /// Pops two pointers and copies n words from the upper one to the lower one.
    Mov(u16),
    /// Pops a pointer and pushes n words from there on, the first one last.
    Ldm(u8),
    /// Pops n words and a pointer, and stores the words from there on, the top one first.
    Stm(u8),
    /// Pops an index in bytes and a base, and pushes the byte there.
    Ldb,
    /// Pops a word, an index in bytes and a base, and stores the word's low byte there.
    Stb,
    /// Pops an index and a pointer, and pushes the packed pointer of that element: the number of
    /// elements of a word, then the width of each in bits. A packed pointer is a word's pointer, a
    /// width, and the lowest bit, which is on top.
    Ixp(u8, u8),
    /// Pops a packed pointer and pushes the bits there.
    Ldp,
    /// Pops a word and a packed pointer, and stores the word's low bits there.
    Stp,

    // Arithmetic and logic, on signed words unless noted.
    /// Adds two words.
    Adi,
    /// Subtracts the top word from the one below it.
    Sbi,
    /// Multiplies two words.
    Mpi,
    /// Divides by the top word, towards zero.
    Dvi,
    /// Pushes the remainder of dividing by the top word, with the sign of the dividend.
    Modi,
    /// Replaces a word by its absolute value.
    Abi,
    /// Negates a word.
    Ngi,
    /// Squares a word.
    Sqi,
    /// Pops an upper and a lower bound; it is an error if the word below them does not lie between
    /// them.
    Chk,
    /// Pushes the bits that two words both have.
    Land,
    /// Pushes the bits that at least one of two words has.
    Lor,
    /// Inverts the bits of a word.
    Lnot,

    // Comparisons of two signed words, which push 1 or 0.
    /// Tests if they are equal.
    Equi,
    /// Tests if they differ.
    Neqi,
    /// Tests if the lower one is at most the top one.
    Leqi,
    /// Tests if the lower one is less than the top one.
    Lesi,
    /// Tests if the lower one is at least the top one.
    Geqi,
    /// Tests if the lower one is greater than the top one.
    Grti,

    // Comparisons of Booleans, which are the low bits of two words (type byte 6).
    /// Tests if they are equal.
    Equ,
    /// Tests if they differ.
    Neq,
    /// Tests if the lower one is at most the top one.
    Leq,
    /// Tests if the lower one is less than the top one.
    Les,
    /// Tests if the lower one is at least the top one.
    Geq,
    /// Tests if the lower one is greater than the top one.
    Grt,

    // Jumps.
    /// Jumps.
    Ujp(i8),
    /// Pops a word and jumps if its low bit is 0.
    Fjp(i8),
    /// Pops two words and jumps if they differ.
    Efj(i8),
    /// Pops two words and jumps if they are equal.
    Nfj(i8),
    /// Pops an index and jumps to its entry of a table; if the index has none, to the UJP before
    /// the table.
    Xjp {
        /// The index of the first entry.
        low: i16,
        /// The index of the last entry.
        high: i16,
        /// The operand of the UJP.
        sb: i8,
        /// The offset at which the table begins, in bytes.
        table: usize,
    },

    // Calls, and what ends a procedure or the program.
    /// Calls a procedure of the lex level one more than the caller's, by its number.
    Clp(u8),
    /// Calls a procedure of lex level 1, by its number.
    Cgp(u8),
    /// Calls a procedure of a lex level from 1 to one more than the caller's, by its number.
    Cip(u8),
    /// Calls a standard procedure.
    Csp(StandardProcedure),
    /// Returns from a procedure and pushes n of its words, at most 2.
    Rnp(u8),
    /// Ends the program; the operand is ignored.
    Rbp(u8),
    /// Does nothing.
    Nop,
}

/// The number of the standard procedure, as in a listing.
impl fmt::Display for StandardProcedure {
    fn fmt<W: fmt::Write>(&self, f: &mut fmt::Formatter<W>) -> fmt::Result {
        let number = self.number();
        write!(f, "{number}")
    }
}

/// Writes the text of an instruction, by a table that has each instruction once: the match has no
/// default, so that none is left out.
macro_rules! write_text {
    ($instr:expr, $f:expr; $(
        $name:ident $(($($operand:ident),+))? $({ $($field:tt)+ })? => $text:literal
    ),+) => {
        match $instr {
            $(Instr::$name $(($($operand),+))? $({ $($field)+ })? => write!($f, $text),)+
        }
    };
}

/// The name and the operands, as in a listing. A jump's target is not in it.
impl fmt::Display for Instr {
    fn fmt<W: fmt::Write>(&self, f: &mut fmt::Formatter<W>) -> fmt::Result {
        write_text!(*self, f;
            Sldc(n) => "SLDC {n}", Ldcn => "LDCN", Ldci(n) => "LDCI {n}",

            Sldl(n) => "SLDL {n}", Ldl(n) => "LDL {n}", Stl(n) => "STL {n}", Lla(n) => "LLA {n}",
            Sldo(n) => "SLDO {n}", Ldo(n) => "LDO {n}", Sro(n) => "SRO {n}", Lao(n) => "LAO {n}",
            Lod(levels, n) => "LOD {levels} {n}", Str(levels, n) => "STR {levels} {n}",
            Lda(levels, n) => "LDA {levels} {n}",

            Sto => "STO", Sind(n) => "SIND {n}", Ind(n) => "IND {n}", Inc(n) => "INC {n}",
            Ixa(n) => "IXA {n}", Mov(n) => "MOV {n}", Ldm(n) => "LDM {n}", Stm(n) => "STM {n}",
            Ldb => "LDB", Stb => "STB", Ixp(elements, width) => "IXP {elements} {width}",
            Ldp => "LDP", Stp => "STP",

            Adi => "ADI", Sbi => "SBI", Mpi => "MPI", Dvi => "DVI", Modi => "MODI", Abi => "ABI",
            Ngi => "NGI", Sqi => "SQI", Chk => "CHK", Land => "LAND", Lor => "LOR", Lnot => "LNOT",

            Equi => "EQUI", Neqi => "NEQI", Leqi => "LEQI", Lesi => "LESI", Geqi => "GEQI",
            Grti => "GRTI", Equ => "EQU 6", Neq => "NEQ 6", Leq => "LEQ 6", Les => "LES 6",
            Geq => "GEQ 6", Grt => "GRT 6",

            Ujp(_sb) => "UJP", Fjp(_sb) => "FJP", Efj(_sb) => "EFJ", Nfj(_sb) => "NFJ",
            Xjp { low, high, .. } => "XJP {low} {high}",

            Clp(n) => "CLP {n}", Cgp(n) => "CGP {n}", Cip(n) => "CIP {n}",
            Csp(procedure) => "CSP {procedure}", Rnp(n) => "RNP {n}", Rbp(n) => "RBP {n}",
            Nop => "NOP"
        )
    }
}
