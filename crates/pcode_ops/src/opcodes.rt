//! The table of instructions: for each opcode its row, which says what operands follow and which
//! instruction they make.
ghost use Rattle.std.specs.Prelude.{◌≡◌};
ghost use Rattle.pcode_ops.specs.Opcodes.{row_of, constant_rows, frame_rows, link_rows, pointer_rows, arithmetic_rows, comparison_rows, flow_rows, opcodes, opcode_refusal};
ghost use Rattle.pcode_ops.specs.Decoding.{made_by};

use crate::fault::OpFault;
use crate::instr::Instr;

/// What follows an opcode, as each row reads it. What the code does not have is 0 here, and a fault
/// once the row needs it.
#[derive(Clone, Copy, Debug, PartialEq, Eq)]
pub(crate) struct Operands {
    /// UB, DB or SB.
    pub byte: u8,
    /// B.
    pub big: u16,
    /// W.
    pub word: u16,
    /// B after a DB.
    pub offset: u16,
}

impl Operands {
    ghost use Rattle.std.specs.Int.{w8, cast_signed};

    /// Returns the byte as SB.
    #[inline(always)]
    fn signed(self) -> i8
        ensures { result ≡ cast_signed w8 self.byte }
    {
        self.byte.cast_signed()
    }
}

/// The form of an opcode, with the instruction that its operands make.
#[derive(Clone, Copy, Debug, PartialEq, Eq)]
pub(crate) enum Row {
    /// The opcode alone.
    Alone(Instr),
    /// UB, DB or SB.
    Byte(Instr),
    /// B.
    Big(Instr),
    /// W.
    Word(Instr),
    /// DB,B.
    Levels(Instr),
    /// A type byte, which has to be 6.
    Typed(Instr),
    /// UB,UB: the elements of a word and their width, which have to fit.
    Packed,
    /// UB: the number of a standard procedure.
    Standard,
    /// W1, W2, a UJP and a table.
    CaseJump,
}

/// Returns the row of a constant.
fn constant(opcode: u8, o: Operands) -> Option<Row>
    ensures { result ≡ made_by o opcode (row_of opcode constant_rows) }
{
    match opcode {
        0..=127 => Some(Row::Alone(Instr::Sldc(opcode))),
        159 => Some(Row::Alone(Instr::Ldcn)),
        199 => Some(Row::Word(Instr::Ldci(o.word))),
        _ => None,
    }
}

/// Returns the row of a word of the current frame or of the main frame.
fn frame(opcode: u8, o: Operands) -> Option<Row>
    ensures { result ≡ made_by o opcode (row_of opcode frame_rows) }
{
    match opcode {
        216..=231 => Some(Row::Alone(Instr::Sldl(opcode - 216 + 1))),
        202 => Some(Row::Big(Instr::Ldl(o.big))),
        204 => Some(Row::Big(Instr::Stl(o.big))),
        198 => Some(Row::Big(Instr::Lla(o.big))),
        232..=247 => Some(Row::Alone(Instr::Sldo(opcode - 232 + 1))),
        169 => Some(Row::Big(Instr::Ldo(o.big))),
        171 => Some(Row::Big(Instr::Sro(o.big))),
        165 => Some(Row::Big(Instr::Lao(o.big))),
        _ => None,
    }
}

/// Returns the row of a word of a frame some static links up.
fn link(opcode: u8, o: Operands) -> Option<Row>
    ensures { result ≡ made_by o opcode (row_of opcode link_rows) }
{
    match opcode {
        182 => Some(Row::Levels(Instr::Lod(o.byte, o.offset))),
        184 => Some(Row::Levels(Instr::Str(o.byte, o.offset))),
        178 => Some(Row::Levels(Instr::Lda(o.byte, o.offset))),
        _ => None,
    }
}

/// Returns the row of words, bytes and packed elements at pointers.
fn pointer(opcode: u8, o: Operands) -> Option<Row>
    ensures { result ≡ made_by o opcode (row_of opcode pointer_rows) }
{
    match opcode {
        154 => Some(Row::Alone(Instr::Sto)),
        248..=255 => Some(Row::Alone(Instr::Sind(opcode - 248))),
        163 => Some(Row::Big(Instr::Ind(o.big))),
        162 => Some(Row::Big(Instr::Inc(o.big))),
        164 => Some(Row::Big(Instr::Ixa(o.big))),
        168 => Some(Row::Big(Instr::Mov(o.big))),
        188 => Some(Row::Byte(Instr::Ldm(o.byte))),
        189 => Some(Row::Byte(Instr::Stm(o.byte))),
        190 => Some(Row::Alone(Instr::Ldb)),
        191 => Some(Row::Alone(Instr::Stb)),
        192 => Some(Row::Packed),
        186 => Some(Row::Alone(Instr::Ldp)),
        187 => Some(Row::Alone(Instr::Stp)),
        _ => None,
    }
}

/// Returns the row of arithmetic or logic.
fn arithmetic(opcode: u8, o: Operands) -> Option<Row>
    ensures { result ≡ made_by o opcode (row_of opcode arithmetic_rows) }
{
    match opcode {
        130 => Some(Row::Alone(Instr::Adi)),
        149 => Some(Row::Alone(Instr::Sbi)),
        143 => Some(Row::Alone(Instr::Mpi)),
        134 => Some(Row::Alone(Instr::Dvi)),
        142 => Some(Row::Alone(Instr::Modi)),
        128 => Some(Row::Alone(Instr::Abi)),
        145 => Some(Row::Alone(Instr::Ngi)),
        152 => Some(Row::Alone(Instr::Sqi)),
        136 => Some(Row::Alone(Instr::Chk)),
        132 => Some(Row::Alone(Instr::Land)),
        141 => Some(Row::Alone(Instr::Lor)),
        147 => Some(Row::Alone(Instr::Lnot)),
        _ => None,
    }
}

/// Returns the row of a comparison of integers, or of Booleans, which has a type byte.
fn comparison(opcode: u8, o: Operands) -> Option<Row>
    ensures { result ≡ made_by o opcode (row_of opcode comparison_rows) }
{
    match opcode {
        195 => Some(Row::Alone(Instr::Equi)),
        203 => Some(Row::Alone(Instr::Neqi)),
        200 => Some(Row::Alone(Instr::Leqi)),
        201 => Some(Row::Alone(Instr::Lesi)),
        196 => Some(Row::Alone(Instr::Geqi)),
        197 => Some(Row::Alone(Instr::Grti)),
        175 => Some(Row::Typed(Instr::Equ)),
        183 => Some(Row::Typed(Instr::Neq)),
        180 => Some(Row::Typed(Instr::Leq)),
        181 => Some(Row::Typed(Instr::Les)),
        176 => Some(Row::Typed(Instr::Geq)),
        177 => Some(Row::Typed(Instr::Grt)),
        _ => None,
    }
}

/// Returns the row of a jump, a call, a return or NOP.
fn flow(opcode: u8, o: Operands) -> Option<Row>
    ensures { result ≡ made_by o opcode (row_of opcode flow_rows) }
{
    match opcode {
        185 => Some(Row::Byte(Instr::Ujp(o.signed()))),
        161 => Some(Row::Byte(Instr::Fjp(o.signed()))),
        211 => Some(Row::Byte(Instr::Efj(o.signed()))),
        212 => Some(Row::Byte(Instr::Nfj(o.signed()))),
        172 => Some(Row::CaseJump),
        206 => Some(Row::Byte(Instr::Clp(o.byte))),
        207 => Some(Row::Byte(Instr::Cgp(o.byte))),
        174 => Some(Row::Byte(Instr::Cip(o.byte))),
        158 => Some(Row::Standard),
        173 => Some(Row::Byte(Instr::Rnp(o.byte))),
        193 => Some(Row::Byte(Instr::Rbp(o.byte))),
        215 => Some(Row::Alone(Instr::Nop)),
        _ => None,
    }
}

/// Returns the row of an opcode, with its operands.
pub(crate) fn make_row(opcode: u8, o: Operands) -> Option<Row>
    ensures { result ≡ made_by o opcode (row_of opcode opcodes) }
{
    constant(opcode, o)
        .or(frame(opcode, o))
        .or(link(opcode, o))
        .or(pointer(opcode, o))
        .or(arithmetic(opcode, o))
        .or(comparison(opcode, o))
        .or(flow(opcode, o))
}

/// Returns why an opcode without a row is refused.
pub(crate) fn refusal(opcode: u8) -> OpFault
    ensures { result ≡ opcode_refusal opcode }
{
    match opcode {
        129 | 131 | 135 | 137 | 138 | 144 | 146 | 150 | 153 => OpFault::Real,
        133 | 139 | 140 | 148 | 151 | 156 | 160 => OpFault::Set,
        155 | 166 | 170 => OpFault::Str,
        157 | 167 | 205 | 209 => OpFault::Segment,
        _ => OpFault::Unsupported(opcode),
    }
}
