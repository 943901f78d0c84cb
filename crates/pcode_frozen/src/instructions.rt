//! Instructions that are the same in two programs. The other ones go on elsewhere than at the next
//! offset, and are compared by where they lead.
ghost use Rattle.std.specs.Prelude.{◌≡◌, IsTrue};
ghost use Rattle.pcode_frozen.specs.Twins.{IsPlain};

use pcode_ops::{Instr, StandardProcedure};

/// Returns true only if both are one instruction with an operand of a byte.
fn same_with_byte(one: Instr, two: Instr) -> bool
    ensures { IsTrue result → (two ≡ one) × IsPlain one }
{
    match (one, two) {
        (Instr::Sldc(n), Instr::Sldc(other)) => n == other,
        (Instr::Sldl(n), Instr::Sldl(other)) => n == other,
        (Instr::Sldo(n), Instr::Sldo(other)) => n == other,
        (Instr::Sind(n), Instr::Sind(other)) => n == other,
        (Instr::Ldm(n), Instr::Ldm(other)) => n == other,
        (Instr::Stm(n), Instr::Stm(other)) => n == other,
        _ => false,
    }
}

/// Returns true only if both are one instruction with an operand of a word.
fn same_with_word(one: Instr, two: Instr) -> bool
    ensures { IsTrue result → (two ≡ one) × IsPlain one }
{
    match (one, two) {
        (Instr::Ldci(n), Instr::Ldci(other)) => n == other,
        (Instr::Ldl(n), Instr::Ldl(other)) => n == other,
        (Instr::Stl(n), Instr::Stl(other)) => n == other,
        (Instr::Lla(n), Instr::Lla(other)) => n == other,
        (Instr::Ldo(n), Instr::Ldo(other)) => n == other,
        (Instr::Sro(n), Instr::Sro(other)) => n == other,
        (Instr::Lao(n), Instr::Lao(other)) => n == other,
        (Instr::Ind(n), Instr::Ind(other)) => n == other,
        (Instr::Inc(n), Instr::Inc(other)) => n == other,
        (Instr::Ixa(n), Instr::Ixa(other)) => n == other,
        (Instr::Mov(n), Instr::Mov(other)) => n == other,
        _ => false,
    }
}

/// Returns true only if both are one instruction with two operands.
fn same_with_two(one: Instr, two: Instr) -> bool
    ensures { IsTrue result → (two ≡ one) × IsPlain one }
{
    match (one, two) {
        (Instr::Lod(links, n), Instr::Lod(up, other)) => links == up && n == other,
        (Instr::Str(links, n), Instr::Str(up, other)) => links == up && n == other,
        (Instr::Lda(links, n), Instr::Lda(up, other)) => links == up && n == other,
        (Instr::Ixp(elements, width), Instr::Ixp(many, wide)) => {
            elements == many && width == wide
        }
        _ => false,
    }
}

/// Returns true only if both are one instruction on the words on top of the stack.
fn same_operation(one: Instr, two: Instr) -> bool
    ensures { IsTrue result → (two ≡ one) × IsPlain one }
{
    match (one, two) {
        (Instr::Adi, Instr::Adi) => true,
        (Instr::Sbi, Instr::Sbi) => true,
        (Instr::Mpi, Instr::Mpi) => true,
        (Instr::Dvi, Instr::Dvi) => true,
        (Instr::Modi, Instr::Modi) => true,
        (Instr::Abi, Instr::Abi) => true,
        (Instr::Ngi, Instr::Ngi) => true,
        (Instr::Sqi, Instr::Sqi) => true,
        (Instr::Chk, Instr::Chk) => true,
        (Instr::Land, Instr::Land) => true,
        (Instr::Lor, Instr::Lor) => true,
        (Instr::Lnot, Instr::Lnot) => true,
        _ => false,
    }
}

/// Returns true only if both are one comparison.
fn same_comparison(one: Instr, two: Instr) -> bool
    ensures { IsTrue result → (two ≡ one) × IsPlain one }
{
    match (one, two) {
        (Instr::Equi, Instr::Equi) => true,
        (Instr::Neqi, Instr::Neqi) => true,
        (Instr::Leqi, Instr::Leqi) => true,
        (Instr::Lesi, Instr::Lesi) => true,
        (Instr::Geqi, Instr::Geqi) => true,
        (Instr::Grti, Instr::Grti) => true,
        (Instr::Equ, Instr::Equ) => true,
        (Instr::Neq, Instr::Neq) => true,
        (Instr::Leq, Instr::Leq) => true,
        (Instr::Les, Instr::Les) => true,
        (Instr::Geq, Instr::Geq) => true,
        (Instr::Grt, Instr::Grt) => true,
        _ => false,
    }
}

/// Returns true only if both are one of the other instructions without an operand.
fn same_alone(one: Instr, two: Instr) -> bool
    ensures { IsTrue result → (two ≡ one) × IsPlain one }
{
    match (one, two) {
        (Instr::Ldcn, Instr::Ldcn) => true,
        (Instr::Sto, Instr::Sto) => true,
        (Instr::Ldb, Instr::Ldb) => true,
        (Instr::Stb, Instr::Stb) => true,
        (Instr::Ldp, Instr::Ldp) => true,
        (Instr::Stp, Instr::Stp) => true,
        (Instr::Nop, Instr::Nop) => true,
        _ => false,
    }
}

/// Returns true only if both are one standard procedure.
fn same_procedure(one: StandardProcedure, two: StandardProcedure) -> bool
    ensures { IsTrue result → two ≡ one }
{
    match (one, two) {
        (StandardProcedure::IoCheck, StandardProcedure::IoCheck) => true,
        (StandardProcedure::UnitRead, StandardProcedure::UnitRead) => true,
        (StandardProcedure::UnitWrite, StandardProcedure::UnitWrite) => true,
        (StandardProcedure::IoResult, StandardProcedure::IoResult) => true,
        (StandardProcedure::Halt, StandardProcedure::Halt) => true,
        _ => false,
    }
}

/// Returns true only if both are one call of a standard procedure.
fn same_standard(one: Instr, two: Instr) -> bool
    ensures { IsTrue result → (two ≡ one) × IsPlain one }
{
    match (one, two) {
        (Instr::Csp(called), Instr::Csp(other)) => same_procedure(called, other),
        _ => false,
    }
}

/// Returns true only if both are one instruction that goes on at the next offset and nowhere else.
pub(crate) fn same_plain(one: Instr, two: Instr) -> bool
    ensures { IsTrue result → (two ≡ one) × IsPlain one }
{
    same_with_byte(one, two)
        || same_with_word(one, two)
        || same_with_two(one, two)
        || same_operation(one, two)
        || same_comparison(one, two)
        || same_alone(one, two)
        || same_standard(one, two)
}
