//! The check that two programs do the same at pairs of places.
ghost use Rattle.std.specs.Int.{cast_signed, w16};
ghost use Rattle.std.specs.Prelude.{◌≡◌, ◌+◌, ◌<◌, ℕ, ℤ, ◌+ℤ◌, pos, IsTrue, IfSome, IsSome, Some, Ok};
ghost use Rattle.pcode_file.specs.declared.file.Proc.{Proc};
ghost use Rattle.pcode_file.specs.Parts.{procedure_of};
ghost use Rattle.pcode_ops.specs.declared.instr.Instr.TheVariants.{Xjp};
ghost use Rattle.pcode_ops.specs.At.{cases};
ghost use Rattle.pcode_ops.specs.Jumps.{case_of, IsCaseTable, jump_in};
ghost use Rattle.pcode_ops.specs.Loading.{JumpsBy, is_in, owner};
ghost use Rattle.pcode_ops.specs.Reach.{Reach};
ghost use Rattle.pcode_frozen.specs.Twins.{listed, AreCallees, AreLevel, AreTargets, AreTwinPrograms, GoesOn, SameInstruction, SamePlace};

use crate::instructions::same_plain;
use crate::pairs::{Pair, is_listed};
use pcode_file::Proc;
use pcode_ops::laws::{case_is_led_to, jump_is_led_to, parts_are_apart};
use pcode_ops::{Instr, Program};

/// Returns true only if the offset lies in the part.
fn is_within(part: Proc, at: u32) -> bool
    ensures { IsTrue result → IsTrue (is_in part at) }
{
    if at < part.low {
        return false;
    }
    at < part.jtab.saturating_sub(8)
}

/// Returns the procedure of that number if the offset is reached and lies in its part.
fn stands_in(program: &Program, procedure: u8, at: u32) -> Option<Proc>
    ensures { IfSome result (λ q. Reach program.now at
        × (procedure_of program.now.procs procedure ≡ Some q)
        × (owner program.now.procs at ≡ Ok q)) }
{
    parts_are_apart();
    if !program.is_start(at) {
        return None;
    }
    match program.file().procedure(procedure) {
        None => None,
        Some(part) => {
            if is_within(part, at) {
                return Some(part);
            }
            None
        }
    }
}

/// Returns true only if both programs go on alike from these places: they are listed, or a UJP of
/// the other program leads to one that is.
pub(crate) fn goes_on(other_program: &Program, pairs: &[Pair], to: Pair) -> bool
    ensures { IsTrue result → GoesOn other_program.now (listed pairs.now) to.procedure to.offset
        to.other to.other_offset }
{
    jump_is_led_to();
    if is_listed(pairs, to) {
        return true;
    }
    match stands_in(other_program, to.other, to.other_offset) {
        None => false,
        Some(_part) => match other_program.instruction(to.other_offset) {
            (Instr::Ujp(sb), next) => {
                let other_offset = other_program.jump(to.other, sb, next);
                is_listed(pairs, Pair { other_offset, ..to })
            }
            _ => false,
        },
    }
}

/// Returns true only if both procedures can be called alike.
fn same_callees(
    program: &Program,
    other_program: &Program,
    pairs: &[Pair],
    callee: u8,
    other: u8,
) -> bool
    ensures { IsTrue result
        → AreCallees program.now other_program.now (listed pairs.now) callee other }
{
    let _file = program.file();
    let _other_file = other_program.file();
    match program.file().procedure(callee) {
        None => false,
        Some(one) => match other_program.file().procedure(other) {
            None => false,
            Some(two) => {
                if one.params != two.params {
                    return false;
                }
                if one.vars != two.vars {
                    return false;
                }
                if one.level != two.level {
                    return false;
                }
                goes_on(
                    other_program,
                    pairs,
                    Pair {
                        procedure: callee,
                        offset: one.enter,
                        other,
                        other_offset: two.enter,
                    },
                )
            }
        },
    }
}

/// Returns true only if the jumps by `sb` and `by`, which end at the places `after`, lead to where
/// both programs go on alike.
fn same_targets(
    program: &Program,
    other_program: &Program,
    pairs: &[Pair],
    sb: i8,
    by: i8,
    after: Pair,
) -> bool
    requires leads { IsSome (jump_in program.now after.procedure sb after.offset) }
    requires other_leads { IsSome (jump_in other_program.now after.other by after.other_offset) }
    ensures { IsTrue result → AreTargets program.now other_program.now (listed pairs.now)
        after.procedure after.other sb after.offset by after.other_offset }
{
    let offset = program.jump(after.procedure, sb, after.offset);
    let other_offset = other_program.jump(after.other, by, after.other_offset);
    goes_on(
        other_program,
        pairs,
        Pair {
            offset,
            other_offset,
            ..after
        },
    )
}

/// Returns true only if the procedures have one lex level.
fn same_level(program: &Program, other_program: &Program, procedure: u8, other: u8) -> bool
    ensures { IsTrue result → AreLevel program.now other_program.now procedure other }
{
    let _file = program.file();
    let _other_file = other_program.file();
    match program.file().procedure(procedure) {
        None => false,
        Some(one) => match other_program.file().procedure(other) {
            None => false,
            Some(two) => {
                if one.level != two.level {
                    return false;
                }
                true
            }
        },
    }
}

/// Returns the number of entries of a case table from `low` to `high`.
fn cases(low: i16, high: i16) -> u32
    ensures { result ≡ cases low high }
{
    if high < low {
        return 0;
    }
    (i32::from(high) - i32::from(low) + 1).unsigned_abs()
}

/// Returns the word that leads to entry `k` of a case table from `low` to `high`.
fn word_of_entry(low: i16, high: i16, k: u32) -> u16
    requires { k < cases low high }
    ensures { cast_signed w16 result ≡ low +ℤ pos k }
{
    let index = i32::from(low) + k as i32;
    (index as i16).cast_unsigned()
}

/// Returns true only if the case jumps from `low` to `high` with tables at `table` and
/// `other_table`, in the procedures of `after`, lead on each word to where both programs go on
/// alike.
fn same_cases(
    program: &Program,
    other_program: &Program,
    pairs: &[Pair],
    low: i16,
    high: i16,
    table: usize,
    other_table: usize,
    after: Pair,
) -> bool
    requires table { (q : Proc) × IsCaseTable program.now.segment q low high table }
    requires other_table { (q : Proc)
        × IsCaseTable other_program.now.segment q low high other_table }
    ensures { IsTrue result → (word : ℕ) → GoesOn other_program.now (listed pairs.now)
        after.procedure (case_of program.now.segment low high table word)
        after.other (case_of other_program.now.segment low high other_table word) }
{
    let _segment = program.file().segment();
    let _other_segment = other_program.file().segment();
    for k in 0..cases(low, high) {
        let word = word_of_entry(low, high, k);
        let offset = program.case(low, high, table, word);
        let other_offset = other_program.case(low, high, other_table, word);
        if !goes_on(
            other_program,
            pairs,
            Pair {
                offset,
                other_offset,
                ..after
            },
        ) {
            return false;
        }
    }
    let offset = table as u32 - 2;
    let other_offset = other_table as u32 - 2;
    goes_on(
        other_program,
        pairs,
        Pair {
            offset,
            other_offset,
            ..after
        },
    )
}

/// Returns true only if the instructions, which end at the places `after`, are the same but for
/// where they lead, and both programs go on alike.
fn same_instruction(
    program: &Program,
    other_program: &Program,
    pairs: &[Pair],
    one: Instr,
    two: Instr,
    after: Pair,
) -> bool
    requires leads { (sb : ℤ) → JumpsBy one sb
        → IsSome (jump_in program.now after.procedure sb after.offset) }
    requires other_leads { (sb : ℤ) → JumpsBy two sb
        → IsSome (jump_in other_program.now after.other sb after.other_offset) }
    requires table { (low high sb : ℤ) (table : ℕ) → one ≡ Xjp low high sb table
        → (q : Proc) × IsCaseTable program.now.segment q low high table }
    requires other_table { (low high sb : ℤ) (table : ℕ) → two ≡ Xjp low high sb table
        → (q : Proc) × IsCaseTable other_program.now.segment q low high table }
    ensures { IsTrue result → SameInstruction program.now other_program.now (listed pairs.now)
        after.procedure after.other one after.offset two after.other_offset }
{
    let on = goes_on(other_program, pairs, after);
    match (one, two) {
        (Instr::Ujp(sb), Instr::Ujp(by)) => {
            same_targets(program, other_program, pairs, sb, by, after)
        }
        (Instr::Fjp(sb), Instr::Fjp(by)) => {
            if !on {
                return false;
            }
            same_targets(program, other_program, pairs, sb, by, after)
        }
        (Instr::Clp(callee), Instr::Clp(other)) => {
            if !on {
                return false;
            }
            same_callees(program, other_program, pairs, callee, other)
        }
        (Instr::Efj(sb), Instr::Efj(by)) => {
            if !on {
                return false;
            }
            same_targets(program, other_program, pairs, sb, by, after)
        }
        (Instr::Nfj(sb), Instr::Nfj(by)) => {
            if !on {
                return false;
            }
            same_targets(program, other_program, pairs, sb, by, after)
        }
        (Instr::Cgp(callee), Instr::Cgp(other)) => {
            if !on {
                return false;
            }
            same_callees(program, other_program, pairs, callee, other)
        }
        (Instr::Cip(callee), Instr::Cip(other)) => {
            if !on {
                return false;
            }
            if !same_level(program, other_program, after.procedure, after.other) {
                return false;
            }
            same_callees(program, other_program, pairs, callee, other)
        }
        (
            Instr::Xjp {
                low,
                high,
                table,
                ..
            },
            Instr::Xjp {
                low: other_low,
                high: other_high,
                table: other_table,
                ..
            },
        ) => {
            if low != other_low {
                return false;
            }
            if high != other_high {
                return false;
            }
            same_cases(
                program,
                other_program,
                pairs,
                low,
                high,
                table,
                other_table,
                after,
            )
        }
        (Instr::Rbp(_), Instr::Rbp(_)) => true,
        (Instr::Rnp(words), Instr::Rnp(other_words)) => {
            if words != other_words {
                return false;
            }
            2 <= after.procedure
        }
        _ => {
            if !on {
                return false;
            }
            same_plain(one, two)
        }
    }
}

/// Returns true only if there is the same at both places of a pair.
fn same_place(program: &Program, other_program: &Program, pairs: &[Pair], pair: Pair) -> bool
    ensures { IsTrue result → SamePlace program.now other_program.now (listed pairs.now)
        pair.procedure pair.offset pair.other pair.other_offset }
{
    jump_is_led_to();
    case_is_led_to();
    match stands_in(program, pair.procedure, pair.offset) {
        None => false,
        Some(_part) => match stands_in(other_program, pair.other, pair.other_offset) {
            None => false,
            Some(_other_part) => {
                let here = program.instruction(pair.offset);
                let there = other_program.instruction(pair.other_offset);
                let after = Pair {
                    offset: here.1,
                    other_offset: there.1,
                    ..pair
                };
                same_instruction(program, other_program, pairs, here.0, there.0, after)
            }
        },
    }
}

/// Returns true only if two programs are twins by a list of pairs: at both places of each pair
/// there is the same, and both programs go on from there at places of a pair. The list has to be in
/// the order of the other program's places, or the answer is false.
pub fn are_twins(program: &Program, other: &Program, pairs: &[Pair]) -> bool
    ensures { IsTrue result → AreTwinPrograms program.now other.now (listed pairs.now) }
{
    for pair in pairs {
        if !same_place(program, other, pairs, *pair) {
            return false;
        }
    }
    true
}
