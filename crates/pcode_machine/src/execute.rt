//! One instruction.
ghost use Rattle.std.specs.Prelude.{◌≡◌, Some, OnErr};
ghost use Rattle.pcode_frames.specs.Frames.{current_of};
ghost use Rattle.pcode_machine.specs.Execute.{execute, made};
ghost use Rattle.pcode_machine.specs.Effects.{standard, effect_of, HasCaseTable, IsPossible};
ghost use Rattle.pcode_ops.specs.At.{HasElements};
ghost use Rattle.pcode_machine.specs.Ready.{state_of, state_if_ok};

use crate::errors::ExecutionError;
use crate::loads::{address_from, address_of};
use crate::operations::UnaryOperation;
use crate::parts::MachineParts;
use crate::turn::{Direction, Stop};
use pcode_frames::Frame;
use pcode_ops::{Instr, Operation, Program, StandardProcedure};

impl MachineParts {
    /// Calls a standard procedure, and goes on at `next`.
    fn standard(&mut self, procedure: StandardProcedure, next: u32) -> Result<(), Stop>
        ensures value { made (standard procedure next (state_of self.old)) next (state_of self.old)
            ≡ Some (state_if_ok result (state_of self.new)) }
        ensures err { OnErr result (self.new ≡ self.old) }
    {
        match procedure {
            StandardProcedure::IoCheck => {
                if self.io_result == 0 {
                    self.go(next)
                } else {
                    Err(Stop::Error(ExecutionError::NoUnit))
                }
            }
            StandardProcedure::UnitRead => self.call(Direction::Reading, next),
            StandardProcedure::UnitWrite => self.call(Direction::Writing, next),
            StandardProcedure::IoResult => self.push(self.io_result, next),
            StandardProcedure::Halt => Err(Stop::Error(ExecutionError::Halted)),
        }
    }

    /// Executes an instruction of the program in the current frame, and goes on at the offset after
    /// it or where it leads. A stop changes nothing.
    #[tactic(auto, using(crate::proofs::NamedExists::some_given))]
    pub fn execute(
        &mut self,
        program: &Program,
        frame: Frame,
        instr: &Instr,
        next: u32,
    ) -> Result<(), Stop>
        requires current { current_of self.old.frames ≡ Some frame }
        requires possible { IsPossible
            (effect_of program.now frame instr.now next (state_of self.old)) (state_of self.old) }
        requires table { HasCaseTable program.now instr.now }
        requires packs { HasElements instr.now }
        ensures value { execute program.now frame instr.now next (state_of self.old)
            ≡ Some (state_if_ok result (state_of self.new)) }
        ensures err { OnErr result (self.new ≡ self.old) }
    {
        let base = frame.base;
        match *instr {
            Instr::Sldc(constant) => self.push(u16::from(constant), next),
            Instr::Ldcn => self.push(0, next),
            Instr::Ldci(word) => self.push(word, next),
            Instr::Sldl(word) => self.load(base, u16::from(word), next),
            Instr::Ldl(word) => self.load(base, word, next),
            Instr::Stl(word) => self.store(base, word, next),
            Instr::Lla(word) => self.push(address_from(base, word), next),
            Instr::Sldo(word) => self.load(0, u16::from(word), next),
            Instr::Ldo(word) => self.load(0, word, next),
            Instr::Sro(word) => self.store(0, word, next),
            Instr::Lao(word) => self.push(address_of(word), next),
            Instr::Lod(levels, word) => self.load(self.base_up(levels), word, next),
            Instr::Str(levels, word) => self.store(self.base_up(levels), word, next),
            Instr::Lda(levels, word) => self.push(address_from(self.base_up(levels), word), next),
            Instr::Sto => self.store_at(next),
            Instr::Sind(words) => self.fetch(u16::from(words), next),
            Instr::Ind(words) => self.fetch(words, next),
            Instr::Inc(words) => self.replace(UnaryOperation::Past(words), next),
            Instr::Ixa(words) => self.index_element(words, next),
            Instr::Mov(words) => self.move_block(words, next),
            Instr::Ldm(words) => self.load_block(u16::from(words), next),
            Instr::Stm(words) => self.store_block(u16::from(words), next),
            Instr::Ldb => self.load_byte(next),
            Instr::Stb => self.store_byte(next),
            Instr::Ixp(elements, width) => self.index_field(elements, width, next),
            Instr::Ldp => self.load_field(next),
            Instr::Stp => self.store_field(next),
            Instr::Adi => self.combine(Operation::Sum, next),
            Instr::Sbi => self.combine(Operation::Difference, next),
            Instr::Mpi => self.combine(Operation::Product, next),
            Instr::Dvi => self.combine(Operation::Quotient, next),
            Instr::Modi => self.combine(Operation::Remainder, next),
            Instr::Abi => self.replace(UnaryOperation::Absolute, next),
            Instr::Ngi => self.replace(UnaryOperation::Negation, next),
            Instr::Sqi => self.replace(UnaryOperation::Square, next),
            Instr::Chk => self.check(next),
            Instr::Land => self.combine(Operation::Both, next),
            Instr::Lor => self.combine(Operation::Either, next),
            Instr::Lnot => self.replace(UnaryOperation::Complement, next),
            Instr::Equi => self.combine(Operation::Equal, next),
            Instr::Neqi => self.combine(Operation::NotEqual, next),
            Instr::Leqi => self.combine(Operation::LessOrEqual, next),
            Instr::Lesi => self.combine(Operation::Less, next),
            Instr::Geqi => self.combine(Operation::GreaterOrEqual, next),
            Instr::Grti => self.combine(Operation::Greater, next),
            Instr::Equ => self.combine(Operation::EqualBits, next),
            Instr::Neq => self.combine(Operation::NotEqualBits, next),
            Instr::Leq => self.combine(Operation::LessOrEqualBits, next),
            Instr::Les => self.combine(Operation::LessBits, next),
            Instr::Geq => self.combine(Operation::GreaterOrEqualBits, next),
            Instr::Grt => self.combine(Operation::GreaterBits, next),
            Instr::Ujp(sb) => self.go(program.jump(frame.procedure, sb, next)),
            Instr::Fjp(sb) => self.jump_unless(program.jump(frame.procedure, sb, next), next),
            Instr::Efj(sb) => self.jump_by_equal(next, program.jump(frame.procedure, sb, next)),
            Instr::Nfj(sb) => self.jump_by_equal(program.jump(frame.procedure, sb, next), next),
            Instr::Xjp {
                low,
                high,
                sb: _,
                table,
            } => self.jump_by_case(program, low, high, table),
            Instr::Clp(n) => {
                let link = self.frames.link_up(0);
                self.call_procedure(program, n, link, next)
            },
            Instr::Cgp(n) => self.call_procedure(program, n, Some(0), next),
            Instr::Cip(n) => {
                let link = self.link_outward(program, frame, n);
                self.call_procedure(program, n, link, next)
            },
            Instr::Csp(procedure) => self.standard(procedure, next),
            Instr::Rnp(words) => self.leave(words),
            Instr::Rbp(_) => Err(Stop::Normal),
            Instr::Nop => self.go(next),
        }
    }
}
