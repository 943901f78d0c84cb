//! Instructions that compute words: arithmetic, logic, comparisons, pointers that move, and CHK.
ghost use Rattle.std.specs.Prelude.{◌≡◌};
ghost use Rattle.pcode_ops.specs.declared.operation.Operation.TheVariants.{Element};
ghost use Rattle.pcode_machine.specs.Operations.{unary_value_of, checked, combined, replaced, value_of};
ghost use Rattle.pcode_machine.specs.Ready.{ChangesTo, state_of};

use crate::arithmetic as words;
use crate::comparisons::{Comparison, compared, compared_bits};
use crate::errors::ExecutionError;
use crate::parts::MachineParts;
use crate::pointers::pointer_past;
use crate::turn::Stop;
use pcode_ops::Operation;

/// An operation on one word.
#[derive(Clone, Copy, Debug, PartialEq, Eq)]
pub enum UnaryOperation {
    Absolute,
    Negation,
    Square,
    Complement,
    /// A pointer, moved on by this number of words.
    Past(u16),
}

/// Returns the result of an operation on one word.
#[inline(always)]
fn unary_value(operation: UnaryOperation, a: u16) -> u16
    ensures { result ≡ unary_value_of operation a }
{
    match operation {
        UnaryOperation::Absolute => words::absolute(a),
        UnaryOperation::Negation => words::negation(a),
        UnaryOperation::Square => words::square(a),
        UnaryOperation::Complement => words::complement(a),
        UnaryOperation::Past(words) => pointer_past(a, words),
    }
}

/// Returns the result of an operation, or its error.
#[inline(always)]
pub fn value(operation: Operation, a: u16, b: u16) -> Result<u16, ExecutionError>
    ensures { result ≡ value_of operation a b }
{
    match operation {
        Operation::Sum => Ok(words::sum(a, b)),
        Operation::Difference => Ok(words::difference(a, b)),
        Operation::Product => Ok(words::product(a, b)),
        Operation::Quotient => words::quotient(a, b),
        Operation::Remainder => words::remainder(a, b),
        Operation::Both => Ok(words::both(a, b)),
        Operation::Either => Ok(words::either(a, b)),
        Operation::Equal => Ok(compared(Comparison::Equal, a, b)),
        Operation::NotEqual => Ok(compared(Comparison::NotEqual, a, b)),
        Operation::LessOrEqual => Ok(compared(Comparison::LessOrEqual, a, b)),
        Operation::Less => Ok(compared(Comparison::Less, a, b)),
        Operation::GreaterOrEqual => Ok(compared(Comparison::GreaterOrEqual, a, b)),
        Operation::Greater => Ok(compared(Comparison::Greater, a, b)),
        Operation::EqualBits => Ok(compared_bits(Comparison::Equal, a, b)),
        Operation::NotEqualBits => Ok(compared_bits(Comparison::NotEqual, a, b)),
        Operation::LessOrEqualBits => Ok(compared_bits(Comparison::LessOrEqual, a, b)),
        Operation::LessBits => Ok(compared_bits(Comparison::Less, a, b)),
        Operation::GreaterOrEqualBits => Ok(compared_bits(Comparison::GreaterOrEqual, a, b)),
        Operation::GreaterBits => Ok(compared_bits(Comparison::Greater, a, b)),
        Operation::Element(words) => Ok(words::element(a, b, u16::from(words))),
    }
}

impl MachineParts {
    /// Changes the word on top, and goes on at `next`.
    #[inline(always)]
    pub fn replace(&mut self, operation: UnaryOperation, next: u32) -> Result<(), Stop>
        ensures { ChangesTo (replaced operation next (state_of self.old) self.old.stack)
            self.old self.new result }
    {
        if self.stack.len() == 0 {
            return Err(Stop::Error(ExecutionError::StackUnderflow));
        }
        let word = self.stack.top();
        self.stack.set_top(unary_value(operation, word));
        self.next = next;
        Ok(())
    }

    /// Replaces the two words on top by one, and goes on at `next`.
    #[inline(always)]
    pub fn combine(&mut self, operation: Operation, next: u32) -> Result<(), Stop>
        ensures { ChangesTo (combined operation next (state_of self.old) self.old.stack)
            self.old self.new result }
    {
        if self.stack.len() < 2 {
            return Err(Stop::Error(ExecutionError::StackUnderflow));
        }
        let b = self.stack.pop()?;
        let a = self.stack.top();
        match value(operation, a, b) {
            Ok(word) => {
                self.stack.set_top(word);
                self.next = next;
                Ok(())
            }
            Err(error) => {
                self.stack.push(b).unwrap();
                Err(Stop::Error(error))
            }
        }
    }

    /// Replaces an index and the pointer below it by the pointer to the element, of `words` words
    /// each, and goes on at `next`.
    #[inline(always)]
    pub fn index_element(&mut self, words: u16, next: u32) -> Result<(), Stop>
        ensures { ChangesTo (combined (Element words) next (state_of self.old) self.old.stack)
            self.old self.new result }
    {
        if self.stack.len() < 2 {
            return Err(Stop::Error(ExecutionError::StackUnderflow));
        }
        let index = self.stack.pop()?;
        let pointer = self.stack.top();
        self.stack.set_top(words::element(pointer, index, words));
        self.next = next;
        Ok(())
    }

    /// Leaves the lowest of the three words on top if it lies from the next one to the top, and
    /// goes on at `next`.
    pub fn check(&mut self, next: u32) -> Result<(), Stop>
        ensures { ChangesTo (checked next (state_of self.old) self.old.stack)
            self.old self.new result }
    {
        let high = self.operand(0)?;
        let low = self.operand(1)?;
        let word = self.operand(2)?;
        words::checked(word, low, high)?;
        self.stack.discard(2);
        self.next = next;
        Ok(())
    }
}
