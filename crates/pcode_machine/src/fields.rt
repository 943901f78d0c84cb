//! Packed fields, which are some bits of a word: IXP, LDP, STP.
ghost use Rattle.std.specs.Prelude.{◌≡◌, ◌≤◌, ◌^◌, IsTrue, OnOk};
ghost use Rattle.pcode_machine.specs.Fields.{field_indexed, field_loaded, field_of, field_stored, is_field, with_field, word_with_field};
ghost use Rattle.pcode_machine.specs.Ready.{ChangesTo, state_of};

use crate::errors::ExecutionError;
use crate::parts::MachineParts;
use crate::pointers::{pointed, pointer_past};
use crate::turn::Stop;
use pcode_frames::{Memory, STACK_WORDS};

/// Returns true if the field has at least one bit, and all its bits lie in one word. Bits are
/// counted from 0, the lowest.
fn is_field(width: u16, right: u16) -> bool
    ensures { result ≡ is_field width right }
{
    width >= 1 && u32::from(right) + u32::from(width) <= 16
}

/// Returns the power of two.
#[tactic(auto, using(std::proofs::lemmas::Nat::one_shl))]
fn power(exponent: u16) -> u32
    requires { exponent ≤ 16 }
    ensures value { result ≡ 2 ^ exponent }
    ensures positive { 1 ≤ result }
    ensures small { result ≤ 2 ^ 16 }
{
    1u32 << exponent
}

/// Returns the field of a word.
fn field(word: u16, width: u16, right: u16) -> u16
    requires { IsTrue (is_field width right) }
    ensures { result ≡ field_of word width right }
{
    (u32::from(word) / power(right) % power(width)) as u16
}

/// Returns the word with the low bits of `value` in the field, and all other bits as they were.
#[tactic(auto, using(crate::proofs::Powers::replaced_fits))]
fn with_field(word: u16, width: u16, right: u16, value: u16) -> u16
    requires { IsTrue (is_field width right) }
    ensures { result ≡ with_field word width right value }
{
    let low = power(right);
    let above = power(right + width);
    let word = u32::from(word);
    let field = u32::from(value) % power(width);
    (word % low + low * field + above * (word / above)) as u16
}

/// Returns the word at a pointer, of which a field is read or changed. Fails with error 1 if the
/// bits are no field, and then with error 7 if the word is not live.
fn word_with_field(
    memory: &Memory,
    pointer: u16,
    width: u16,
    right: u16,
) -> Result<u16, ExecutionError>
    ensures value { result ≡ word_with_field memory.now pointer width right }
    ensures field { OnOk result (IsTrue (is_field width right)) }
{
    if !is_field(width, right) {
        return Err(ExecutionError::OutOfRange);
    }
    pointed(memory, pointer).ok_or(ExecutionError::BadAddress)
}

impl MachineParts {
    /// Replaces an index and a pointer by the three words that name the field at that index: a
    /// pointer to its word, its width, and the place of its lowest bit. Each word has `elements`
    /// fields of `width` bits.
    pub fn index_field(&mut self, elements: u8, width: u8, next: u32) -> Result<(), Stop>
        requires { 1 ≤ elements }
        ensures { ChangesTo (field_indexed elements width next (state_of self.old) self.old.stack)
            self.old self.new result }
    {
        let index = self.operand(0)?;
        let pointer = self.operand(1)?;
        if index >= 32768 {
            return Err(Stop::Error(ExecutionError::OutOfRange));
        }
        if self.stack.len() == STACK_WORDS {
            return Err(Stop::Error(ExecutionError::NoRoom));
        }
        let elements = u16::from(elements);
        let width = u16::from(width);
        self.stack.discard(1);
        self.stack.set_top(pointer_past(pointer, index / elements));
        self.stack.push(width).unwrap();
        self.stack.push(index % elements * width).unwrap();
        self.next = next;
        Ok(())
    }

    /// Replaces the three words that name a field by its bits, and goes on at `next`.
    pub fn load_field(&mut self, next: u32) -> Result<(), Stop>
        ensures { ChangesTo (field_loaded next (state_of self.old) self.old.stack)
            self.old self.new result }
    {
        let right = self.operand(0)?;
        let width = self.operand(1)?;
        let pointer = self.operand(2)?;
        let word = word_with_field(&self.memory, pointer, width, right)?;
        self.stack.discard(2);
        self.stack.set_top(field(word, width, right));
        self.next = next;
        Ok(())
    }

    /// Pops a word and the three words that name a field, stores the word's low bits there, and
    /// goes on at `next`.
    pub fn store_field(&mut self, next: u32) -> Result<(), Stop>
        ensures { ChangesTo (field_stored next (state_of self.old) self.old.stack)
            self.old self.new result }
    {
        let value = self.operand(0)?;
        let right = self.operand(1)?;
        let width = self.operand(2)?;
        let pointer = self.operand(3)?;
        let word = word_with_field(&self.memory, pointer, width, right)?;
        self.put_word(4, pointer / 2, with_field(word, width, right, value), next);
        Ok(())
    }
}
