//! Arithmetic on words of 16 bits, signed and modulo 65,536.
ghost use Rattle.std.specs.Prelude.{◌≡◌};
ghost use Rattle.pcode_machine.specs.Arithmetic.{absolute_of, both_of, checked_of, complement_of, difference_of, either_of, element_of, negation_of, product_of, quotient_of, remainder_of, square_of, sum_of};

use crate::errors::ExecutionError;

/// Returns the sum of two words, modulo 65,536.
pub fn sum(a: u16, b: u16) -> u16
    ensures { result ≡ sum_of a b }
{
    a.wrapping_add(b)
}

/// Returns the first word less the second, modulo 65,536.
pub fn difference(a: u16, b: u16) -> u16
    ensures { result ≡ difference_of a b }
{
    a.wrapping_sub(b)
}

/// Returns the product of two words, modulo 65,536.
pub fn product(a: u16, b: u16) -> u16
    ensures { result ≡ product_of a b }
{
    a.wrapping_mul(b)
}

/// Returns the quotient of two signed words, rounded towards zero, modulo 65,536: -32,768 by -1 is
/// -32,768. Fails with error 6 if the divisor is 0.
pub fn quotient(a: u16, b: u16) -> Result<u16, ExecutionError>
    ensures { result ≡ quotient_of a b }
{
    if b == 0 {
        return Err(ExecutionError::DivisionByZero);
    }
    let whole = a.cast_signed().wrapping_div(b.cast_signed());
    Ok(whole.cast_unsigned())
}

/// Returns the remainder of that division, with the sign of the dividend: 0 for -32,768 by -1.
/// Fails with error 6 if the divisor is 0.
pub fn remainder(a: u16, b: u16) -> Result<u16, ExecutionError>
    ensures { result ≡ remainder_of a b }
{
    if b == 0 {
        return Err(ExecutionError::DivisionByZero);
    }
    let left = a.cast_signed().wrapping_rem(b.cast_signed());
    Ok(left.cast_unsigned())
}

/// Returns the absolute value of a signed word. For -32,768 it is the same word.
pub fn absolute(a: u16) -> u16
    ensures { result ≡ absolute_of a }
{
    a.cast_signed().unsigned_abs()
}

/// Returns the word of the other sign. For -32,768 it is the same word.
pub fn negation(a: u16) -> u16
    ensures { result ≡ negation_of a }
{
    0u16.wrapping_sub(a)
}

/// Returns the product of a word with itself, modulo 65,536.
pub fn square(a: u16) -> u16
    ensures { result ≡ square_of a }
{
    a.wrapping_mul(a)
}

/// Returns the bits that are set in both words.
pub fn both(a: u16, b: u16) -> u16
    ensures { result ≡ both_of a b }
{
    a & b
}

/// Returns the bits that are set in either word.
pub fn either(a: u16, b: u16) -> u16
    ensures { result ≡ either_of a b }
{
    a | b
}

/// Returns the bits that are not set in a word.
pub fn complement(a: u16) -> u16
    ensures { result ≡ complement_of a }
{
    !a
}

/// Returns `value` itself. Fails with error 1 if, all three signed, it is below `low` or above
/// `high`.
pub fn checked(value: u16, low: u16, high: u16) -> Result<u16, ExecutionError>
    ensures { result ≡ checked_of value low high }
{
    if low.cast_signed() <= value.cast_signed() && value.cast_signed() <= high.cast_signed() {
        Ok(value)
    } else {
        Err(ExecutionError::OutOfRange)
    }
}

/// Returns the address in bytes, modulo 65,536, of element `index` after a pointer. Each element
/// has `words` words.
pub fn element(pointer: u16, index: u16, words: u16) -> u16
    ensures { result ≡ element_of pointer index words }
{
    pointer.wrapping_add(index.wrapping_mul(words).wrapping_mul(2))
}
