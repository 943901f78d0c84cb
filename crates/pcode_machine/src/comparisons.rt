//! Comparisons of words, signed or of their low bits, whose result is the word 1 or 0.
ghost use Rattle.std.specs.Prelude.{◌≡◌};
ghost use Rattle.pcode_machine.specs.Comparisons.{compared, compared_bits, holds_of};

/// One of the six comparisons of the first of two words with the second.
#[derive(Clone, Copy, Debug, PartialEq, Eq)]
pub enum Comparison {
    Equal,
    NotEqual,
    LessOrEqual,
    Less,
    GreaterOrEqual,
    Greater,
}

/// Returns true if the comparison holds of two numbers.
fn holds(comparison: Comparison, a: i16, b: i16) -> bool
    ensures { result ≡ holds_of comparison a b }
{
    match comparison {
        Comparison::Equal => a == b,
        Comparison::NotEqual => a != b,
        Comparison::LessOrEqual => a <= b,
        Comparison::Less => a < b,
        Comparison::GreaterOrEqual => a >= b,
        Comparison::Greater => a > b,
    }
}

/// Returns 1 if the comparison holds of two signed words, and 0 otherwise.
pub fn compared(comparison: Comparison, a: u16, b: u16) -> u16
    ensures { result ≡ compared comparison a b }
{
    if holds(comparison, a.cast_signed(), b.cast_signed()) {
        1
    } else {
        0
    }
}

/// Returns 1 if the comparison holds of the low bits of two words, as numbers, and 0 otherwise.
pub fn compared_bits(comparison: Comparison, a: u16, b: u16) -> u16
    ensures { result ≡ compared_bits comparison a b }
{
    compared(comparison, a % 2, b % 2)
}
