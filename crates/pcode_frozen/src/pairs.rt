//! Pairs of places: one of a program, and one of the program in which it is frozen.
ghost use Rattle.std.specs.Prelude.{IsTrue};
ghost use Rattle.pcode_frozen.specs.Twins.{listed};

/// A place of a program, and one of another program at which there is the same. A place is a
/// procedure, by its number, and an offset in bytes from the segment's start.
#[derive(Clone, Copy, Debug, PartialEq, Eq)]
pub struct Pair {
    /// The procedure of the first program.
    pub procedure: u8,
    /// The offset in the first program.
    pub offset: u32,
    /// The procedure of the other program.
    pub other: u8,
    /// The offset in the other program.
    pub other_offset: u32,
}

/// Returns true if the other program's place of `pair` comes before that of `wanted`.
fn is_before(pair: &Pair, wanted: &Pair) -> bool {
    if pair.other != wanted.other {
        return pair.other < wanted.other;
    }
    pair.other_offset < wanted.other_offset
}

/// Returns true only if the pair is in the list. It finds each pair of a list that is in the order
/// of the other program's places.
pub(crate) fn is_listed(pairs: &[Pair], wanted: Pair) -> bool
    ensures { IsTrue result → listed pairs.now wanted.procedure wanted.offset wanted.other
        wanted.other_offset }
{
    let at = pairs.partition_point(|pair| is_before(pair, &wanted));
    match pairs.get(at) {
        Some(pair) => *pair == wanted,
        None => false,
    }
}
