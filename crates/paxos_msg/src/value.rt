//! Values of places, and votes for them.
use crate::ballot::Ballot;
use crate::characters::Characters;
use std::fmt;

/// The value of a place.
#[derive(Clone, Copy, Debug, PartialEq, Eq, Hash)]
pub enum Value {
    /// No key: it fills a place.
    Noop,
    /// A batch of keys: characters that were typed one after another in one start of a node.
    Keys {
        /// The node at which they were typed, 1 to the group's size.
        node: u8,
        /// The number of that start of the node, from 1 on.
        start: u32,
        /// The serial of the first key. A serial is the number of a key in its start, from 1 on.
        /// The other keys have the serials after it, at most 4,294,967,295.
        first: u32,
        /// The characters, one for each key.
        bytes: Characters,
    },
}

/// Writes a value as `noop` or `key NODE START FIRST HH..`, with two hexadecimal digits for each
/// character.
impl fmt::Display for Value {
    fn fmt<W: fmt::Write>(&self, f: &mut fmt::Formatter<W>) -> fmt::Result {
        match *self {
            Value::Noop => write!(f, "noop"),
            Value::Keys {
                node,
                start,
                first,
                bytes,
            } => write!(f, "key {node} {start} {first} {bytes}"),
        }
    }
}

/// A vote for a value at a place under a ballot.
///
/// Votes, messages and records take any type of values, so that the laws can speak of the values of
/// an earlier version. The default is [`Value`].
#[derive(Clone, Copy, Debug, PartialEq, Eq, Hash)]
pub struct Vote<V = Value> {
    /// 0 to 65,535.
    pub place: u32,
    pub ballot: Ballot,
    pub value: V,
}
