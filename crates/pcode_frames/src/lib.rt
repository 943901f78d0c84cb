//! Memory, evaluation stack and frames of the p-machine, for interpreters that need only these.
//!
//! Make the three once: `Memory::new(alloc)?`, `Stack::new(alloc)?` and `Frames::new(alloc)?`. They
//! allocate all of their room there; no later call allocates. Then three calls do most of the work:
//!
//! - `frames.start(&mut memory, words)?` makes the main frame, of procedure 1, with `words` words.
//! - `frames.call(&mut memory, &mut stack, procedure, params, vars, link, back)?` moves the
//! parameters, which `stack.push(word)?` pushed, to a new frame, whose data is zero.
//! - `frames.ret(&mut memory, &mut stack, words)?` drops the frame, pushes its first `words` words
//! as results, and returns the frame: its caller goes on at `back`.
//!
//! `frames.link_up(n)` finds the frame n static links up; word k of a frame is
//! `memory.get(frame.base + k)`. `memory.is_live(word, n)` says if the n words from `word` on are
//! live. If they are, `memory.push_block(&mut stack, word, n)` pushes them, `memory.pop_block` pops
//! n words to their places, and `memory.copy(to, word, n)` copies them to the n live words from
//! `to` on. A refusal is a `Halt` and changes nothing. The module `laws` has what holds of the
//! definitions: which words, bytes and frames stay where others change.
#![tactic(auto)]

mod blocks;
mod frame;
mod frames;
mod halt;
pub mod laws;
mod limits;
mod memory;
mod stack;

pub use frame::Frame;
pub use frames::Frames;
pub use halt::Halt;
pub use limits::{LIVE_WORDS, MOST_FRAMES, STACK_WORDS};
pub use memory::Memory;
pub use stack::Stack;
