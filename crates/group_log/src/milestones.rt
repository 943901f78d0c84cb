//! What a node says once, as its session goes on.
ghost use Rattle.std.specs.Prelude.{◌≡◌, ◌↔◌, false, length, Some};
ghost use Rattle.pcode_machine.specs.declared.turn.End.{End};
ghost use Rattle.group_log.specs.Milestones.{marks_of};

use paxos_msg::limits::PLACES;
use pcode_machine::End;

/// Returns how many of the marks are reached with so many places: a half, three quarters, nine
/// tenths, and all of the 65,536.
pub fn marks_reached(places: u32) -> u8
    ensures { result ≡ length (marks_of places) }
{
    if places < 32_768 {
        0
    } else if places < 49_152 {
        1
    } else if places < 58_983 {
        2
    } else if places < PLACES {
        3
    } else {
        4
    }
}

/// Returns the end of the program that a run has come to, if it has and that was not noted before.
pub fn end_to_note(was_noted: bool, reached: Option<End>) -> Option<End>
    ensures { (end : End) → (result ≡ Some end) ↔ ((was_noted ≡ false) × (reached ≡ Some end)) }
{
    if was_noted { None } else { reached }
}
