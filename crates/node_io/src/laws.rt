//! What a keyboard gives, as the contract of a function that does nothing.
ghost use Rattle.std.specs.Prelude.{◌≡◌, List, Some};
ghost use Rattle.group_node.specs.Deeds.{Deed};
ghost use Rattle.node_io.specs.Prompts.{GivesWhatCame, KeyboardState, Remaining, before_gift, no_keys};

/// All that a keyboard has taken in since it was opened is what it has given and what it has left:
/// each byte and each request once, and the bytes in order. It is said of one that remembers what
/// it has taken in; a node can't tell it from another one.
pub fn taken_in_is_given()
    ensures { (old new : KeyboardState) (gift : List Deed) (all : Remaining) → old.left ≡ no_keys
        → old.taken_in ≡ Some no_keys → GivesWhatCame old gift new → new.taken_in ≡ Some all
        → all ≡ before_gift gift new.left }
{}
