//! Laws of the definitions, each the contract of a function that does nothing.
ghost use Rattle.std.specs.Prelude.{◌≡◌, ◌↔◌, ◌+◌, ◌*◌, ◌∷◌, ℕ, List, Ok};
ghost use Rattle.pcode_file.specs.Checks.{read_from};
ghost use Rattle.pcode_file.specs.InFile.{InFile};
ghost use Rattle.pcode_file.specs.Parts.{Parts, word};

/// The checks in their order and the facts of a code file agree: reading gives parts exactly if the
/// bytes are a code file with these parts. No bytes have two.
pub fn reading_is_in_file()
    ensures read { (bytes : List ℕ) (p : Parts) → InFile bytes p ↔ (read_from bytes ≡ Ok p) }
    ensures once { (bytes : List ℕ) (p q : Parts) → InFile bytes p → InFile bytes q → p ≡ q }
{}

/// A word has its low byte first, and a place counts bytes from the start.
pub fn words_have_the_low_byte_first()
    ensures first { (low high : ℕ) (rest : List ℕ) →
        word (low ∷ high ∷ rest) 0 ≡ low + 256 * high }
    ensures next { (byte place : ℕ) (bytes : List ℕ) →
        word (byte ∷ bytes) (place + 1) ≡ word bytes place }
{}
