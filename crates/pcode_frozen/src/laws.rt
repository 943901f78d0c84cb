//! The law of frozen programs, as a fact about the definitions alone.
ghost use Rattle.std.specs.Prelude.{◌≡◌, ◌↔◌, ◌⊎◌, ℕ, List, [], ◌∷◌, ◌++◌};
ghost use Rattle.pcode_file.specs.Parts.{Parts};
ghost use Rattle.pcode_machine.specs.declared.turn.End.{End};
ghost use Rattle.pcode_machine.specs.declared.turn.End.TheVariants.{Error};
ghost use Rattle.pcode_machine.specs.Configuration.{Configuration};
ghost use Rattle.pcode_machine.specs.Runs.{IsOutput, IsPrefix};
ghost use Rattle.pcode_machine.specs.Transition.{Goes, Stops, transition};
ghost use Rattle.pcode_frozen.specs.declared.pairs.Pair.{Pair};
ghost use Rattle.pcode_frozen.specs.Counterexamples.{in_frames, in_main, itself, jumps, loads, points, untouched, reads};
ghost use Rattle.pcode_frozen.specs.Goes.{AreListedOnce, HasEnd, IsFrozenAfter, WaitsAfter};
ghost use Rattle.pcode_frozen.specs.States.{AreTwinEnds, AreTwins};
ghost use Rattle.pcode_frozen.specs.Twins.{listed, SamePlace};

use pcode_machine::laws::{
    output_only_grows, prefixes_are_ordered, run_is_after, same_run_on_longer_input,
};

/// A program in which another one is frozen after an input goes on as that one does, on each
/// further input. It puts out what that one puts out after both inputs, but for what it had put out
/// before. Both end alike, normally or by the same error at a pair of places, and both come to wait
/// or neither does.
///
/// If the list has each place of the frozen program once, its error is one of the original at the
/// place that is paired with its own.
pub fn frozen_goes_on()
    ensures outputs { (p q : Parts) (pairs : List Pair) (x y z : List ℕ) (c d : Configuration)
        → IsFrozenAfter p q pairs x c d
        → IsOutput q y z ↔ IsOutput p (x ++ y) (c.output ++ z) }
    ensures whole { (p q : Parts) (pairs : List Pair) (x y w : List ℕ) (c d : Configuration)
        → IsFrozenAfter p q pairs x c d → IsOutput p (x ++ y) w
        → IsPrefix w c.output ⊎ ((z : List ℕ) × (w ≡ c.output ++ z) × IsOutput q y z) }
    ensures ends { (p q : Parts) (pairs : List Pair) (x y : List ℕ) (c d : Configuration) (e : End)
        → IsFrozenAfter p q pairs x c d → HasEnd p (x ++ y) e
        → (f : End) × HasEnd q y f × AreTwinEnds (listed pairs) e f }
    ensures ends_only { (p q : Parts) (pairs : List Pair) (x y : List ℕ) (c d : Configuration)
        (f : End) → IsFrozenAfter p q pairs x c d → HasEnd q y f
        → (e : End) × HasEnd p (x ++ y) e × AreTwinEnds (listed pairs) e f }
    ensures errors { (p q : Parts) (pairs : List Pair) (x y : List ℕ) (c d : Configuration)
        (n i m k number : ℕ) → IsFrozenAfter p q pairs x c d → AreListedOnce pairs
        → listed pairs n i m k → HasEnd q y (Error number m k)
        → HasEnd p (x ++ y) (Error number n i) }
    ensures waits { (p q : Parts) (pairs : List Pair) (x y : List ℕ) (c d : Configuration)
        → IsFrozenAfter p q pairs x c d → WaitsAfter p (x ++ y) ↔ WaitsAfter q y }
{
    same_run_on_longer_input();
    run_is_after();
    output_only_grows();
    prefixes_are_ordered();
}

/// States that differ in one static link or in one base are no twins, whatever the pairs: LOD loads
/// another word, and LLA pushes another pointer.
pub fn wrong_frames()
    ensures links { (transition loads [] (untouched (in_frames 3 1 [] 2))
        ≡ Goes (untouched (in_frames 3 1 (6 ∷ []) 5)))
        × (transition loads [] (untouched (in_frames 3 2 [] 2))
        ≡ Goes (untouched (in_frames 3 2 (7 ∷ []) 5))) }
    ensures links_told { (pairs : List Pair)
        → ¬ (AreTwins loads (listed pairs) (in_frames 3 1 [] 2) (in_frames 3 2 [] 2)) }
    ensures bases { (transition points [] (untouched (in_frames 2 1 [] 2))
        ≡ Goes (untouched (in_frames 2 1 (6 ∷ []) 4)))
        × (transition points [] (untouched (in_frames 3 1 [] 2))
        ≡ Goes (untouched (in_frames 3 1 (8 ∷ []) 4))) }
    ensures bases_told { (pairs : List Pair)
        → ¬ (AreTwins points (listed pairs) (in_frames 2 1 [] 2) (in_frames 3 1 [] 2)) }
{}

/// Programs that differ in one word of a jump table are no twins where a jump goes through it: the
/// same instruction leads to other places. So the targets of jumps are compared, and not their
/// operands.
pub fn wrong_targets()
    ensures jumps { (transition (jumps 3) [] (untouched (in_main 4)) ≡ Goes (untouched (in_main 3)))
        × (transition (jumps 4) [] (untouched (in_main 4)) ≡ Goes (untouched (in_main 2))) }
    ensures told { ¬ (SamePlace (jumps 3) (jumps 4)
        (listed (itself 2 ∷ itself 3 ∷ itself 4 ∷ [])) 1 4 1 4) }
{}

/// States that differ in where a pending transfer began are no twins if those places are no pair:
/// where the transfer meets a bad address, the error is of the place where it began.
pub fn wrong_transfers()
    ensures errors { (transition loads [] (untouched (reads 3)) ≡ Stops (Error 7 1 3))
        × (transition loads [] (untouched (reads 2)) ≡ Stops (Error 7 1 2)) }
    ensures told { ¬ (AreTwins loads (listed (itself 2 ∷ itself 3 ∷ itself 4 ∷ []))
        (reads 3) (reads 2)) }
{}
