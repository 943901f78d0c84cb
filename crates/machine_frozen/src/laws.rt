//! What the answer shows of the original, as a fact about the definitions alone.
ghost use Rattle.std.specs.Prelude.{◌≡◌, ℕ, List, [], length};
ghost use Rattle.pcode_file.specs.Parts.{Parts};
ghost use Rattle.pcode_machine.specs.Configuration.{State, Configuration};
ghost use Rattle.pcode_machine.specs.Runs.{LeadsIn};
ghost use Rattle.pcode_frozen.specs.declared.pairs.Pair.{Pair};
ghost use Rattle.pcode_frozen.specs.Goes.{IsFrozenAfter};
ghost use Rattle.machine_frozen.specs.Goes.{GoesOnAs};

use pcode_machine::laws::run_is_after;

/// If a frozen program goes on as its original does from where it waits on no input, then the
/// original is frozen in it after each input that leads the original to the state there and that it
/// has read whole.
pub fn waits_are_frozen()
    ensures { (p q : Parts) (pairs : List Pair) (steps n : ℕ) (x : List ℕ) (s : State)
        (c d : Configuration) → GoesOnAs p q pairs [] steps s d → LeadsIn p x n c
        → c.state ≡ s → c.read ≡ length x → IsFrozenAfter p q pairs x c d }
{
    run_is_after();
}
