//! The count of a device's faults.
ghost use Rattle.base.specs.Faults.{HasRisen};

/// Returns `faults` plus one. A count of `u64::MAX` stays as it is.
pub fn count_fault(faults: u64) -> u64
    ensures { HasRisen faults result }
{
    faults.saturating_add(1)
}
