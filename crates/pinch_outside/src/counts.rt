//! The count of the calls of an object in memory.
ghost use Rattle.std.specs.Prelude.{◌≡◌};
ghost use Rattle.pinch_outside.specs.Faults.{counted};
ghost use Rattle.pinch_outside.specs.Failing.{is_failing};

/// Counts a call, and says whether its number is one of those that fail.
pub(crate) fn count_call(calls: &mut u64, fails: &[u64]) -> bool
    ensures counted { calls.new ≡ counted calls.old }
    ensures fails { result ≡ is_failing fails.now calls.new }
{
    *calls = calls.saturating_add(1);
    fails.contains(calls)
}
