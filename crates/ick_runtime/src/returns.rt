//! The NEXT stack: how many return addresses it has, and whether they can be popped.

ghost use Rattle.std.specs.{Prelude.{◌≡◌, ◌<◌, ◌≤◌, ◌⊎◌}, Bool.MatchBool};
ghost use Rattle.ick_runtime.specs.Returns.{rupture_of};

use ick_bits::FaultKind;

/// How many return addresses the NEXT stack has room for (Revised Manual, 4.4.2).
pub const NEXT_STACK_ROOM: usize = 79;

/// Returns whether so many can be popped, and at least one.
#[inline(always)]
pub fn can_pop(number: usize, depth: usize) -> bool
    ensures { MatchBool result ((0 < number) × (number ≤ depth))
        ((number ≡ 0) ⊎ (depth < number)) }
{
    number.wrapping_sub(1) < depth
}

/// Returns the fault of popping so many.
#[cold]
pub fn resume_fault(number: usize) -> FaultKind
    ensures { result ≡ rupture_of number }
{
    if number == 0 {
        FaultKind::ResumeZero
    } else {
        FaultKind::Rupture
    }
}
