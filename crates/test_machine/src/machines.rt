//! Steps and marks of a machine with marks. None of these functions has a contract, so that the
//! proofs of their callers don't carry what the contracts of a machine say.

use crate::failure::Failure;
use ick_machine::{Ask, Asks};

/// Makes a step, unless the run has ended. Returns whether there was a step.
pub fn goes_on<'c, M: Asks<'c>>(machine: &mut M, done: bool) -> Result<bool, Failure> {
    if let Ask::Ended(_) = machine.asks() {
        return Ok(false);
    }
    if machine.work() >= u64::MAX {
        return Err(Failure::TooManySteps);
    }
    machine.step(done)?;
    Ok(true)
}

/// Makes a step. The run must not have ended.
pub fn step<'c, M: Asks<'c>>(machine: &mut M, done: bool) -> Result<(), Failure> {
    if goes_on(machine, done)? {
        Ok(())
    } else {
        Err(Failure::AfterEnd)
    }
}

/// Makes steps up to the next choice or the end of the run, within a hundred steps.
pub fn go<'c, M: Asks<'c>>(machine: &mut M) -> Result<(), Failure> {
    for _ in 0..100u32 {
        if let Ask::Choice(_) = machine.asks() {
            return Ok(());
        }
        if !goes_on(machine, false)? {
            return Ok(());
        }
    }
    Err(Failure::NoEnd)
}

/// Makes steps up to the end of the run, within a hundred steps. Each choice is to do.
pub fn finish<'c, M: Asks<'c>>(machine: &mut M) -> Result<(), Failure> {
    for _ in 0..100u32 {
        if !goes_on(machine, true)? {
            return Ok(());
        }
    }
    Err(Failure::NoEnd)
}

/// Makes steps in a call of `run` up to the next choice or the end of the run, a hundred at most.
/// Returns their number.
pub fn run<'c, M: Asks<'c>>(machine: &mut M) -> Result<u32, Failure> {
    if machine.work() >= u64::MAX - 100 {
        return Err(Failure::TooManySteps);
    }
    Ok(machine.run(100)?)
}

/// Sets a mark.
pub fn mark<'c, M: Asks<'c>>(machine: &mut M) -> Result<(), Failure> {
    Ok(machine.mark()?)
}

/// Goes back to the last mark. There must be a mark.
pub fn back<'c, M: Asks<'c>>(machine: &mut M) -> Result<(), Failure> {
    if machine.marks() == 0 {
        return Err(Failure::NoMark);
    }
    machine.back();
    Ok(())
}

/// Drops the last mark. There must be a mark.
pub fn drop_mark<'c, M: Asks<'c>>(machine: &mut M) -> Result<(), Failure> {
    if machine.marks() == 0 {
        return Err(Failure::NoMark);
    }
    machine.drop_mark();
    Ok(())
}
