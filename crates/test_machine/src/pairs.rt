//! `call pairs`: both machines with marks run `programs` random programs side by side, with steps
//! and marks in random order. The machines must be alike at every point.

use crate::failure::Failure;
use crate::random_programs::INPUT;
use crate::sides::{Sides, sides_of};
use crate::words::Words;
use ick_code::Code;
use ick_machine::Asks;
use std::alloc::Global;

const TURNS: u32 = 120;

/// Compares both machines on a program.
pub fn lead(alloc: Global, code: &Code<'_>, words: &mut Words) -> Result<(), Failure> {
    take_turns(sides_of(alloc, code, INPUT, 5), words)
}

/// Makes random turns on both machines, if there was memory for them.
fn take_turns<'c, A: Asks<'c>, B: Asks<'c>>(
    sides: Result<Sides<A, B>, Failure>,
    words: &mut Words,
) -> Result<(), Failure> {
    let mut sides = sides?;
    sides.are_alike()?;
    for _ in 0..TURNS {
        turn(&mut sides, words)?;
    }
    Ok(())
}

/// Makes one random turn on both machines: most often steps, else a change of their marks.
fn turn<'c, A: Asks<'c>, B: Asks<'c>>(
    sides: &mut Sides<A, B>,
    words: &mut Words,
) -> Result<(), Failure> {
    let turn = words.below(16);
    if turn < 8 {
        sides.step(words.below(2) == 0)
    } else if turn < 10 {
        sides.run()
    } else if turn < 13 {
        sides.mark()
    } else if !sides.is_marked() {
        Ok(())
    } else if turn < 15 {
        sides.back()
    } else {
        sides.drop_mark()
    }
}
