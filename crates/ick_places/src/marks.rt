//! The marks of a body that begins at a byte.

ghost use Rattle.std.specs.Prelude.{ℕ, ◌≡◌, drop, IfOk};
ghost use Rattle.ick_places.specs.Bodies.{body_marks};
ghost use Rattle.ick_source.specs.BodyBytes.{IsBodyIn};
ghost use Rattle.ick_source.specs.Position.{characters};
ghost use Rattle.ick_syntax.specs.BodyTree.{BodyTree};

use crate::mark::Mark;
use crate::walker::Walker;
use ick_bits::NoMemory;
use ick_source::position::Position;
use std::alloc::Global;

/// Returns the marks of the body that begins at byte `from`, in the order of its operations: those
/// of the operands come first, and the subscripts of a target after the value. The marks have no
/// meaning if no body begins there. Refuses with `NoMemory` if memory runs out.
pub fn marks_of(alloc: Global, text: &[u8], from: usize) -> Result<Vec<Mark>, NoMemory>
    ensures { IfOk result (λ marks. (to : ℕ) (b : BodyTree) → IsBodyIn text.now from to b →
        marks.items ≡ body_marks text.now (characters (drop from text.now))) }
{
    let mut walker = Walker {
        alloc,
        text,
        at: Position {
            at: from,
            between: false,
        },
        marks: Vec::new(alloc),
        refused: false,
    };
    walker.body();
    if walker.refused {
        return Err(NoMemory);
    }
    Ok(walker.marks)
}
