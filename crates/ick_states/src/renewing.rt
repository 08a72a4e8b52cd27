//! States that are kept in the buffers of others.

ghost use Rattle.std.specs.Prelude.{◌≡◌, OnOk};
ghost use Rattle.ick_marks.specs.Saved.{HasLists, IsSaved};
ghost use Rattle.ick_runtime.specs.{Memory.view_in, Steady.IsReady, Steady.IsSteady};
ghost use Rattle.ick_runtime.specs.View.{parts_of};

use ick_bits::NoMemory;
use ick_instructions::Lowered;
use ick_marks::Saved;
use ick_runtime::Memory;
use std::mem::swap;

/// Replaces all items of a list. The list keeps its buffer if they fit.
fn put_list<T: Copy>(list: &mut Vec<T>, items: &[T]) -> Result<(), NoMemory>
    ensures { OnOk result (list.new.items ≡ items.now) }
{
    list.clear();
    list.extend_from_slice(items)?;
    Ok(())
}

/// Saves the state that a memory represents, in the buffers that `Saved::exchange` left. The memory
/// gets other arrays and stashes and another tape, so a run can't go on from it. `NoMemory` is
/// returned only if a growth was refused, and then no state is kept.
pub fn renew(
    saved: &mut Saved,
    memory: &mut Memory,
    program: &Lowered<'_, '_>,
) -> Result<(), NoMemory>
    requires ready { IsReady program.now.code.now program.now.parts (view_in memory.old) }
    requires spare { HasLists program.now.code.now (parts_of saved.old.rest) }
    ensures saved { OnOk result (IsSaved program.now.parts saved.new (view_in memory.old)) }
    ensures steady { IsSteady program.now.code.now program.now.parts (view_in memory.new) }
{
    // `put_list` needs that a memory has a register for each scalar.
    program.law();
    let base = program.layout().base as usize;
    put_list(&mut saved.numbers, &memory.registers[..base])?;
    put_list(&mut saved.store_target, &memory.store_target)?;
    put_list(&mut saved.statuses, &memory.statuses)?;
    put_list(&mut saved.returns, &memory.returns[..memory.point.depth])?;
    saved.place = memory.point.place;
    swap(&mut saved.rest, &mut memory.rest);
    Ok(())
}
