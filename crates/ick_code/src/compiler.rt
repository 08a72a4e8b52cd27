//! Compiles programs: gives each name a slot first, and then each statement its operations.

ghost use Rattle.std.specs.Prelude.{◌≡◌, [], IfOk};
ghost use Rattle.ick_syntax.specs.Programs.{trees_of};
ghost use Rattle.ick_code.specs.Tables.{table_slots};
ghost use Rattle.ick_code.specs.Names.{slots_of};
ghost use Rattle.ick_code.specs.Code.{IsCode};
ghost use Rattle.ick_code.specs.Compiled.{IsCompiled};

use crate::code::{Code, CompiledStatement};
use crate::counts::most_operands;
use crate::emit::{OpsDraft, emit_body};
use crate::labels::Labels;
use crate::table::Table;
use ick_bits::NoMemory;
use ick_syntax::{Kind, Program};
use std::alloc::Global;

/// Compiles a program: each statement becomes a flat list of operations, with slots for names and
/// statement numbers for labels.
///
/// Slots are numbered from 0, scalars and arrays apart, in the order in which their names first
/// appear in the source. A target comes before its right side, and an array before its subscripts.
/// Unrecognised statements have no names. Returns `NoMemory` if a list cannot grow.
pub fn compile<'a>(alloc: Global, program: &Program<'a>) -> Result<Code<'a>, NoMemory>
    ensures { IfOk result (IsCompiled (trees_of program.now)) }
{
    let table = Table::new(alloc, program.statements())?;
    let mut draft = OpsDraft {
        ops: Vec::new(alloc),
        refused: false,
    };
    let mut compiled = Vec::new(alloc);
    let mut kinds = Vec::new(alloc);
    let operands = compile_all(
        alloc,
        &mut draft,
        &mut compiled,
        &mut kinds,
        &table,
        program,
    )?;
    Ok(Code::new(program, draft.ops, compiled, kinds, table, operands))
}

/// Appends the operations of all statements, the compiled statements and their kinds, and returns
/// the greatest number of operands.
fn compile_all<'a>(
    alloc: Global,
    draft: &mut OpsDraft,
    compiled: &mut Vec<CompiledStatement<'a>>,
    kinds: &mut Vec<Kind>,
    table: &Table,
    program: &Program<'a>,
) -> Result<usize, NoMemory>
    requires slots { table_slots table.now ≡ slots_of (trees_of program.now) }
    requires compiled { compiled.old.items ≡ [] }
    requires kinds { kinds.old.items ≡ [] }
    ensures { IfOk result (λ operands. IsCode (trees_of program.now)
        table.now.scalars.list.items table.now.arrays.list.items operands draft.new.ops.items
        compiled.new.items kinds.new.items) }
{
    let statements = program.statements();
    let labels = Labels::new(alloc, statements)?;
    let mut operands = 0usize;
    for statement in statements {
        let from = draft.ops.len();
        emit_body(draft, table, &labels, &statement.body);
        if draft.refused {
            return Err(NoMemory);
        }
        let to = draft.ops.len();
        operands = operands.max(most_operands(&draft.ops[from..to]));
        compiled.push(CompiledStatement {
            from,
            to,
            chance: statement.chance,
            abstained: statement.abstained,
            text: statement.text,
        })?;
        kinds.push(statement.body.kind())?;
    }
    Ok(operands)
}
