//! Compiled programs.

ghost use Rattle.std.specs.Prelude.{◌≡◌, ◌≤◌, ◌<◌, length};
ghost use Rattle.std.proofs.Props.{props};
ghost use Rattle.ick_syntax.specs.Programs.{trees_of};
ghost use Rattle.ick_code.specs.Names.{most_names};
ghost use Rattle.ick_syntax.specs.StatementTree.{most_statements};
ghost use Rattle.ick_code.specs.Code.{IsCode};

use crate::op::Op;
use crate::table::Table;
use ick_syntax::{Kind, Name, Program};
use std::snapshot::Snapshot;

/// The bounds of a statement's operations in the list of all operations, and its chance, its state
/// at the start and its text.
#[derive(Drop)]
pub struct CompiledStatement<'a> {
    pub from: usize,
    pub to: usize,
    pub chance: u8,
    pub abstained: bool,
    pub text: &'a [u8],
}

/// A compiled program: one list of all operations, and the bounds of each statement's operations in
/// it. The kinds of statements are a list of their own, so that a gerund reads few bytes.
///
/// For contracts alone, it keeps the program that it was compiled from, and its type says that it
/// is the code of that program.
#[derive(Drop)]
pub struct Code<'a> {
    program: Snapshot<Program<'a>>,
    ops: Vec<Op>,
    statements: Vec<CompiledStatement<'a>>,
    kinds: Vec<Kind>,
    scalars: Vec<Name>,
    arrays: Vec<Name>,
    operands: usize,
    pub ghost compiled: { IsCode (trees_of program.value) scalars.items arrays.items
        operands ops.items statements.items kinds.items } by { Prim.hlevel props },
    pub ghost few: { length statements.items ≤ most_statements },
    pub ghost few_scalars: { length scalars.items ≤ most_names },
    pub ghost few_arrays: { length arrays.items ≤ most_names },
}

impl<'a> Code<'a> {
    ghost use Rattle.std.specs.Prelude.{Some, IsSomeAnd, slice_get, option_map};
    ghost use Rattle.ick_syntax.specs.Kinds.{kind_of};
    ghost use Rattle.ick_code.specs.Code.{Means, kinds_of};
    ghost use Rattle.ick_code.specs.Compiled.{code_program, code_slots, code_statement};
    ghost use Rattle.ick_code.specs.Compiled.{compiled_at, code_ops, code_operands, Shows};
    ghost use Rattle.ick_code.specs.Compiled.{IsCompiled};

    /// Returns the code of a program from its compiled parts.
    pub(crate) fn new(
        program: &Program<'a>,
        ops: Vec<Op>,
        statements: Vec<CompiledStatement<'a>>,
        kinds: Vec<Kind>,
        table: Table,
        operands: usize,
    ) -> Code<'a>
        requires { IsCode (trees_of program.now)
            table.scalars.list.items table.arrays.list.items operands ops.items statements.items
            kinds.items }
        ensures { IsCompiled (trees_of program.now) result }
    {
        Code {
            program: Snapshot::of(program),
            ops,
            statements,
            kinds,
            scalars: table.scalars.into_list(),
            arrays: table.arrays.into_list(),
            operands,
        }
    }

    /// Has no effect, and lets a proof use what the type keeps. The operations do what the
    /// statements of the program do. Each operation names only slots and statements that exist.
    /// Only the last operation of a statement may set where the run goes on, give up, or be the
    /// fault of an unrecognised statement. Each operation finds its operands on the stack, and one
    /// that pushes nothing leaves none.
    pub fn law(&self)
        ensures { IsCompiled (code_program self.now) self.now }
    {}

    /// Returns the number of statements.
    pub fn count(&self) -> u32
        ensures { result ≡ length (code_program self.now) }
    {
        self.statements.len() as u32
    }

    /// Returns the operations of statement `n`, from 1 to `count()`. Executed in order from an
    /// empty operand stack, up to the first fault, they do what the statement does.
    pub fn ops(&self, n: u32) -> &[Op]
        requires first { 1 ≤ n }
        requires last { n ≤ length (code_program self.now) }
        ensures ops { result.now ≡ code_ops self.now n }
        ensures means { IsSomeAnd (code_statement self.now n) (λ statement.
            Means (code_program self.now) (code_slots self.now) result.now statement
            (code_operands self.now)) }
    {
        let compiled = self.statement(n);
        &self.ops[compiled.from..compiled.to]
    }

    /// Returns the chance of statement `n`, from 1 to `count()`: the percentage with which it is
    /// executed each time that the run reaches it (Revised Manual, 4.3).
    pub fn chance(&self, n: u32) -> u8
        requires first { 1 ≤ n }
        requires last { n ≤ length (code_program self.now) }
        ensures { option_map (λ statement. statement.chance) (code_statement self.now n) ≡
            Some result }
    {
        self.statement(n).chance
    }

    /// Returns whether statement `n`, from 1 to `count()`, is abstained from at the start (Revised
    /// Manual, 4.3).
    pub fn abstained(&self, n: u32) -> bool
        requires first { 1 ≤ n }
        requires last { n ≤ length (code_program self.now) }
        ensures { option_map (λ statement. statement.abstained) (code_statement self.now n) ≡
            Some result }
    {
        self.statement(n).abstained
    }

    /// Returns the kind of statement `n`, from 1 to `count()`.
    pub fn kind(&self, n: u32) -> Kind
        requires first { 1 ≤ n }
        requires last { n ≤ length (code_program self.now) }
        ensures { option_map (λ statement. kind_of statement.body) (code_statement self.now n) ≡
            Some result }
    {
        self.kinds[n as usize - 1]
    }

    /// Returns the kinds of all statements, in order.
    pub fn kinds(&self) -> &[Kind]
        ensures { result.now ≡ kinds_of (code_program self.now) }
    {
        &self.kinds
    }

    /// Returns the text of statement `n`, from 1 to `count()`: its bytes in the source.
    pub fn text(&self, n: u32) -> &'a [u8]
        requires first { 1 ≤ n }
        requires last { n ≤ length (code_program self.now) }
        ensures { option_map (λ statement. statement.text) (code_statement self.now n) ≡
            Some result.now }
    {
        self.statement(n).text
    }

    /// Returns the number of slots of scalars, which are counted from 0.
    pub fn scalars(&self) -> u32
        ensures { result ≡ length (code_slots self.now).scalars }
    {
        self.scalars.len() as u32
    }

    /// Returns the number of slots of arrays, which are counted from 0.
    pub fn arrays(&self) -> u32
        ensures { result ≡ length (code_slots self.now).arrays }
    {
        self.arrays.len() as u32
    }

    /// Returns the scalar of a slot below `scalars()`.
    pub fn scalar(&self, slot: u32) -> Name
        requires { slot < length (code_slots self.now).scalars }
        ensures { slice_get (code_slots self.now).scalars slot ≡ Some result }
    {
        self.scalars[slot as usize]
    }

    /// Returns the array of a slot below `arrays()`.
    pub fn array(&self, slot: u32) -> Name
        requires { slot < length (code_slots self.now).arrays }
        ensures { slice_get (code_slots self.now).arrays slot ≡ Some result }
    {
        self.arrays[slot as usize]
    }

    /// Returns the greatest number of operands that the operand stack holds in any statement.
    pub fn operands(&self) -> usize
        ensures { result ≡ code_operands self.now }
    {
        self.operands
    }

    /// Returns the compiled statement `n`.
    fn statement(&self, n: u32) -> &CompiledStatement<'a>
        requires first { 1 ≤ n }
        requires last { n ≤ length (code_program self.now) }
        ensures at { compiled_at self.now.statements.items n ≡ Some result.now }
        ensures order { result.now.from ≤ result.now.to }
        ensures within { result.now.to ≤ length self.now.ops.items }
        ensures shows { Shows (code_statement self.now n) result.now }
    {
        &self.statements[n as usize - 1]
    }
}
