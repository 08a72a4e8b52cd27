//! The statements of a source, in the order of the source.

ghost use Rattle.std.specs.Prelude.{◌≡◌, ◌≤◌, length, true};
ghost use Rattle.std.specs.List.{list_all};
ghost use Rattle.ick_syntax.specs.NameKinds.{is_statement_kinded};
ghost use Rattle.ick_syntax.specs.StatementTree.{statement_trees, most_statements};
ghost use Rattle.ick_syntax.specs.StatementTree.{AreNumbered, polite_in};
ghost use Rattle.ick_syntax.specs.ProgramFaults.{IsSound};

use crate::statements::Statement;

/// The statements of a source text. The reader `read_source` of `ick_source` makes a program.
///
/// A program has none of the faults that refuse a source. Its statements are numbered from 1,
/// and there are at most 524,288 of them, because each takes at least two bytes of the source. Each
/// scalar is a onespot or a twospot (Revised Manual, 3.1). Each array with subscripts or dimensions
/// is a tail or a hybrid, and a `u32` counts these subscripts or dimensions (3.3). Each array that
/// WRITE IN or READ OUT takes whole is a tail (5.2).
#[derive(Debug, Drop)]
pub struct Program<'a> {
    statements: Vec<Statement<'a>>,
    polite: u32,
    pub ghost numbered: { AreNumbered statements.items },
    pub ghost sound: { IsSound (statement_trees statements.items) },
    pub ghost counted: { polite ≡ polite_in (statement_trees statements.items) },
    pub ghost size: { length statements.items ≤ most_statements },
    pub ghost kinded: { list_all is_statement_kinded (statement_trees statements.items) ≡ true },
}

impl<'a> Program<'a> {
    ghost use Rattle.ick_syntax.specs.Programs.{statements_of, trees_of};

    /// Makes a program of statements that have no fault, `polite` of which say PLEASE.
    pub fn new(statements: Vec<Statement<'a>>, polite: u32) -> Self
        requires numbered { AreNumbered statements.items }
        requires sound { IsSound (statement_trees statements.items) }
        requires counted { polite ≡ polite_in (statement_trees statements.items) }
        requires size { length statements.items ≤ most_statements }
        requires kinded { list_all is_statement_kinded (statement_trees statements.items) ≡ true }
        ensures { statements_of result ≡ statements.entry.items }
    {
        Program { statements, polite }
    }

    /// Returns the statements, in the order of the source.
    pub fn statements(&self) -> &[Statement<'a>]
        ensures { result.now ≡ statements_of self.now }
    {
        &self.statements
    }

    /// Returns the number of statements that say PLEASE (Revised Manual, 4.3).
    pub fn polite(&self) -> u32
        ensures { result ≡ polite_in (trees_of self.now) }
    {
        self.polite
    }
}
