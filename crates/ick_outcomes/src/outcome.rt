//! Outcomes, and how runs are added to them.

ghost use Rattle.std.specs.Prelude.{◌≡◌, ◌+◌, ◌++◌, ◌<◌, slice_index_or, length, true, false, OnOk};
ghost use Rattle.std.specs.Prelude.{IfOk, IfSome, IfNone};
ghost use Rattle.std.specs.List.{Contains};
ghost use Rattle.ick_backtrack.specs.Asked.{finish_of};
ghost use Rattle.ick_explorer.specs.Lines.{end_text};
ghost use Rattle.ick_outcomes.specs.Accounts.{AreApart, Counts, SameRow};
ghost use Rattle.ick_outcomes.specs.Keys.{key_of};
ghost use Rattle.ick_numbers.specs.Values.{natural};
ghost use Rattle.ick_outcomes.specs.Seen.{row_of, rows_of};
ghost use Rattle.ick_outcomes.specs.Summaries.{Row};
ghost use Rattle.ick_outcomes.specs.Tallies.{lesser};

use crate::comparing::is_earlier_or_prefix;
use crate::fraction::Fraction;
use crate::index::row_key;
use ick_backtrack::End;
use ick_bits::{NoMemory, append_decimal};
use ick_numbers::Natural;
use smallvec::SmallVec;
use std::alloc::Global;

/// An outcome of a program, with the runs that have it. Contracts see it as a `Row`.
#[derive(Drop)]
pub struct Outcome {
    /// What each of the runs wrote.
    pub output: Vec<u8>,
    /// How each of them ended, as a listing shows it.
    pub end: SmallVec<u8, 16>,
    /// The number of the runs.
    pub count: Natural,
    /// The sum of their weights.
    pub weight: Fraction,
    /// The choices of the first of them in the listing.
    pub first: SmallVec<bool, 24>,
}

/// Returns the text of an end, as a listing shows it.
pub fn end_word(alloc: Global, end: End<'_>) -> Result<SmallVec<u8, 16>, NoMemory>
    ensures { IfOk result (λ word. word.items ≡ end_text (finish_of end.entry)) }
{
    match end {
        End::GiveUp => Ok(SmallVec::from_slice(alloc, b"GIVE-UP")?),
        End::Limit => Ok(SmallVec::from_slice(alloc, b"LIMIT")?),
        End::Fault(fault) => {
            let mut out = Vec::new(alloc);
            out.push(b'E')?;
            out.extend_from_slice(&fault.kind.digits())?;
            out.push(b'@')?;
            append_decimal(&mut out, u64::from(fault.statement))?;
            Ok(SmallVec::from_vec(out))
        }
    }
}

/// Adds the runs of an outcome to the row that has the same outcome.
#[tactic(auto, using(crate::proofs::Uses::row_sum))]
pub(crate) fn add_runs(alloc: Global, row: &mut Outcome, more: Outcome) -> Result<(), NoMemory>
    ensures same_output { row.new.output.items ≡ row.old.output.items }
    ensures same_end { row.new.end.items ≡ row.old.end.items }
    ensures sum { OnOk result (row_of row.new ≡ record (row_of row.old) {
      count = natural row.old.count + natural more.count;
      weight = (row_of row.old).weight + (row_of more).weight;
      first = lesser row.old.first.items more.first.items;
    }) }
{
    row.count = more.count.plus(&row.count)?;
    row.weight = more.weight.plus(&row.weight, alloc)?;
    if !is_earlier_or_prefix(&row.first, &more.first) {
        row.first = more.first;
    }
    Ok(())
}

/// Returns whether output and end of two rows are equal.
pub(crate) fn is_row(row: &Outcome, more: &Outcome) -> bool
    ensures yes { result ≡ true → SameRow (row_of row.now) (row_of more.now) }
    ensures no { result ≡ false → AreApart (row_of row.now) (row_of more.now) }
{
    row.output == more.output && row.end.as_slice() == more.end.as_slice()
}

/// Returns the index of the row that has this outcome, by looking at each row.
#[tactic(auto, using(crate::proofs::Uses::no_row_at))]
pub(crate) fn find_row(rows: &[Outcome], more: &Outcome) -> Option<usize>
    ensures some { IfSome result (λ i. (d : Outcome) →
        SameRow (row_of (slice_index_or rows.now i d)) (row_of more.now)) }
    ensures within { IfSome result (λ i. i < length rows.now) }
    ensures no_row { IfNone result ((x : Row) → Contains (rows_of rows.now) x →
        AreApart x (row_of more.now)) }
{
    for at in 0..rows.len() {
        if is_row(&rows[at], more) {
            return Some(at);
        }
    }
    None
}

/// Returns the key of an outcome.
pub(crate) fn outcome_key(outcome: &Outcome) -> u64
    ensures { result ≡ key_of outcome.now.output.items outcome.now.end.items }
{
    row_key(&outcome.output, &outcome.end)
}
