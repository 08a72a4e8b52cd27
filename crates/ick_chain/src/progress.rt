//! Shows how far long work is.

ghost use Rattle.std.specs.Prelude.{◌≡◌, ◌++◌, ◌⊎◌, Bool, IfOk, false, true};
ghost use Rattle.ick_chain.specs.Progress.{OnlyShows, progress_line as line_of};

use ick_bits::{NoMemory, append_decimal};
use ick_devices::{ByteSink, VecSink};
use std::alloc::Global;

/// After how many states of a search one report comes.
const STATES_APART: u64 = 100_000;

/// After how many primes of a solver one report comes.
const PRIMES_APART: u64 = 10;

/// How far long work is.
#[derive(Clone, Copy, Debug)]
pub enum Report {
    /// Tells how many states a search has expanded.
    States(u64),
    /// Tells by how many primes a solver has solved.
    Primes(u64),
    /// Tells that the work is over, and that nothing of the other reports is to be left.
    Over,
}

/// A sink that may show reports in front of what is written.
pub trait Progress: ByteSink {
    /// Tells whether the sink shows reports. A sink that doesn't is unchanged by each of them.
    ghost shows: { Self → Bool };

    /// Shows the line of a report whole, or nothing. No failure of it is counted.
    fn show(&mut self, report: Report)
        ensures count { Self.failed self.new ≡ Self.failed self.old }
        ensures same { shows self.new ≡ shows self.old }
        ensures silent { shows self.old ≡ false → self.new ≡ self.old }
        ensures line { Self.told ≡ true → (Self.written self.new ≡ Self.written self.old)
            ⊎ (Self.written self.new ≡ Self.written self.old ++ line_of report) };
}

/// A sink over memory shows no reports.
impl Progress for VecSink {
    ghost shows = { λ _. false };

    fn show(&mut self, _report: Report) {}
}

/// Returns the line of a report. It begins where the line before began, and is at least as long.
pub fn progress_line(alloc: Global, report: Report) -> Result<Vec<u8>, NoMemory>
    ensures { IfOk result (λ line. line.items ≡ line_of report) }
{
    let mut line = Vec::new(alloc);
    line.push(b'\r')?;
    match report {
        Report::States(number) => {
            append_decimal(&mut line, number)?;
            line.extend_from_slice(b" STATES")?;
        }
        Report::Primes(number) => {
            append_decimal(&mut line, number)?;
            line.extend_from_slice(b" PRIMES          ")?;
        }
        Report::Over => line.extend_from_slice(b"                    \r")?,
    }
    Ok(line)
}

/// Tells that the work is over.
pub fn end_reports<E: Progress>(progress: &mut E)
    ensures { OnlyShows E.told E.failed E.written E.shows progress.old progress.new }
{
    progress.show(Report::Over);
}

/// Shows how many states a search has expanded, if the number is a multiple of 100,000.
pub(crate) fn show_states<E: Progress>(progress: &mut E, states: usize)
    ensures { OnlyShows E.told E.failed E.written E.shows progress.old progress.new }
{
    let number = states as u64;
    if number % STATES_APART == 0 {
        progress.show(Report::States(number));
    }
}

/// Shows by how many primes a solver has solved, if the number is a multiple of 10.
pub(crate) fn show_primes<E: Progress>(progress: &mut E, primes: usize)
    ensures { OnlyShows E.told E.failed E.written E.shows progress.old progress.new }
{
    let number = primes as u64;
    if number % PRIMES_APART == 0 {
        progress.show(Report::Primes(number));
    }
}
