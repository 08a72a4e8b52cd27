//! Laws of each job, session and traced run. The functions do nothing, and their contracts state
//! the laws.

ghost use Rattle.ick_step_cli.specs.Laws.{OneEnd, OneSession, OneTrace};

use ick_source::one_refusal;

/// States that each run has exactly one trace by its code: its choices and its limit decide where
/// it stops.
pub fn one_trace()
    ensures { OneTrace }
{}

/// States that all answers of a job have the same error text and the same status.
pub fn one_end()
    ensures { OneEnd }
{}

/// States that the lines of a session have the same answers in each session that begins alike,
/// unless memory or the count of work lacks for one of them.
pub fn one_session()
    ensures { OneSession }
{
    one_refusal();
}
