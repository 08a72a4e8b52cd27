//! Random programs: what an explorer lists is what comes of trying every list of choices.

use crate::explorers::{Start, by_copied, by_trailed};
use crate::failure::Failure;
use crate::fields::{code_of, number};
use crate::same::ended;
use crate::tasks::Task;
use crate::texts::{append_choices, append_number};
use ick_bits::append_decimal;
use ick_code::Code;
use ick_runs::{Cursor, Ran, Run, RunsError, run_with};
use rand_core::SeedableRng;
use rand_core::utils::NextWord;
use rand_pcg::Pcg32;
use std::alloc::Global;
use test_rows::Row;

/// The limit on steps, and so on choices.
const LIMIT: u32 = 7;

/// How many lists of so many choices there are.
const LISTS: u32 = 128;

const INPUT: &[u8] = b"ONE\nTWO\n";

const STATEMENTS: [&[u8]; 32] = [
    b"READ OUT #1",
    b"%50 READ OUT #2",
    b"%50 READ OUT .1",
    b".1 <- #3",
    b"%50 .1 <- #1",
    b"%50 GIVE UP",
    b"GIVE UP",
    b"(1) NEXT",
    b"%50 (1) NEXT",
    b"%50 (2) NEXT",
    b"(3) NEXT",
    b"RESUME #1",
    b"%50 RESUME #1",
    b"%50 RESUME .1",
    b"%50 FORGET #1",
    b"STASH .1",
    b"%50 RETRIEVE .1",
    b"%50 IGNORE .1",
    b"REMEMBER .1",
    b"%50 ABSTAIN FROM (2)",
    b"%50 ABSTAIN FROM READING OUT",
    b"%50 REINSTATE (2)",
    b"%50 REINSTATE READING OUT + CALCULATING",
    b"NOT READ OUT #5",
    b"%50 WRITE IN .1",
    b"%50 ,1 <- #2",
    b",1SUB#1 <- #7",
    b"%50 READ OUT ,1SUB#1",
    b"%50 READ OUT ,1",
    b"%50 WRITE IN ,1",
    b"%50 STASH ,1",
    b"%50 RETRIEVE ,1",
];

/// Returns four to six of the statements, with labels from 1 on. The last is polite.
fn source_of(alloc: Global, words: &mut Pcg32) -> Result<Vec<u8>, Failure> {
    let mut source = Vec::new(alloc);
    let size: u32 = words.next_word();
    let last = 4 + size % 3;
    for label in 1..=last {
        let word: u32 = words.next_word();
        let head = if label == last {
            b") PLEASE ".as_slice()
        } else {
            b") DO "
        };
        source.push(b'(')?;
        append_decimal(&mut source, u64::from(label))?;
        source.extend_from_slice(head)?;
        source.extend_from_slice(STATEMENTS[(word % 32) as usize])?;
        source.push(b'\n')?;
    }
    Ok(source)
}

/// Returns the list of choices with this number, the first choice first.
fn choices_of(alloc: Global, number: u32) -> Result<Vec<bool>, Failure> {
    let mut choices = Vec::new(alloc);
    let mut rest = number;
    for _ in 0..LIMIT {
        choices.push(rest >= LISTS / 2)?;
        rest = rest % (LISTS / 2) * 2;
    }
    Ok(choices)
}

/// Returns what a program does with these choices.
fn outcome<'c, 'a>(
    alloc: Global,
    code: &'c Code<'a>,
    choices: &[bool],
) -> Result<Ran<'c>, Failure> {
    Ok(run_with(alloc, code, INPUT, LIMIT, choices)?)
}

/// Returns the run with the list of this number, and with the choices that it used. There is none
/// if it wants more choices.
fn run_of<'c, 'a>(
    alloc: Global,
    code: &'c Code<'a>,
    number: u32,
) -> Result<Option<Run<'c>>, Failure> {
    let mut choices = choices_of(alloc, number)?;
    let ran = outcome(alloc, code, &choices)?;
    if let Ran::Ended { used, .. } = &ran {
        choices.truncate(*used);
    }
    Ok(ended(choices, ran))
}

/// Returns the runs that are found by trying each list of choices in turn. There are none if a run
/// wants more choices than it has steps.
fn tried<'c, 'a>(alloc: Global, code: &'c Code<'a>) -> Result<Option<Vec<Run<'c>>>, Failure> {
    let mut runs: Vec<Run<'c>> = Vec::new(alloc);
    for number in 0..LISTS {
        let Some(run) = run_of(alloc, code, number)? else {
            return Ok(None);
        };
        if !runs.last().is_some_and(|last| last.choices == run.choices) {
            runs.push(run)?;
        }
    }
    Ok(Some(runs))
}

/// Whether the machine that copies what it marks lists these runs of a program.
fn lists<'c, 'a>(alloc: Global, code: &'c Code<'a>, runs: &[Run<'c>]) -> Result<bool, Failure> {
    let task = Task::Compare(runs);
    let mut unused = Vec::new(alloc);
    by_copied(alloc, code, &start(b""), &task, &mut unused)
}

/// Returns the start of a listing, after the run of a cursor if its text is not empty.
fn start(from: &[u8]) -> Start<'_> {
    Start {
        input: INPUT,
        limit: LIMIT,
        work: 0,
        from,
    }
}

/// Whether after each run come those behind it.
fn go_on<'c, 'a>(alloc: Global, code: &'c Code<'a>, runs: &[Run<'c>]) -> Result<bool, Failure> {
    for (at, run) in runs.iter().enumerate() {
        if !goes_on(alloc, code, run, &runs[at + 1..])? {
            return Ok(false);
        }
    }
    Ok(true)
}

/// Whether after a run come these.
fn goes_on<'c, 'a>(
    alloc: Global,
    code: &'c Code<'a>,
    run: &Run<'c>,
    later: &[Run<'c>],
) -> Result<bool, Failure> {
    match text_of(alloc, &run.choices)? {
        Some(text) => lists_after(alloc, code, &text, later),
        None => Ok(false),
    }
}

/// Whether the machine that notes its changes lists these runs after the run of a cursor, or from
/// the start.
fn lists_after<'c, 'a>(
    alloc: Global,
    code: &'c Code<'a>,
    from: &[u8],
    runs: &[Run<'c>],
) -> Result<bool, Failure> {
    let task = Task::Compare(runs);
    let mut unused = Vec::new(alloc);
    by_trailed(alloc, code, &start(from), &task, &mut unused)
}

/// Whether these choices are not those of a run.
fn is_no_run<'c, 'a>(alloc: Global, code: &'c Code<'a>, choices: &[bool]) -> Result<bool, Failure> {
    match text_of(alloc, choices)? {
        Some(text) => is_of_no_run(alloc, code, &text),
        None => Ok(false),
    }
}

/// Whether the cursor of a text is refused, because its choices are not those of a run.
fn is_of_no_run<'c, 'a>(alloc: Global, code: &'c Code<'a>, from: &[u8]) -> Result<bool, Failure> {
    match lists_after(alloc, code, from, &[]) {
        Err(Failure::Runs(RunsError::NoSuchRun)) => Ok(true),
        Err(failure) => Err(failure),
        Ok(_) => Ok(false),
    }
}

/// Whether no run has these choices alone, and with them a further choice is wanted.
fn is_prefix<'c, 'a>(alloc: Global, code: &'c Code<'a>, choices: &[bool]) -> Result<bool, Failure> {
    let ran = outcome(alloc, code, choices)?;
    Ok(matches!(ran, Ran::Wants { .. }) && is_no_run(alloc, code, choices)?)
}

/// Whether no shorter prefix of a run's choices is a run, and each wants a choice; and whether the
/// choices with one more are no run.
fn has_no_neighbours<'c, 'a>(
    alloc: Global,
    code: &'c Code<'a>,
    run: &Run<'c>,
) -> Result<bool, Failure> {
    for count in 0..run.choices.len() {
        if !is_prefix(alloc, code, &run.choices[..count])? {
            return Ok(false);
        }
    }
    has_no_longer(alloc, code, run)
}

/// Whether the choices of a run with one more are no run.
fn has_no_longer<'c, 'a>(
    alloc: Global,
    code: &'c Code<'a>,
    run: &Run<'c>,
) -> Result<bool, Failure> {
    let mut choices = run.choices.clone()?;
    choices.push(false)?;
    is_no_run(alloc, code, &choices)
}

/// Whether no run has a neighbour that is a run.
fn have_no_neighbours<'c, 'a>(
    alloc: Global,
    code: &'c Code<'a>,
    runs: &[Run<'c>],
) -> Result<bool, Failure> {
    for run in runs {
        if !has_no_neighbours(alloc, code, run)? {
            return Ok(false);
        }
    }
    Ok(true)
}

/// Returns the text of a cursor with these choices, if it has them and its text is printed as it
/// was read.
fn text_of(alloc: Global, choices: &[bool]) -> Result<Option<Vec<u8>>, Failure> {
    let mut text = Vec::new(alloc);
    append_choices(&mut text, choices)?;
    if text.is_empty() {
        text.push(b'-')?;
    }
    if is_kept(alloc, &text, choices)? {
        Ok(Some(text))
    } else {
        Ok(None)
    }
}

/// Whether the cursor of a text has these choices, and is printed as it was read.
fn is_kept(alloc: Global, text: &[u8], choices: &[bool]) -> Result<bool, Failure> {
    let cursor = Cursor::from_text(alloc, text, u32::MAX)?;
    Ok(cursor.choices() == choices && is_printed(alloc, &cursor, text)?)
}

/// Whether a cursor is printed as this text.
fn is_printed(alloc: Global, cursor: &Cursor, text: &[u8]) -> Result<bool, Failure> {
    let mut printed = Vec::new(alloc);
    cursor.append_text(&mut printed)?;
    Ok(printed.as_slice() == text)
}

/// Whether what is listed of a program is what comes of trying every list of choices.
fn holds(alloc: Global, code: &Code<'_>) -> Result<bool, Failure> {
    match tried(alloc, code)? {
        Some(runs) => hold(alloc, code, &runs),
        None => Ok(false),
    }
}

/// Whether these are the listed runs of a program.
fn hold<'c, 'a>(alloc: Global, code: &'c Code<'a>, runs: &[Run<'c>]) -> Result<bool, Failure> {
    Ok(
        lists(alloc, code, runs)?
            && lists_after(alloc, code, b"", runs)?
            && have_no_neighbours(alloc, code, runs)?
            && go_on(alloc, code, runs)?,
    )
}

/// Counts the random programs for which this holds, and appends the first other one.
pub fn generated(alloc: Global, row: &Row, out: &mut Vec<u8>) -> Result<(), Failure> {
    let mut words = Pcg32::seed_from_u64(number(row, b"seed", 0)?);
    let mut count = 0u64;
    for _ in 0..number(row, b"programs", 0)? {
        if next_holds(alloc, &mut words, out)? {
            count = count.saturating_add(1);
        }
    }
    Ok(append_number(out, b"programs ", count)?)
}

/// Whether this holds for the next random program. If it is the first other one, it is appended.
fn next_holds(alloc: Global, words: &mut Pcg32, out: &mut Vec<u8>) -> Result<bool, Failure> {
    let source = source_of(alloc, words)?;
    let is_right = holds_of(alloc, &source)?;
    if !is_right && out.is_empty() {
        out.extend_from_slice(&source)?;
    }
    Ok(is_right)
}

/// Whether this holds for the program of a source.
fn holds_of(alloc: Global, source: &[u8]) -> Result<bool, Failure> {
    let code = code_of(alloc, source)?;
    holds(alloc, &code)
}
