//! Runs whose choices a seed draws.

ghost use Rattle.std.specs.Prelude.{◌<◌, IfSome};

use crate::explorers::{Start, by_trailed};
use crate::failure::Failure;
use crate::fields::{code_of, number, short_number};
use crate::same::{drawn_run, ended, ended_with, is_same, kind_of};
use crate::tasks::Task;
use crate::texts::{append_choices, append_end_name, append_number};
use ick_bits::{NoMemory, append_quoted};
use ick_code::Code;
use ick_devices::{SliceSource, VecSink};
use ick_machine::{Asks, Backtrack, Copied};
use ick_runs::{
    Chooser, Drawn, Run, RunsError, Streamed, drawn, run_seeded, run_seeded_from, run_stream,
};
use rand_core::SeedableRng;
use rand_core::utils::NextWord;
use rand_pcg::Pcg32;
use std::alloc::Global;
use test_rows::Row;

/// Appends whether a statement of a chance is done by a word.
pub fn draw(row: &Row, out: &mut Vec<u8>) -> Result<(), Failure> {
    let word = short_number(row, b"word", 0)?;
    let chance = number(row, b"chance", 0)?;
    let Some(chance) = chance_of(chance) else {
        return Err(Failure::Number);
    };
    let answer = if drawn(word, chance) {
        b"done".as_slice()
    } else {
        b"not done"
    };
    Ok(out.extend_from_slice(answer)?)
}

/// Returns a number as a chance between 0 and 100.
fn chance_of(number: u64) -> Option<u8>
    ensures low { IfSome result (λ c. 0 < c) }
    ensures high { IfSome result (λ c. c < 100) }
{
    if number == 0 || number >= 100 {
        return None;
    }
    Some(number as u8)
}

/// Returns the first words of the generator that a seed is defined by.
fn words_of(alloc: Global, seed: u64, count: u32) -> Result<Vec<u32>, Failure> {
    let mut generator = Pcg32::seed_from_u64(seed);
    let mut words = Vec::new(alloc);
    for _ in 0..count {
        let word: u32 = generator.next_word();
        words.push(word)?;
    }
    Ok(words)
}

/// Writes three statements of this chance.
fn source_of(alloc: Global, chance: u8) -> Result<Vec<u8>, Failure> {
    let line = format!(in alloc; "DO %{chance} FORGET #0\n")?;
    let mut source = Vec::new(alloc);
    for _ in 0..3u32 {
        source.extend_from_slice(line.as_bytes())?;
    }
    source.extend_from_slice(b"PLEASE GIVE UP\n")?;
    Ok(source)
}

/// Returns what a seed draws for three statements of this chance.
fn drawn_by(alloc: Global, seed: u64, chance: u8) -> Result<Vec<bool>, Failure> {
    let source = source_of(alloc, chance)?;
    let code = code_of(alloc, &source)?;
    drawn_on(alloc, &code, seed)
}

/// Returns what a seed draws for a program.
fn drawn_on(alloc: Global, code: &Code<'_>, seed: u64) -> Result<Vec<bool>, Failure> {
    let Drawn { choices, .. } = run_seeded(alloc, code, b"", 10, seed)?;
    Ok(choices)
}

/// Whether the choices are what the words mean at this chance.
fn is_meant(choices: &[bool], words: &[u32], chance: u8) -> bool
    requires low { 0 < chance }
    requires high { chance < 100 }
{
    choices.len() == words.len()
        && choices
            .iter()
            .zip(words.iter())
            .all(|(choice, word)| *choice == drawn(*word, chance))
}

/// Appends the first three words of a seed, and each chance at which a run draws something else.
pub fn words(alloc: Global, row: &Row, out: &mut Vec<u8>) -> Result<(), Failure> {
    let seed = number(row, b"seed", 0)?;
    let words = words_of(alloc, seed, 3)?;
    out.extend_from_slice(b"words")?;
    for word in &words {
        append_number(out, b" ", u64::from(*word))?;
    }
    append_other_chances(alloc, out, seed, &words)
}

/// Appends each chance at which a run draws something else than the words mean.
fn append_other_chances(
    alloc: Global,
    out: &mut Vec<u8>,
    seed: u64,
    words: &[u32],
) -> Result<(), Failure> {
    for chance in 1..100u8 {
        let choices = drawn_by(alloc, seed, chance)?;
        if !is_meant(&choices, words, chance) {
            append_number(out, b", else at ", u64::from(chance))?;
        }
    }
    Ok(())
}

/// Appends the run that a seed draws from where the program first asks for a choice.
pub fn later_draws(
    alloc: Global,
    code: &Code<'_>,
    row: &Row,
    out: &mut Vec<u8>,
) -> Result<(), Failure> {
    let (limit, seed) = (short_number(row, b"limit", 100)?, number(row, b"seed", 0)?);
    let mut machine = Copied::new(alloc, code, row.field(b"input"), 0)?;
    machine.run(limit)?;
    match drawn_from(alloc, machine, limit, seed)? {
        Some(run) => Ok(append_run(out, &run)?),
        None => Ok(()),
    }
}

/// Returns the run that a seed draws from a machine's state, if it came to its end.
fn drawn_from<'c>(
    alloc: Global,
    machine: Copied<'c, '_>,
    limit: u32,
    seed: u64,
) -> Result<Option<Run<'c>>, Failure> {
    if machine.work() > u64::from(u32::MAX) {
        return Err(Failure::Runs(RunsError::WorkFull));
    }
    let Drawn { choices, ran } = run_seeded_from(alloc, machine, limit, seed)?;
    Ok(ended(choices, ran))
}

/// Appends the choices of a run, its end, its steps and its output.
fn append_run(out: &mut Vec<u8>, run: &Run<'_>) -> Result<(), NoMemory> {
    append_choices(out, &run.choices)?;
    out.push(b' ')?;
    append_end_name(out, kind_of(&run.end))?;
    append_number(out, b" after ", u64::from(run.steps))?;
    out.extend_from_slice(b" steps ")?;
    append_quoted(out, &run.output)
}

/// Counts the seeds whose runs are listed, and are the runs with their choices.
pub fn listed_draws(
    alloc: Global,
    code: &Code<'_>,
    row: &Row,
    out: &mut Vec<u8>,
) -> Result<(), Failure> {
    let limit = short_number(row, b"limit", 10_000)?;
    let mut count = 0u64;
    for seed in 0..number(row, b"seeds", 0)? {
        if is_listed(alloc, code, limit, seed)? {
            count = count.saturating_add(1);
        }
    }
    Ok(append_number(out, b"seeds ", count)?)
}

/// Whether the run that a seed draws is listed, and is the run with its choices.
fn is_listed(alloc: Global, code: &Code<'_>, limit: u32, seed: u64) -> Result<bool, Failure> {
    match drawn_run(alloc, code, b"", limit, seed)? {
        Some(run) => Ok(is_found(alloc, code, limit, &run)? && is_given(alloc, code, limit, &run)?),
        None => Ok(false),
    }
}

/// Whether a run is that with its choices.
fn is_given(alloc: Global, code: &Code<'_>, limit: u32, run: &Run<'_>) -> Result<bool, Failure> {
    match ended_with(alloc, code, b"", limit, &run.choices)? {
        Some(given) => Ok(is_same(&given, run)),
        None => Ok(false),
    }
}

/// Whether a run is listed.
fn is_found(alloc: Global, code: &Code<'_>, limit: u32, run: &Run<'_>) -> Result<bool, Failure> {
    let start = Start {
        input: b"",
        limit,
        work: 0,
        from: b"",
    };
    let mut unused = Vec::new(alloc);
    by_trailed(alloc, code, &start, &Task::Find(run), &mut unused)
}

/// Counts the seeds whose runs are streamed, by the seed and by their choices.
pub fn streamed_draws(
    alloc: Global,
    code: &Code<'_>,
    row: &Row,
    out: &mut Vec<u8>,
) -> Result<(), Failure> {
    let mut count = 0u64;
    for seed in 0..number(row, b"seeds", 0)? {
        if is_streamed_by(alloc, code, row.field(b"input"), seed)? {
            count = count.saturating_add(1);
        }
    }
    Ok(append_number(out, b"seeds ", count)?)
}

/// Whether the run that a seed draws is streamed, by the seed and by its choices.
fn is_streamed_by(
    alloc: Global,
    code: &Code<'_>,
    input: &[u8],
    seed: u64,
) -> Result<bool, Failure> {
    let Some(run) = drawn_run(alloc, code, input, 100, seed)? else {
        return Ok(false);
    };
    is_streamed_twice(alloc, code, input, seed, &run)
}

/// Whether a run is streamed by its seed and by its choices.
fn is_streamed_twice(
    alloc: Global,
    code: &Code<'_>,
    input: &[u8],
    seed: u64,
    run: &Run<'_>,
) -> Result<bool, Failure> {
    let by_seed = is_streamed(alloc, code, input, Chooser::Seeded(seed), run)?;
    let by_choices = is_streamed(alloc, code, input, Chooser::Listed(&run.choices), run)?;
    Ok(by_seed && by_choices)
}

/// Whether what a chooser streams is this run.
fn is_streamed(
    alloc: Global,
    code: &Code<'_>,
    input: &[u8],
    chooser: Chooser<'_>,
    run: &Run<'_>,
) -> Result<bool, Failure> {
    let mut source = SliceSource::new(input);
    let mut sink = VecSink::new(alloc);
    let streamed = run_stream(alloc, code, &mut source, &mut sink, 100, chooser)?;
    Ok(is_alike(&streamed, sink.bytes(), run))
}

/// Whether a streamed run and what it wrote are this run.
fn is_alike(streamed: &Streamed, written: &[u8], run: &Run<'_>) -> bool {
    streamed.choices == run.choices
        && written == run.output.as_slice()
        && streamed.steps == run.steps
        && kind_of(&run.end) == streamed.end
}
