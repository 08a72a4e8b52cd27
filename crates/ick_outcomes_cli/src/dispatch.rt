//! From a job to its answer: the source is read, then compiled, then the input is read, then the
//! code answers.

ghost use Rattle.std.specs.Prelude.{◌≡◌, ◌+◌, ◌<◌, ◌^◌, ℕ, IfOk, List, None, Some};
ghost use Rattle.std.specs.Prelude.{drop, false, true};
ghost use Rattle.ick_code.specs.Compiled.{code_program};
ghost use Rattle.ick_chain.specs.Progress.{OnlyShows};
ghost use Rattle.ick_job.specs.JobEnd.{EndsBy, input_of, source_of};
ghost use Rattle.ick_outcomes_cli.specs.Asked.{foreign_text};
ghost use Rattle.ick_job.specs.Input.{longest_input};
ghost use Rattle.ick_outcomes_cli.specs.OutcomesEnd.{Gives, LeavesAll, WhereGiven};
ghost use Rattle.ick_outcomes_cli.specs.OutcomesEnd.{listing_of};
ghost use Rattle.ick_outcomes_cli.specs.Job.{asks_both, has_file, wanted};
ghost use Rattle.ick_outcomes_cli.specs.Left.{IsLeft, IsLeftBySource, IsLeftRead};
ghost use Rattle.ick_outcomes_cli.specs.Tool.{HasLine, IsExplained, IsStop, IsStopped, Stops};
ghost use Rattle.ick_outcomes_cli.specs.Tool.{IsOutcomesAnswer, IsProgramAnswer, IsSourceAnswer};
ghost use Rattle.ick_outcomes_cli.specs.Tool.{IsReadAnswer, both_text};
ghost use Rattle.ick_outcomes_cli.specs.Tool.{IsSummed, IsTextFound, IsToldOf, MayStop};

use crate::asked::{Asked, asked_by};
use crate::found::{Found, find};
use crate::outcomes_end::OutcomesEnd;
use crate::words::{Job, Question, USUAL_LIMIT};
use ick_bits::{NoMemory, append_decimal};
use ick_chain::Progress;
use ick_code::{Code, compile};
use ick_devices::{ByteSink, ByteSource, Files, SliceSource};
use ick_job::{
    JobEnd, Message, Notice, read_file, read_front, read_input, read_named, refused, send,
};
use ick_source::read_source;
use std::alloc::Global;

/// How many bytes the longest listing has (this profile).
const LONGEST_LISTING: usize = 1_073_741_824;

/// Does a job up to its error text. The source is in the file that the job names, and the reader
/// has the input. If the job names no file, the reader has the source, and the input is empty. Two
/// things that don't go together are refused, and nothing is opened.
pub fn perform<F: Files, L: Files, R: ByteSource, W: ByteSink, E: Progress>(
    alloc: Global,
    job: &Job<'_>,
    files: &mut F,
    listings: &mut L,
    reader: &mut R,
    writer: &mut W,
    errors: &mut E,
) -> OutcomesEnd
    requires files_sound { F.failed files.old + 1 < 2 ^ 64 }
    requires listings_sound { L.failed listings.old + 1 < 2 ^ 64 }
    requires reader_sound { R.failed reader.old + 1 < 2 ^ 64 }
    requires writer_sound { W.failed writer.old + 1 < 2 ^ 64 }
    ensures leaves { LeavesAll result (F.failed files.old + L.failed listings.old)
        (F.failed files.new + L.failed listings.new) (R.failed reader.old) (R.failed reader.new)
        (W.failed writer.old) (W.failed writer.new) }
    ensures gives { F.told ≡ true → L.told ≡ true → R.told ≡ true → W.told ≡ true
        → let job = wanted job.now in
        let input = input_of job.file (R.left reader.old) in
        let source = source_of job.file (F.named files.old) (F.failed files.old)
        (F.failed files.new) (R.left reader.old) in
        Gives (IsOutcomesAnswer job input (listing_of job.listing (L.named listings.old)
        (L.failed listings.old) (L.failed listings.new)) source) (MayStop job input source)
        result (W.written writer.old) (W.written writer.new) }
    ensures left { F.told ≡ true → R.told ≡ true → WhereGiven result (IsLeft (wanted job.now)
        (F.named files.old) (R.left reader.old) (R.left reader.new)) }
    ensures files_kept { has_file (wanted job.now) ≡ false → files.new ≡ files.old }
    ensures listings_kept { (wanted job.now).listing ≡ None → listings.new ≡ listings.old }
    ensures both_kept { asks_both (wanted job.now) ≡ true
        → (files.new ≡ files.old) × (listings.new ≡ listings.old) }
    ensures source_first { has_file (wanted job.now) ≡ false
        → R.failed reader.old < R.failed reader.new → writer.new ≡ writer.old }
    ensures shown { OnlyShows E.told E.failed E.written E.shows errors.old errors.new }
{
    if job.asks_both() {
        return OutcomesEnd::By(refuse_both(alloc, job));
    }
    answer_job(alloc, job, files, listings, reader, writer, errors)
}

/// Returns how work ends that asks for two things that don't go together.
fn refuse_both(alloc: Global, job: &Job<'_>) -> JobEnd
    ensures { EndsBy 64 (both_text (wanted job.now)) result }
{
    usage_end(both_line(alloc, job))
}

/// Returns how work ends by a line with the status of usage.
fn usage_end(line: Result<Vec<u8>, NoMemory>) -> JobEnd
    ensures { (text : List ℕ) → IfOk line (λ l. l.items ≡ text) → EndsBy 64 text result }
{
    match line {
        Ok(text) => JobEnd::Answered {
            status: 64,
            message: Message::Text(text),
        },
        Err(NoMemory) => JobEnd::NoMemory,
    }
}

/// Returns the line for two things that don't go together.
fn both_line(alloc: Global, job: &Job<'_>) -> Result<Vec<u8>, NoMemory>
    ensures { IfOk result (λ text. text.items ≡ both_text (wanted job.now)) }
{
    let mut text = Vec::new(alloc);
    if job.states_too() {
        text.extend_from_slice(b"STATES WITH LIMIT, TOTAL OR ASKED\n")?;
        return Ok(text);
    }
    if job.lists_too() {
        text.extend_from_slice(b"ASKED WITH EXACT, TOTAL OR ENDS\n")?;
        return Ok(text);
    }
    text.extend_from_slice(b"MEMORY WITH LIMIT\n")?;
    Ok(text)
}

/// Does a job that doesn't ask for both. The source is in the file that the job names, and the
/// reader has the input. If the job names no file, the reader has the source, and the input is
/// empty.
fn answer_job<F: Files, L: Files, R: ByteSource, W: ByteSink, E: Progress>(
    alloc: Global,
    job: &Job<'_>,
    files: &mut F,
    listings: &mut L,
    reader: &mut R,
    writer: &mut W,
    errors: &mut E,
) -> OutcomesEnd
    requires files_sound { F.failed files.old + 1 < 2 ^ 64 }
    requires listings_sound { L.failed listings.old + 1 < 2 ^ 64 }
    requires reader_sound { R.failed reader.old + 1 < 2 ^ 64 }
    requires writer_sound { W.failed writer.old + 1 < 2 ^ 64 }
    ensures leaves { LeavesAll result (F.failed files.old + L.failed listings.old)
        (F.failed files.new + L.failed listings.new) (R.failed reader.old) (R.failed reader.new)
        (W.failed writer.old) (W.failed writer.new) }
    ensures gives { F.told ≡ true → L.told ≡ true → R.told ≡ true → W.told ≡ true
        → let job = wanted job.now in
        let input = input_of job.file (R.left reader.old) in
        let source = source_of job.file (F.named files.old) (F.failed files.old)
        (F.failed files.new) (R.left reader.old) in
        Gives (IsReadAnswer job input (listing_of job.listing (L.named listings.old)
        (L.failed listings.old) (L.failed listings.new)) source) (MayStop job input source)
        result (W.written writer.old) (W.written writer.new) }
    ensures left { F.told ≡ true → R.told ≡ true → WhereGiven result (IsLeftRead (wanted job.now)
        (F.named files.old) (R.left reader.old) (R.left reader.new)) }
    ensures files_kept { has_file (wanted job.now) ≡ false → files.new ≡ files.old }
    ensures listings_kept { (wanted job.now).listing ≡ None → listings.new ≡ listings.old }
    ensures source_first { has_file (wanted job.now) ≡ false
        → R.failed reader.old < R.failed reader.new → writer.new ≡ writer.old }
    ensures shown { OnlyShows E.told E.failed E.written E.shows errors.old errors.new }
{
    match job.file {
        Some(name) => match read_file(alloc, name, files) {
            Ok(source) => answer_source(
                alloc,
                job,
                source.as_slice(),
                listings,
                reader,
                writer,
                errors,
            ),
            Err(job_end) => OutcomesEnd::By(job_end),
        },
        None => match read_front(alloc, reader) {
            Ok(source) => {
                let mut nothing = SliceSource::new(&[]);
                answer_source(
                    alloc,
                    job,
                    source.as_slice(),
                    listings,
                    &mut nothing,
                    writer,
                    errors,
                )
            }
            Err(job_end) => OutcomesEnd::By(job_end),
        },
    }
}

/// Answers a source: it is refused, or its program is compiled, and its input is read.
fn answer_source<L: Files, R: ByteSource, W: ByteSink, E: Progress>(
    alloc: Global,
    job: &Job<'_>,
    source: &[u8],
    listings: &mut L,
    reader: &mut R,
    writer: &mut W,
    errors: &mut E,
) -> OutcomesEnd
    requires listings_sound { L.failed listings.old + 1 < 2 ^ 64 }
    requires reader_sound { R.failed reader.old + 1 < 2 ^ 64 }
    requires writer_sound { W.failed writer.old + 1 < 2 ^ 64 }
    ensures leaves { LeavesAll result (L.failed listings.old) (L.failed listings.new)
        (R.failed reader.old) (R.failed reader.new) (W.failed writer.old) (W.failed writer.new) }
    ensures gives { L.told ≡ true → R.told ≡ true → W.told ≡ true →
        let job = wanted job.now in
        Gives (IsSourceAnswer job source.now (R.left reader.old)
        (listing_of job.listing (L.named listings.old)
        (L.failed listings.old) (L.failed listings.new)))
        (Stops job source.now (R.left reader.old))
        result (W.written writer.old) (W.written writer.new) }
    ensures left { R.told ≡ true → WhereGiven result (IsLeftBySource source.now
        (R.left reader.old) (R.left reader.new)) }
    ensures listings_kept { (wanted job.now).listing ≡ None → listings.new ≡ listings.old }
    ensures shown { OnlyShows E.told E.failed E.written E.shows errors.old errors.new }
{
    let program = match read_source(alloc, source) {
        Ok(program) => program,
        Err(refusal) => return OutcomesEnd::By(refused(alloc, refusal)),
    };
    match compile(alloc, &program) {
        Ok(code) => answer_code(alloc, job, &code, listings, reader, writer, errors),
        Err(NoMemory) => OutcomesEnd::By(JobEnd::NoMemory),
    }
}

/// Answers code over the input that the reader has, which is read whole.
fn answer_code<L: Files, R: ByteSource, W: ByteSink, E: Progress>(
    alloc: Global,
    job: &Job<'_>,
    code: &Code<'_>,
    listings: &mut L,
    reader: &mut R,
    writer: &mut W,
    errors: &mut E,
) -> OutcomesEnd
    requires listings_sound { L.failed listings.old + 1 < 2 ^ 64 }
    requires reader_sound { R.failed reader.old + 1 < 2 ^ 64 }
    requires writer_sound { W.failed writer.old + 1 < 2 ^ 64 }
    ensures leaves { LeavesAll result (L.failed listings.old) (L.failed listings.new)
        (R.failed reader.old) (R.failed reader.new) (W.failed writer.old) (W.failed writer.new) }
    ensures gives { L.told ≡ true → R.told ≡ true → W.told ≡ true →
        let job = wanted job.now in
        Gives (IsProgramAnswer (code_program code.now) (R.left reader.old) job.limit job.question
        (listing_of job.listing (L.named listings.old)
        (L.failed listings.old) (L.failed listings.new)) job.listing)
        (λ line. (job.listing ≡ None)
        × IsStop (code_program code.now) (R.left reader.old) job.question job.limit line)
        result (W.written writer.old) (W.written writer.new) }
    ensures left { R.told ≡ true → WhereGiven result
        (R.left reader.new ≡ drop (longest_input + 1) (R.left reader.old)) }
    ensures listings_kept { (wanted job.now).listing ≡ None → listings.new ≡ listings.old }
    ensures shown { OnlyShows E.told E.failed E.written E.shows errors.old errors.new }
{
    match read_input(alloc, reader) {
        Ok(input) => match job.listing {
            None => answer_outcomes(
                alloc,
                code,
                input.as_slice(),
                job.limit,
                job.question,
                writer,
                errors,
            ),
            Some(name) => answer_listing(
                alloc,
                code,
                input.as_slice(),
                job.limit.unwrap_or(USUAL_LIMIT),
                name,
                listings,
                writer,
            ),
        },
        Err(job_end) => OutcomesEnd::By(job_end),
    }
}

/// Answers code by its outcomes over an input. Nothing is written before all are found.
fn answer_outcomes<W: ByteSink, E: Progress>(
    alloc: Global,
    code: &Code<'_>,
    input: &[u8],
    limit: Option<u32>,
    question: Question,
    writer: &mut W,
    errors: &mut E,
) -> OutcomesEnd
    requires { W.failed writer.old + 1 < 2 ^ 64 }
    ensures leaves { LeavesAll result 0 0 0 0 (W.failed writer.old) (W.failed writer.new) }
    ensures gives { W.told ≡ true → Gives
        (IsSummed (code_program code.now) input.now limit question)
        (IsStop (code_program code.now) input.now question limit)
        result (W.written writer.old) (W.written writer.new) }
    ensures shown { OnlyShows E.told E.failed E.written E.shows errors.old errors.new }
{
    match find(alloc, code, input, limit, question, errors) {
        Ok(found) => show(found, writer),
        Err(NoMemory) => OutcomesEnd::By(JobEnd::NoMemory),
    }
}

/// Writes what was found out.
fn show<W: ByteSink>(found: Found, writer: &mut W) -> OutcomesEnd
    requires writer { W.failed writer.old + 1 < 2 ^ 64 }
    requires line { HasLine found }
    ensures leaves { LeavesAll result 0 0 0 0 (W.failed writer.old) (W.failed writer.new) }
    ensures gives { W.told ≡ true → Gives (IsTextFound found) (IsStopped found)
        result (W.written writer.old) (W.written writer.new) }
{
    match found {
        Found::Outcomes(text) => {
            OutcomesEnd::By(send(text.as_slice(), 0, Message::Nothing, writer))
        }
        Found::TooManyStates => OutcomesEnd::Refused(Notice::TooManyStates),
        Found::Unfinished(line) => OutcomesEnd::Unfinished(line),
    }
}

/// Answers code by the statements that asked for the choices of a listing, which is in a file.
fn answer_listing<L: Files, W: ByteSink>(
    alloc: Global,
    code: &Code<'_>,
    input: &[u8],
    limit: u32,
    name: &str,
    listings: &mut L,
    writer: &mut W,
) -> OutcomesEnd
    requires listings_sound { L.failed listings.old + 1 < 2 ^ 64 }
    requires writer_sound { W.failed writer.old + 1 < 2 ^ 64 }
    ensures leaves { LeavesAll result (L.failed listings.old) (L.failed listings.new) 0 0
        (W.failed writer.old) (W.failed writer.new) }
    ensures gives { L.told ≡ true → W.told ≡ true → Gives
        (IsExplained (code_program code.now) input.now limit (listing_of (Some name.now)
        (L.named listings.old) (L.failed listings.old) (L.failed listings.new))) (λ line. ⊥)
        result (W.written writer.old) (W.written writer.new) }
{
    match read_named(alloc, name, LONGEST_LISTING + 1, listings) {
        Ok(listing) => answer_lines(alloc, code, input, limit, listing.as_slice(), writer),
        Err(job_end) => OutcomesEnd::By(job_end),
    }
}

/// Answers code by the statements that asked for the choices of a listing, unless the listing is
/// too long.
fn answer_lines<W: ByteSink>(
    alloc: Global,
    code: &Code<'_>,
    input: &[u8],
    limit: u32,
    listing: &[u8],
    writer: &mut W,
) -> OutcomesEnd
    requires { W.failed writer.old + 1 < 2 ^ 64 }
    ensures leaves { LeavesAll result 0 0 0 0 (W.failed writer.old) (W.failed writer.new) }
    ensures gives { W.told ≡ true → Gives
        (IsExplained (code_program code.now) input.now limit (Some listing.now)) (λ line. ⊥)
        result (W.written writer.old) (W.written writer.new) }
{
    if listing.len() > LONGEST_LISTING {
        return OutcomesEnd::Refused(Notice::ListingTooLong);
    }
    match asked_by(alloc, code, input, limit, listing) {
        Ok(asked) => OutcomesEnd::By(tell(alloc, &asked, writer)),
        Err(NoMemory) => OutcomesEnd::By(JobEnd::NoMemory),
    }
}

/// Writes which statements asked for choices, or says which line is not that of a run.
fn tell<W: ByteSink>(alloc: Global, asked: &Asked, writer: &mut W) -> JobEnd
    requires { W.failed writer.old + 1 < 2 ^ 64 }
    ensures leaves { LeavesAll (OutcomesEnd.By result) 0 0 0 0
        (W.failed writer.old) (W.failed writer.new) }
    ensures gives { W.told ≡ true → Gives (IsToldOf asked.now) (λ line. ⊥) (OutcomesEnd.By result)
        (W.written writer.old) (W.written writer.new) }
{
    match asked {
        Asked::Text(text) => send(text.as_slice(), 0, Message::Nothing, writer),
        Asked::Foreign(number) => foreign(alloc, *number),
    }
}

/// Returns how work ends at a line that is not that of a run.
fn foreign(alloc: Global, number: u64) -> JobEnd
    ensures { EndsBy 64 (foreign_text number) result }
{
    usage_end(foreign_line(alloc, number))
}

/// Returns the error text that names a line which is not that of a run.
fn foreign_line(alloc: Global, number: u64) -> Result<Vec<u8>, NoMemory>
    ensures { IfOk result (λ text. text.items ≡ foreign_text number) }
{
    let mut text = Vec::new(alloc);
    text.extend_from_slice(b"LINE ")?;
    append_decimal(&mut text, number)?;
    text.extend_from_slice(b" IS NOT OF THIS PROGRAM\n")?;
    Ok(text)
}
