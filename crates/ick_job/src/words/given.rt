//! The values that arguments give.
ghost use Rattle.std.specs.Prelude.{◌≡◌, IfOk, true};
ghost use Rattle.clap.specs.Kinds.{FailsBy};
ghost use Rattle.clap.specs.Walk.{texts};
ghost use Rattle.clap.specs.Words.{fault_of, found_of, is_simple_and_free, matches_of};
ghost use Rattle.clap.specs.Words.{rows_of, subcommand_of, subcommand_rows_of};
ghost use Rattle.ick_job.specs.Descriptions.{program_app};
ghost use Rattle.ick_job.specs.Values.{AreGiven, AreValues};

use crate::words::description::{Description, program_of};
use crate::words::values::{flag_value, long_number_value, number_value, text_value};
use clap::{ArgMatches, Error};
use std::alloc::Global;

/// What arguments give: a command's name, if one is named, and the values of its arguments.
#[derive(Clone, Copy)]
pub struct Values<'a> {
    pub command: Option<&'a str>,
    pub file: Option<&'a str>,
    pub choices: Option<&'a str>,
    pub from: Option<&'a str>,
    pub seed: Option<u64>,
    pub limit: Option<u32>,
    pub count: Option<u32>,
    pub input: Option<&'a str>,
    pub trace: bool,
    pub most: Option<u32>,
    pub memory: Option<u64>,
    pub exact: bool,
    pub total: bool,
    pub ends: bool,
    pub states: bool,
    pub asked: Option<&'a str>,
    pub tree: bool,
    pub operations: bool,
    pub parts: bool,
    pub rules: bool,
    pub instructions: bool,
    pub traces: bool,
    pub statement: Option<u32>,
}

/// Returns the values that the arguments of a program give. The arguments come without the
/// program's own name. If the law of clap covers the program and finds no fault in the arguments,
/// only running out of memory can refuse them.
pub fn values_given<'a>(
    alloc: Global,
    program: &Description<'a>,
    commands: &[Description<'a>],
    words: &'a [&'a str],
) -> Result<Values<'a>, Error>
    ensures given { is_simple_and_free (program_app program.now commands.now) ≡ true → IfOk result
        (AreGiven (matches_of (program_app program.now commands.now) (texts words.entry.now))
        (subcommand_of (program_app program.now commands.now) (texts words.entry.now))) }
    ensures law { is_simple_and_free (program_app program.now commands.now) ≡ true → FailsBy
        (fault_of (program_app program.now commands.now) (texts words.entry.now)) result }
{
    let command = program_of(alloc, program, commands)?;
    match command.try_get_matches_from(words) {
        Ok(matches) => Ok(values_in(&matches)),
        Err(error) => Err(error),
    }
}

/// Returns the values that parsed arguments give.
fn values_in<'a>(matches: &ArgMatches<'a>) -> Values<'a>
    ensures { AreGiven (rows_of (found_of matches.now)) (subcommand_rows_of matches.now) result }
{
    match matches.subcommand() {
        Some((name, inner)) => values_of(Some(name), inner),
        None => values_of(None, matches),
    }
}

/// Returns a command's name with the values of its arguments.
fn values_of<'a>(command: Option<&'a str>, matches: &ArgMatches<'a>) -> Values<'a>
    ensures command { result.command ≡ command.entry }
    ensures values { AreValues (rows_of (found_of matches.now)) result }
{
    Values {
        command,
        file: text_value(matches, "file"),
        choices: text_value(matches, "choices"),
        from: text_value(matches, "from"),
        seed: long_number_value(matches, "seed"),
        limit: number_value(matches, "limit"),
        count: number_value(matches, "count"),
        input: text_value(matches, "input"),
        trace: flag_value(matches, "trace"),
        most: number_value(matches, "most"),
        memory: long_number_value(matches, "memory"),
        exact: flag_value(matches, "exact"),
        total: flag_value(matches, "total"),
        ends: flag_value(matches, "ends"),
        states: flag_value(matches, "states"),
        asked: text_value(matches, "asked"),
        tree: flag_value(matches, "tree"),
        operations: flag_value(matches, "operations"),
        parts: flag_value(matches, "parts"),
        rules: flag_value(matches, "rules"),
        instructions: flag_value(matches, "instructions"),
        traces: flag_value(matches, "traces"),
        statement: number_value(matches, "statement"),
    }
}
