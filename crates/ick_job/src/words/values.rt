//! The values that options were given, by the parsed arguments of a command.
ghost use Rattle.std.specs.Prelude.{◌≡◌, option_map};
ghost use Rattle.clap.specs.Words.{found_of, rows_of};
ghost use Rattle.ick_job.specs.Values.{flag_in, number_in, text_in};

use clap::ArgMatches;

/// Returns the text that an option was given.
pub fn text_value<'a>(matches: &ArgMatches<'a>, id: &str) -> Option<&'a str>
    ensures { option_map (λ s. s.now) result ≡ text_in id.now (rows_of (found_of matches.now)) }
{
    matches.get_str(id)
}

/// Returns whether a flag was given.
pub fn flag_value(matches: &ArgMatches<'_>, id: &str) -> bool
    ensures { result ≡ flag_in id.now (rows_of (found_of matches.now)) }
{
    match text_value(matches, id) {
        Some(given) => given == "true",
        None => false,
    }
}

/// Returns the number of up to 32 bits that an option was given.
pub fn number_value(matches: &ArgMatches<'_>, id: &str) -> Option<u32>
    ensures { result ≡ number_in 32 id.now (rows_of (found_of matches.now)) }
{
    matches.get_one::<u32>(id)
}

/// Returns the number of up to 64 bits that an option was given.
pub fn long_number_value(matches: &ArgMatches<'_>, id: &str) -> Option<u64>
    ensures { result ≡ number_in 64 id.now (rows_of (found_of matches.now)) }
{
    matches.get_one::<u64>(id)
}
