//! The arguments that the system hands to the program.
ghost use Rattle.std.specs.Prelude.{◌≡◌, ◌≢◌, IfOk};
ghost use Rattle.clap.specs.Walk.{texts};
ghost use Rattle.ick_system.specs.Arguments.{after_name};

use ick_job::WordsFault;
use std::alloc::{AllocError, Global};
use std::env;
use std::io::ErrorKind;

/// Returns all that the system hands over: the program's own name, and the arguments.
pub fn arguments(rt: &HostRuntime) -> Result<Vec<String>, WordsFault> {
    match env::args(rt) {
        Ok(arguments) => arguments
            .collect::<Vec<String>>(rt.alloc())
            .map_err(|_| WordsFault::NoMemory),
        Err(error) => Err(words_fault(error.kind())),
    }
}

/// Returns why the arguments can't be read: memory ran out, or one of them is no text.
fn words_fault(kind: ErrorKind) -> WordsFault
    ensures memory { kind ≡ ErrorKind.OutOfMemory → result ≡ WordsFault.NoMemory }
    ensures text { kind ≢ ErrorKind.OutOfMemory → result ≡ WordsFault.NotText }
{
    match kind {
        ErrorKind::OutOfMemory => WordsFault::NoMemory,
        _ => WordsFault::NotText,
    }
}

/// Returns the arguments after the program's own name, each of them whole.
pub fn words_of<'a>(alloc: Global, arguments: &'a [String]) -> Result<Vec<&'a str>, AllocError>
    ensures { IfOk result (λ words. texts words.items ≡ after_name arguments.entry.now) }
{
    let mut words = Vec::new(alloc);
    for argument in &arguments[arguments.len().min(1)..] {
        words.push(argument.as_str())?;
    }
    Ok(words)
}
