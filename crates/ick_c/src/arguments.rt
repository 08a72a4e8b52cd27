//! The arguments that bytes hold.
ghost use Rattle.std.specs.Prelude.{◌≡◌, ◌<◌, ◌++◌, ◌∷◌, ℕ, List, Err, None, IfOk, IfSome, length};
ghost use Rattle.std.specs.Prelude.{false, true};
ghost use Rattle.clap.specs.Walk.{texts};
ghost use Rattle.clap.specs.Words.{Text};
ghost use Rattle.std.specs.Str.Iter.{LacksByte};
ghost use Rattle.ick_c.specs.Arguments.{Holds, IsArgument};

use ick_job::WordsFault;
use std::alloc::{AllocError, Global};
use std::str;

/// Returns the bytes in front of the first byte 0, and those behind it. Returns `None` if there is
/// no byte 0.
fn split_at_zero(bytes: &[u8]) -> Option<(&[u8], &[u8])>
    ensures shorter { IfSome result (λ p. length p.1.now < length bytes.now) }
    ensures whole { IfSome result (λ p. p.0.now ++ (0 ∷ p.1.now) ≡ bytes.now) }
    ensures first { IfSome result (λ p. LacksByte 0 p.0.now) }
    ensures none { result ≡ None → LacksByte 0 bytes.now }
{
    let at = bytes.iter().position(|b| *b == 0)?;
    Some((&bytes[..at], &bytes[at + 1..]))
}

/// Returns the argument at the front of bytes, and the bytes behind its byte 0. Returns `None` if
/// no argument is there.
fn first_argument(bytes: &[u8]) -> Option<(&str, &[u8])>
    ensures shorter { IfSome result (λ p. length p.1.now < length bytes.now) }
    ensures whole { IfSome result (λ p. p.0.now ++ (0 ∷ p.1.now) ≡ bytes.now) }
    ensures argument { IfSome result (λ p. IsArgument p.0.now) }
    ensures none { result ≡ None → (text rest : List ℕ) → IsArgument text
        → ¬ (text ++ (0 ∷ rest) ≡ bytes.now) }
{
    let (front, behind) = split_at_zero(bytes)?;
    let Ok(text) = str::from_utf8(front) else {
        return None;
    };
    Some((text, behind))
}

/// Returns whether the bytes hold arguments. This call takes no memory.
fn has_arguments(bytes: &[u8]) -> bool
    ensures some { result ≡ true → (arguments : List Text) × Holds bytes.now arguments }
    ensures none { result ≡ false → (arguments : List Text) → ¬ Holds bytes.now arguments }
{
    let mut rest = bytes;
    while !rest.is_empty() {
        let Some((_, behind)) = first_argument(rest) else {
            return false;
        };
        rest = behind;
    }
    true
}

/// Returns the arguments of bytes that hold arguments.
fn list_of(alloc: Global, bytes: &[u8]) -> Result<Vec<&str>, AllocError>
    requires { (arguments : List Text) × Holds bytes.now arguments }
    ensures { IfOk result (λ list. Holds bytes.entry.now (texts list.items)) }
{
    let mut list = Vec::new(alloc);
    let mut rest = bytes;
    while !rest.is_empty() {
        let Some((argument, behind)) = first_argument(rest) else {
            unreachable!();
        };
        list.push(argument)?;
        rest = behind;
    }
    Ok(list)
}

/// Returns the arguments that the bytes hold. The answer is `NotText` if they hold none, and else
/// `NoMemory` if the list can't grow.
pub fn arguments_in(alloc: Global, bytes: &[u8]) -> Result<Vec<&str>, WordsFault>
    ensures ok { IfOk result (λ list. Holds bytes.entry.now (texts list.items)) }
    ensures not_text { result ≡ Err WordsFault.NotText → (arguments : List Text)
        → ¬ Holds bytes.entry.now arguments }
    ensures no_memory { result ≡ Err WordsFault.NoMemory → (arguments : List Text)
        × Holds bytes.entry.now arguments }
{
    if !has_arguments(bytes) {
        return Err(WordsFault::NotText);
    }
    match list_of(alloc, bytes) {
        Ok(list) => Ok(list),
        Err(_) => Err(WordsFault::NoMemory),
    }
}
