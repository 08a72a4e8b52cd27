//! Texts in double quotes.

ghost use Rattle.std.specs.Prelude.{◌≡◌, ◌<◌, ◌≤◌, ◌+◌, ◌++◌, ◌∷◌, [], length, take, true};
ghost use Rattle.std.specs.Prelude.{OnOk, IfOk, OnErr, vec_len, vec_capacity};
ghost use Rattle.std.specs.List.{flat_map};
ghost use Rattle.ick_bits.specs.Quoted.{quoted, escaped, hex_glyph};

use crate::memory::NoMemory;
use std::alloc::AllocError;

/// Appends the text in double quotes to `out` (this profile). Byte 10 becomes `\n`, a backslash
/// `\\`, and a double quote `\"`. Each other byte outside 32 to 126 becomes `\x` with two
/// lower-case hexadecimal digits. The remaining bytes stay as they are.
///
/// Returns `NoMemory` only if `out` has no room for all of it and cannot grow. `out` is then
/// unchanged.
pub fn append_quoted(out: &mut Vec<u8>, text: &[u8]) -> Result<(), NoMemory>
    ensures ok { OnOk result (out.new.items ≡ out.old.items ++ quoted text.now) }
    ensures err { OnErr result (out.new.items ≡ out.old.items) }
    ensures full { let whole = quoted text.now in
        OnErr result (vec_capacity out.old < vec_len out.old + length whole) }
    ensures capacity { vec_capacity out.old ≤ vec_capacity out.new }
{
    let start = out.len();
    if push_quoted(out, text).is_err() {
        out.truncate(start);
        return Err(NoMemory);
    }
    Ok(())
}

/// Appends the quoted text, or a prefix of it if memory is refused. Copies stretches of plain bytes
/// at once, which is faster than byte by byte.
#[tactic(auto, unfolding(crate::specs::Quoted::quoted))]
fn push_quoted(out: &mut Vec<u8>, text: &[u8]) -> Result<(), AllocError>
    ensures ok { OnOk result (out.new.items ≡ out.old.items ++ quoted text.now) }
    ensures err { OnErr result (take (vec_len out.old) out.new.items ≡ out.old.items) }
    ensures full { let whole = quoted text.now in
        OnErr result (vec_capacity out.old < vec_len out.old + length whole) }
    ensures capacity { vec_capacity out.old ≤ vec_capacity out.new }
{
    out.extend_from_slice(b"\"")?;
    let mut done = 0;
    while done < text.len() {
        done += push_stretch(out, &text[done..])?;
    }
    out.extend_from_slice(b"\"")
}

/// Appends the escapes of the first bytes of `rest`, or nothing if memory is refused. Returns their
/// number: all bytes up to one that may not be plain, or that byte alone.
fn push_stretch(out: &mut Vec<u8>, rest: &[u8]) -> Result<usize, AllocError>
    requires { 0 < length rest.now }
    ensures some { IfOk result (λ count. 0 < count) }
    ensures within { IfOk result (λ count. count ≤ length rest.now) }
    ensures ok { IfOk result (λ count.
        out.new.items ≡ out.old.items ++ flat_map escaped (take count rest.now)) }
    ensures err { OnErr result (out.new.items ≡ out.old.items) }
    ensures full { let whole = flat_map escaped rest.now in
        OnErr result (vec_capacity out.old < vec_len out.old + length whole) }
    ensures capacity { vec_capacity out.old ≤ vec_capacity out.new }
{
    let plain = plain_length(rest);
    if plain == 0 {
        push_escaped(out, rest[0])?;
        return Ok(1);
    }
    out.extend_from_slice(&rest[..plain])?;
    Ok(plain)
}

/// Returns a number of first bytes that all stand for themselves. Tests four bytes at a time while
/// it can.
fn plain_length(rest: &[u8]) -> usize
    ensures within { result ≤ length rest.now }
    ensures plain { flat_map escaped (take result rest.now) ≡ take result rest.now }
{
    let mut count = 0;
    while rest.len() - count >= 4 && begins_with_four_plain(&rest[count..]) {
        count += 4;
    }
    while count < rest.len() && is_plain(rest[count]) {
        count += 1;
    }
    count
}

/// Returns whether each of the first four bytes is written as it is, without an escape.
#[inline(always)]
fn begins_with_four_plain(rest: &[u8]) -> bool
    requires { 4 ≤ length rest.now }
    ensures { result ≡ true → flat_map escaped (take 4 rest.now) ≡ take 4 rest.now }
{
    is_plain(rest[0]) && is_plain(rest[1]) && is_plain(rest[2]) && is_plain(rest[3])
}

/// Returns whether the byte is written as it is, without an escape.
#[inline(always)]
fn is_plain(byte: u8) -> bool
    ensures { result ≡ true → escaped byte ≡ byte ∷ [] }
{
    PLAIN[byte as usize] == 1
}

/// For each byte, 1 if it is written as it is, and 0 if it is escaped.
static PLAIN: [u8; 256] = [
    0, 0, 0, 0, 0, 0, 0, 0, 0, 0, 0, 0, 0, 0, 0, 0, 0, 0, 0, 0, 0, 0, 0, 0, 0, 0, 0, 0, 0, 0, 0, 0,
    1, 1, 0, 1, 1, 1, 1, 1, 1, 1, 1, 1, 1, 1, 1, 1, 1, 1, 1, 1, 1, 1, 1, 1, 1, 1, 1, 1, 1, 1, 1, 1,
    1, 1, 1, 1, 1, 1, 1, 1, 1, 1, 1, 1, 1, 1, 1, 1, 1, 1, 1, 1, 1, 1, 1, 1, 1, 1, 1, 1, 0, 1, 1, 1,
    1, 1, 1, 1, 1, 1, 1, 1, 1, 1, 1, 1, 1, 1, 1, 1, 1, 1, 1, 1, 1, 1, 1, 1, 1, 1, 1, 1, 1, 1, 1, 0,
    0, 0, 0, 0, 0, 0, 0, 0, 0, 0, 0, 0, 0, 0, 0, 0, 0, 0, 0, 0, 0, 0, 0, 0, 0, 0, 0, 0, 0, 0, 0, 0,
    0, 0, 0, 0, 0, 0, 0, 0, 0, 0, 0, 0, 0, 0, 0, 0, 0, 0, 0, 0, 0, 0, 0, 0, 0, 0, 0, 0, 0, 0, 0, 0,
    0, 0, 0, 0, 0, 0, 0, 0, 0, 0, 0, 0, 0, 0, 0, 0, 0, 0, 0, 0, 0, 0, 0, 0, 0, 0, 0, 0, 0, 0, 0, 0,
    0, 0, 0, 0, 0, 0, 0, 0, 0, 0, 0, 0, 0, 0, 0, 0, 0, 0, 0, 0, 0, 0, 0, 0, 0, 0, 0, 0, 0, 0, 0, 0,
];

/// Appends the escape of one byte, or nothing if memory is refused.
#[tactic(auto, unfolding(crate::specs::Quoted::escaped))]
fn push_escaped(out: &mut Vec<u8>, byte: u8) -> Result<(), AllocError>
    ensures ok { OnOk result (out.new.items ≡ out.old.items ++ escaped byte) }
    ensures err { OnErr result (out.new.items ≡ out.old.items) }
    ensures full { OnErr result (vec_capacity out.old < vec_len out.old + length (escaped byte)) }
    ensures capacity { vec_capacity out.old ≤ vec_capacity out.new }
{
    match byte {
        b'\n' => out.extend_from_slice(b"\\n"),
        b'\\' => out.extend_from_slice(b"\\\\"),
        b'"' => out.extend_from_slice(b"\\\""),
        32..=126 => out.extend_from_slice(&[byte]),
        _ => out.extend_from_slice(&[b'\\', b'x', hex_digit(byte / 16), hex_digit(byte % 16)]),
    }
}

/// Returns the lower-case hexadecimal digit of a number below 16.
fn hex_digit(digit: u8) -> u8
    requires { digit < 16 }
    ensures { result ≡ hex_glyph digit }
{
    if digit < 10 {
        b'0' + digit
    } else {
        b'a' + (digit - 10)
    }
}
