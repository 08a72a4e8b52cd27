//! Quotes outputs one after another.

ghost use Rattle.std.specs.Prelude.{◌≡◌, ◌+◌, ◌≤◌, length, OnOk};
ghost use Rattle.std.specs.List.{flat_map};
ghost use Rattle.ick_bits.specs.Quoted.{escaped, quoted};

use crate::comparing::same_bytes;
use ick_bits::{NoMemory, append_quoted};

/// Returns how many bytes stand for a byte in a quoted text.
#[tactic(auto, unfolding(ick_bits::specs::Quoted::escaped))]
fn escaped_length(byte: u8) -> usize
    ensures { result ≡ length (escaped byte) }
{
    if byte == 10 || byte == 92 || byte == 34 {
        return 2;
    }
    if byte < 32 || byte > 126 {
        return 4;
    }
    1
}

/// Returns a length less the number of bytes that stand for these bytes in a quoted text.
fn without(from: usize, bytes: &[u8]) -> usize
    requires { length (flat_map escaped bytes.now) ≤ from }
    ensures { result + length (flat_map escaped bytes.now) ≡ from }
{
    let mut kept = from;
    'bytes: for byte in bytes {
        kept -= escaped_length(*byte);
    }
    kept
}

/// Writes the quoted text of an output in place of that of the last one. The text of the bytes with
/// which both begin stays.
pub(crate) fn renew_quoted(text: &mut Vec<u8>, last: &[u8], output: &[u8]) -> Result<(), NoMemory>
    requires { text.old.items ≡ quoted last.now }
    ensures { OnOk result (text.new.items ≡ quoted output.now) }
{
    let same = same_bytes(last, output);
    let open = text.len() - 1;
    let kept = without(open, &last[same..]);
    text.truncate(kept);
    append_quoted(text, &output[same..])?;
    // Another quotation mark is in front of the bytes that were appended.
    text.remove(kept);
    Ok(())
}
