//! Appends bytes to a text: all of them, or none if memory is refused.

ghost use Rattle.std.specs.Prelude.{◌≤◌, ◌≡◌, ◌<◌, ◌+◌, ◌++◌, decimal};
ghost use Rattle.std.specs.Prelude.{length, OnOk, OnErr, vec_len, vec_capacity};
ghost use Rattle.std.specs.List.{flat_map};

use crate::memory::NoMemory;
use itoa::Buffer;

/// Appends the decimal digits of `number` to `out`, without leading zeros. Zero is `0`.
///
/// Returns `NoMemory` only if `out` has no room for the digits and cannot grow. `out` is then
/// unchanged.
pub fn append_decimal(out: &mut Vec<u8>, number: u64) -> Result<(), NoMemory>
    ensures ok { OnOk result (out.new.items ≡ out.old.items ++ decimal number) }
    ensures err { OnErr result (out.new.items ≡ out.old.items) }
    ensures full { OnErr result (vec_capacity out.old < vec_len out.old + length (decimal number)) }
    ensures capacity { vec_capacity out.old ≤ vec_capacity out.new }
{
    let mut buffer = Buffer::new();
    out.extend_from_slice(buffer.format(number).as_bytes())?;
    Ok(())
}

/// Appends the pieces to `out` in their order.
///
/// Returns `NoMemory` only if `out` has no room for all pieces and cannot grow. `out` is then
/// unchanged.
pub fn append_all(out: &mut Vec<u8>, pieces: &[&[u8]]) -> Result<(), NoMemory>
    ensures ok { OnOk result
        (out.new.items ≡ out.old.items ++ flat_map (λ p. p.now) pieces.now) }
    ensures err { OnErr result (out.new.items ≡ out.old.items) }
    ensures full { let text = flat_map (λ p. p.now) pieces.now in
        OnErr result (vec_capacity out.old < vec_len out.old + length text) }
    ensures capacity { vec_capacity out.old ≤ vec_capacity out.new }
{
    let start = out.len();
    for piece in pieces {
        if out.extend_from_slice(piece).is_err() {
            out.truncate(start);
            return Err(NoMemory);
        }
    }
    Ok(())
}
