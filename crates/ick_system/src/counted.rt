//! Reads and writes of the system that count their failures. Any error is a failure, an
//! interruption too; nothing is tried again.
ghost use Rattle.std.specs.Prelude.{◌≡◌, ◌≢◌, ◌+◌, ◌<◌, ◌≤◌, ◌^◌, ℕ};
ghost use Rattle.std.specs.Prelude.{if◌then◌else◌, IfOk, OnErr, OnSome, is_ok, length};
ghost use Rattle.std.specs.Prelude.{slice_index, take};
ghost use Rattle.std.specs.Io.KnownBytes.{Consumes, IsAtEnd, Keeps, ReadConsumes, WriteAppends};

use ick_devices::{DeviceFault, line_length};
use std::io::{BufRead, Read, Write};

/// Reads some bytes. If the target isn't empty and no byte comes, the stream has ended.
pub fn read_from<R: Read>(
    stream: &mut R,
    failures: &mut u64,
    target: &mut [u8],
) -> Result<usize, DeviceFault>
    requires { failures.old + 1 < 2 ^ 64 }
    ensures count { failures.new ≡ failures.old + (if is_ok result then 0 else 1) }
    ensures fits { IfOk result (λ n. n ≤ length target.old) }
    ensures bytes { ReadConsumes (R.remaining stream.old) (R.remaining stream.new)
        result target.new }
{
    match stream.read(target) {
        Ok(count) => Ok(count),
        Err(_) => {
            *failures += 1;
            Err(DeviceFault)
        }
    }
}

/// Reads some of the bytes that a stream has read ahead, and no byte behind the first byte 10. The
/// stream reads ahead only if no such byte is left. If the target isn't empty and no byte comes,
/// the stream has ended.
pub fn read_ahead_from<R: BufRead>(
    stream: &mut R,
    failures: &mut u64,
    target: &mut [u8],
) -> Result<usize, DeviceFault>
    requires { failures.old + 1 < 2 ^ 64 }
    ensures count { failures.new ≡ failures.old + (if is_ok result then 0 else 1) }
    ensures fits { IfOk result (λ n. n ≤ length target.old) }
    ensures line { IfOk result (λ n. (k : ℕ) → k + 1 < n → slice_index target.new k ≢ 10) }
    ensures bytes { IfOk result (λ n.
        Consumes (R.remaining stream.old) (R.remaining stream.new) (take n target.new)) }
    ensures end { IfOk result (λ n. n ≡ 0 → 0 < length target.old →
        OnSome (R.remaining stream.old) (IsAtEnd (R.remaining stream.new))) }
    ensures kept { OnErr result (Keeps (R.remaining stream.old) (R.remaining stream.new)) }
{
    let Ok(ahead) = stream.fill_buf() else {
        *failures += 1;
        return Err(DeviceFault);
    };
    let most = ahead.len().min(target.len());
    // A byte alone is copied without a search for the end of the line.
    if most == 1 {
        target[..1].copy_from_slice(&ahead[..1]);
        stream.consume(1);
        return Ok(1);
    }
    let count = line_length(&ahead[..most]);
    target[..count].copy_from_slice(&ahead[..count]);
    stream.consume(count);
    Ok(count)
}

/// Writes some bytes of the front of a text. A write of no byte is a failure if the text isn't
/// empty.
pub fn write_to<W: Write>(
    stream: &mut W,
    failures: &mut u64,
    text: &[u8],
) -> Result<usize, DeviceFault>
    requires { failures.old + 1 < 2 ^ 64 }
    ensures count { failures.new ≡ failures.old + (if is_ok result then 0 else 1) }
    ensures fits { IfOk result (λ n. n ≤ length text.now) }
    ensures gains { IfOk result (λ n. 0 < length text.now → 0 < n) }
    ensures bytes { WriteAppends (W.contents stream.old) (W.contents stream.new) result text.now }
{
    if text.is_empty() {
        return Ok(0);
    }
    match stream.write(text) {
        Ok(count) if 0 < count => Ok(count),
        _ => {
            *failures += 1;
            Err(DeviceFault)
        }
    }
}
