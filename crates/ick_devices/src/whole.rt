//! Reads the first bytes of a source, and writes a whole text.
ghost use Rattle.std.specs.Prelude.{◌≡◌, ◌+◌, ◌≤◌, ◌<◌, ◌^◌, ◌++◌, ℕ};
ghost use Rattle.std.specs.Prelude.{true, if◌then◌else◌};
ghost use Rattle.std.specs.Prelude.{IfOk, OnOk, is_ok, length, take, drop};
ghost use Rattle.ick_devices.specs.Whole.{read_failures};

use crate::sink::ByteSink;
use crate::source::{ByteSource, DeviceFault};
use std::alloc::Global;

/// Limits the bytes of one read.
const BLOCK: usize = 4096;

/// Tells why a source was not read.
#[derive(Clone, Copy, Debug)]
pub enum ReadFault {
    NoMemory,
    Failed,
}

/// Reads the first `most` bytes of a source, or all its bytes if it has fewer. The answer is
/// `Failed` if a read fails, and then exactly one read has failed. The answer is `NoMemory` if the
/// text can't grow. Each turn of the loop gains a byte or is the last.
///
/// The source's count of failures must be below its greatest value.
pub fn read_first<R: ByteSource>(
    alloc: Global,
    source: &mut R,
    most: usize,
) -> Result<Vec<u8>, ReadFault>
    requires { R.failed source.old + 1 < 2 ^ 64 }
    ensures count { R.failed source.new ≡ R.failed source.old + read_failures result }
    ensures fits { IfOk result (λ text. length text.items ≤ most) }
    ensures front { R.told ≡ true → IfOk result (λ text.
        text.items ≡ take most (R.left source.old)) }
    ensures rest { R.told ≡ true → IfOk result (λ _.
        R.left source.new ≡ drop most (R.left source.old)) }
{
    let mut text = Vec::new(alloc);
    let mut block = [0; BLOCK];
    while text.len() < most {
        let wanted = BLOCK.min(most - text.len());
        let Ok(count) = source.read(&mut block[..wanted]) else {
            return Err(ReadFault::Failed);
        };
        if count == 0 {
            return Ok(text);
        }
        if text.extend_from_slice(&block[..count]).is_err() {
            return Err(ReadFault::NoMemory);
        }
    }
    Ok(text)
}

/// Writes a text whole. If a write fails, the answer is `DeviceFault`, and a prefix of the text is
/// written. Each turn of the loop gains a byte or is the last.
///
/// The sink's count of failures must be below its greatest value.
pub fn write_whole<W: ByteSink>(sink: &mut W, text: &[u8]) -> Result<(), DeviceFault>
    requires { W.failed sink.old + 1 < 2 ^ 64 }
    ensures count { W.failed sink.new ≡ W.failed sink.old + (if is_ok result then 0 else 1) }
    ensures beginning { W.told ≡ true → (n : ℕ) × (n ≤ length text.now)
        × (W.written sink.new ≡ W.written sink.old ++ take n text.now) }
    ensures all { W.told ≡ true
        → OnOk result (W.written sink.new ≡ W.written sink.old ++ text.now) }
{
    let mut at = 0;
    while at < text.len() {
        at += sink.write(&text[at..])?;
    }
    Ok(())
}
