//! The bytes that a value is written for.

use ick_bits::NoMemory;
use std::alloc::Global;

/// What the next byte of a value belongs to.
#[derive(Clone, Copy, Drop)]
enum Part {
    Plain,
    Escape,
    HighDigit,
    LowDigit(u8),
    Count(u32),
    Repeated(u32),
}

/// The number of a hexadecimal digit in lower case. Other bytes are taken for some digit.
fn digit(byte: u8) -> u8 {
    if byte >= b'a' {
        byte.saturating_sub(b'a').saturating_add(10)
    } else {
        byte.saturating_sub(b'0')
    }
}

/// The bytes of `\n`, `\\`, `\xhh` and plain text. A repeated text is left to `value_of`.
fn plain_part(out: &mut Vec<u8>, part: Part, byte: u8) -> Result<Part, NoMemory> {
    match part {
        Part::Escape => match byte {
            b'x' => return Ok(Part::HighDigit),
            b'{' => return Ok(Part::Count(0)),
            b'n' => out.push(b'\n')?,
            _ => out.push(byte)?,
        },
        Part::HighDigit => return Ok(Part::LowDigit(digit(byte))),
        Part::LowDigit(high) => out.push(high.wrapping_mul(16).wrapping_add(digit(byte)))?,
        _ => {
            if byte == b'\\' {
                return Ok(Part::Escape);
            }
            out.push(byte)?
        }
    }
    Ok(Part::Plain)
}

/// Returns the bytes of a written text without repeated parts.
fn plain_value(alloc: Global, written: &[u8]) -> Result<Vec<u8>, NoMemory> {
    let mut out = Vec::new(alloc);
    let mut part = Part::Plain;
    for &byte in written {
        part = plain_part(&mut out, part, byte)?;
    }
    Ok(out)
}

/// Appends a text so many times.
fn append_repeated(out: &mut Vec<u8>, text: &[u8], count: u32) -> Result<(), NoMemory> {
    for _ in 0..count {
        out.extend_from_slice(text)?;
    }
    Ok(())
}

/// Returns the bytes that a value is written for.
pub(crate) fn value_of(alloc: Global, written: &[u8]) -> Result<Vec<u8>, NoMemory> {
    let mut out = Vec::new(alloc);
    let mut repeated = Vec::new(alloc);
    let mut part = Part::Plain;
    for &byte in written {
        part = match part {
            Part::Count(count) => match byte {
                b':' => Part::Repeated(count),
                _ => Part::Count(count.wrapping_mul(10).wrapping_add(digit(byte) as u32)),
            },
            Part::Repeated(count) => match byte {
                b'}' => {
                    let text = plain_value(alloc, repeated.as_slice())?;
                    append_repeated(&mut out, text.as_slice(), count)?;
                    repeated.clear();
                    Part::Plain
                }
                _ => {
                    repeated.push(byte)?;
                    Part::Repeated(count)
                }
            },
            _ => plain_part(&mut out, part, byte)?,
        };
    }
    Ok(out)
}
