//! Numerals, and the letters that they have.

use crate::failure::Failure;
use crate::fields::number_32;
use crate::texts::Text;
use ick_bits::Symbol;
use test_rows::Row;

/// Appends the two lines of a numeral.
pub fn numeral(row: &Row, out: &mut Text) -> Result<(), Failure> {
    out.append_numeral(number_32(row, b"number")?);
    Ok(())
}

/// Appends how many letters a numeral has, and which.
pub fn letters(row: &Row, out: &mut Text) -> Result<(), Failure> {
    let symbols = ick_bits::numeral(number_32(row, b"number")?);
    append_symbols(out, symbols.as_slice());
    Ok(())
}

/// Appends how many letters there are, and which. `_` marks a letter with a bar.
fn append_symbols(out: &mut Text, symbols: &[Symbol]) {
    out.append_decimal(symbols.len() as u64);
    out.append(b" letters:");
    for symbol in symbols {
        out.push(b' ');
        if symbol.barred {
            out.push(b'_');
        }
        out.push(symbol.letter);
    }
}
