//! Rows, and how a text is cut into them.

use crate::values::value_of;
use ick_bits::NoMemory;
use std::alloc::Global;

/// A field of a row: a word and its value.
#[derive(Drop)]
struct Field {
    word: Vec<u8>,
    value: Vec<u8>,
}

/// A row of a test: its name and its fields.
#[derive(Drop)]
pub struct Row {
    name: Vec<u8>,
    fields: Vec<Field>,
}

impl Row {
    /// Returns the row's name.
    pub fn name(&self) -> &[u8] {
        self.name.as_slice()
    }

    /// Returns the value of the first field with this word, or an empty value if there is none.
    pub fn field(&self, word: &[u8]) -> &[u8] {
        for field in self.fields.iter() {
            if field.word.as_slice() == word {
                return field.value.as_slice();
            }
        }
        b""
    }

    /// Returns whether the row makes the call of this name, by its field `call`.
    pub fn calls(&self, name: &[u8]) -> bool {
        self.field(b"call") == name
    }
}

/// Returns the field that a line is written for.
fn field_of(alloc: Global, line: &[u8]) -> Result<Field, NoMemory> {
    let mut parts = line.splitn(2, |byte| *byte == b' ');
    let word = parts.next().unwrap_or(b"");
    let written = parts.next().unwrap_or(b"");
    Ok(Field {
        word: Vec::from_slice(alloc, word)?,
        value: value_of(alloc, written)?,
    })
}

/// Reads the rows of a text.
pub fn read_rows(alloc: Global, text: &[u8]) -> Result<Vec<Row>, NoMemory> {
    let mut rows: Vec<Row> = Vec::new(alloc);
    let mut inside = false;
    for line in text.split(|byte| *byte == b'\n') {
        if line.starts_with(b"-- ") {
            continue;
        }
        if line.is_empty() {
            inside = false;
        } else if !inside {
            inside = true;
            rows.push(Row {
                name: Vec::from_slice(alloc, line)?,
                fields: Vec::new(alloc),
            })?;
        } else if let Some(row) = rows.last_mut() {
            row.fields.push(field_of(alloc, line)?)?;
        }
    }
    Ok(rows)
}
