//! Reads rows of tests from a text, and counts which of them hold.
//!
//! A row is a paragraph. Its first line is the row's name. Each further line is a field: a word, a
//! space, and the value to the end of the line. In a value `\n`, `\\` and `\xhh` are bytes, and
//! `\{N:TEXT}` is TEXT N times. A line that begins with `-- ` is a comment.
//!
//! - `values`: the bytes that a value is written for
//! - `rows`: rows, and how a text is cut into them
//! - `lines`: the first line of a text
//! - `numbers`: decimal numbers in the fields of a row
//! - `tally`: how many rows hold
#![tactic(auto)]

mod lines;
mod numbers;
mod rows;
mod tally;
mod values;

pub use lines::first_line;
pub use numbers::{decimal, short_decimal};
pub use rows::{Row, read_rows};
pub use tally::Tally;
