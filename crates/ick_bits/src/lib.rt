//! The lowest layer of `ick`: numbers, their operators and notations, and the messages of faults.
//!
//! Nothing here knows statements, variables or runs. Each function equals a definition that the
//! layers above cite.
//!
//! | Module | Contents |
//! |---|---|
//! | `values` | numbers of 16 and of 32 bits |
//! | `operators` | mingle, select and the unary operators |
//! | `tables` | the operators on a few bits at a time, which make `operators` fast |
//! | `numerals` | the letters of a number, with their bars |
//! | `printing` | the two printed lines of a numeral |
//! | `rows` | the two lines of each digit, which make `printing` fast |
//! | `digits` | lines of digit names |
//! | `faults` | the kinds of faults and their messages |
//! | `quoted` | texts in double quotes |
//! | `tape` | bytes as arrays hold them |
//! | `appending` | bytes at the end of a text, all or none |
//! | `white` | the bytes that separate words |
//! | `memory` | the error for out of memory |
#![tactic(auto)]

mod appending;
mod digits;
mod faults;
mod memory;
mod numerals;
mod operators;
mod printing;
mod quoted;
mod rows;
mod tables;
mod tape;
mod values;
mod white;

pub use appending::{append_all, append_decimal};
pub use digits::{DigitFault, digits_value};
pub use faults::{Fault, FaultKind, append_message};
pub use memory::NoMemory;
pub use numerals::{Symbol, numeral};
pub use operators::{alternated, mingle, select, unary_and, unary_or, unary_xor};
pub use printing::append_numeral;
pub use quoted::append_quoted;
pub use tape::{tape_in, tape_out};
pub use values::{Value, Width};
pub use white::is_white;
