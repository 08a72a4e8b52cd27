//! Reads a source text: cuts it into statements and recognises their bodies, or refuses it.
//!
//! Readers at a position of a text:
//!
//! - `bytes`, `boundaries`, `qualifiers`: bytes, starts and ends of statements, and their heads
//! - `lead`, `position`, `token`: characters, numbers and words, with `!` as two characters
//! - `parsed`, `cursor`: answers of readers; a reader that keeps its first refusal
//! - `expression`, `part`, `verb`, `body`: expressions, the parts of bodies, and bodies
//! - `body_bytes`: a body between bytes
//! - `statement_reader`: a statement
//! - `source`: the whole of a text
//!
//! Refusals:
//!
//! - `refusals`: the reasons
//! - `ranges`, `labels`, `politeness`: numbers out of range, labels, and politeness
//! - `programs`: refuses statements that make no program
//!
//! Statements and all faults of a text that may be refused:
//!
//! - `digits`, `label_digits`: the digits by which labels of any size are compared
//! - `seen`: a statement and the digits of its labels, and all statements of a text
//! - `survey`, `all_faults`: decides which faults a statement has, and lists all of them
//! - `statements`: the whole of a text
//!
//! `listing` appends the lines of a program.
//!
//! `laws` states laws of every text.
#![tactic(auto)]

mod all_faults;
mod body;
pub mod body_bytes;
pub mod boundaries;
pub mod bytes;
mod cursor;
mod digits;
pub mod expression;
mod label_digits;
mod labels;
mod laws;
pub mod lead;
mod listing;
pub mod parsed;
pub mod part;
mod politeness;
pub mod position;
mod programs;
pub mod qualifiers;
mod ranges;
mod refusals;
mod seen;
mod source;
pub mod statement_reader;
mod statements;
mod stop;
mod survey;
pub mod token;
pub mod verb;
mod wanted;

pub use all_faults::FaultAt;
pub use ick_syntax::{
    BinaryOp, Body, Element, Expr, Gerund, Item, Kind, Name, NameKind, Place, Program, Statement,
    Target, UnaryOp,
};
pub use laws::{one_body, one_cut, one_reading, one_refusal, one_stop};
pub use listing::append_listing;
pub use refusals::Refusal;
pub use seen::Seen;
pub use source::read_source;
pub use statements::{Listed, read_statements};
pub use stop::{Stop, stop_of};
pub use wanted::Wanted;
