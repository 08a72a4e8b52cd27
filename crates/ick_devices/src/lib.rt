//! Devices: what programs read from and write to. A device counts its failures, and contracts see
//! the bytes that it gives or takes.
//!
//! | Module | Contents |
//! |---|---|
//! | `source`, `sink` | sources and sinks of bytes |
//! | `memory` | a source and a sink over memory |
//! | `whole` | the first bytes of a source are read, and a whole text is written |
//! | `feed`, `feed_fault` | the input of a run that is read while the run needs it |
//! | `source_feed` | a source of bytes as such an input |
//! | `files` | files that are opened by name |
#![tactic(auto)]

mod feed;
mod feed_fault;
mod files;
mod memory;
mod sink;
mod source;
mod source_feed;
mod whole;

pub use feed::Feed;
pub use feed_fault::FeedFault;
pub use files::Files;
pub use memory::{SliceSource, VecSink};
pub use sink::ByteSink;
pub use source::{ByteSource, DeviceFault, line_length};
pub use source_feed::SourceFeed;
pub use whole::{ReadFault, read_first, write_whole};
