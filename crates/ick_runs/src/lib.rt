//! Runs a program once, in three ways: the choices of a run are given or drawn by a seed, and its
//! input and output are texts or streams. The crate passes on the explorer, which lists every run.
//!
//! | Module | Contents |
//! |---|---|
//! | `ordinary` | one run with given choices |
//! | `draws`, `seeded` | one run whose choices a seed draws |
//! | `chooser`, `drive` | the choices of a run, from a list or a seed, and a run by them |
//! | `sink_outlet` | a sink of bytes as the outlet of a machine |
//! | `streamed` | one run whose input and output are streams |
//! | `laws` | the law of draws |
#![tactic(auto)]

mod chooser;
mod draws;
mod drive;
mod laws;
mod ordinary;
mod seeded;
mod sink_outlet;
mod streamed;

pub use chooser::Chooser;
pub use draws::drawn;
pub use ick_devices::{ByteSink, ByteSource, DeviceFault, SliceSource, VecSink};
pub use ick_explorer::{
    Cursor, Explorer, Listed2, Run, RunsError, one_listing, one_order, one_reading,
    runs_are_limited, write_runs,
};
pub use laws::one_drawing;
pub use ordinary::{Ran, run_from, run_with};
pub use seeded::{Drawn, run_seeded, run_seeded_from};
pub use streamed::{Streamed, run_fed, run_stream};
