//! The program `ick-step`: steps through a run of a program of INTERCAL-72, over the files and
//! the streams of the system.
//!
//! - `serving`: the arguments answered over any devices
#![tactic(auto)]

mod serving;

use ick_system::{DiskFiles, InStream, OutStream, arguments, exit_code};
use serving::answer;
use std::io::{IsTerminal, Lock};
use std::process::ExitCode;

fn main(rt: HostRuntime) -> ExitCode {
    let arguments = arguments(&rt);
    let mut files = DiskFiles::new(&rt);
    let mut inputs = DiskFiles::new(&rt);
    let terminal = rt.stdin().is_terminal() && rt.stdout().is_terminal();
    let mut reader = InStream::new(rt.stdin().lock());
    let mut writer = OutStream::new(rt.stdout());
    let mut errors = OutStream::new(rt.stderr());
    exit_code(answer(
        rt.alloc(),
        arguments,
        &mut files,
        &mut inputs,
        terminal,
        &mut reader,
        &mut writer,
        &mut errors,
    ))
}
