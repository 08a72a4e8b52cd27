//! The program `ick-outcomes`: lists the outcomes of a program of INTERCAL-72, over the files and
//! the streams of the system.
//!
//! - `screen`: the error stream with reports of long work
//! - `serving`: the arguments answered over any devices
#![tactic(auto)]

mod screen;
mod serving;

use ick_system::{DiskFiles, InStream, OutStream, arguments, exit_code};
use screen::Screen;
use serving::answer;
use std::io::{IsTerminal, Lock};
use std::process::ExitCode;

fn main(rt: HostRuntime) -> ExitCode {
    let arguments = arguments(&rt);
    let mut files = DiskFiles::new(&rt);
    let mut listings = DiskFiles::new(&rt);
    let mut reader = InStream::new(rt.stdin().lock());
    let mut writer = OutStream::new(rt.stdout());
    let terminal = rt.stderr().is_terminal();
    let messages = OutStream::new(rt.stderr());
    let lines = OutStream::new(rt.stderr());
    let mut errors = Screen::new(rt.alloc(), messages, lines, terminal);
    exit_code(answer(
        rt.alloc(),
        arguments,
        &mut files,
        &mut listings,
        &mut reader,
        &mut writer,
        &mut errors,
    ))
}
