//! The program `gp`: words of the command line, standard input and standard output in, an exit status out.
//! What it does with them is `gp_app::run`; this file hands it the real world and reports its status.
#![tactic(auto)]

mod report;
mod words;

use gp_app::{Status, run};
use gp_base::{ReadSource, WriteOut};
use gp_disk::FileDisk;
use report::{exit_number, report};
use std::io;
use std::process::ExitCode;
use words::read_words;

/// The file of the current folder that holds the disk.
const DISK: &str = "gp.disk";

/// Runs the program. Standard error has the text of a status that isn't Done, after `gp: `.
fn main(rt: HostRuntime) -> ExitCode {
    let status = run_with(&rt);
    report(&rt, status);
    ExitCode::from(exit_number(status))
}

// The status of a run with the words of the command line over standard input, standard output and the disk.
fn run_with(rt: &HostRuntime) -> Status {
    let words = match read_words(rt) {
        Ok(words) => words,
        Err(status) => return status,
    };
    let Ok(disk) = FileDisk::at(rt, rt.alloc(), DISK) else {
        return Status::NoMemory;
    };
    let mut source = ReadSource::new(rt.stdin());
    let mut out = WriteOut::new(io::writer(rt));
    let (status, _disk, _world) = run(rt.alloc(), &words, &mut source, &mut out, disk);
    status
}
