//! The program of the laboratory: its words, standard input and output, and the files `die.img` and `die.new` of the current folder go
//! to one call, and the status that it answers is the program's. How far a run has come is told on standard error, about once a second.
#![tactic(auto)]

mod clock;

use clock::Clocked;
use rssd_io::{BufSink, FileSink, FileSource, StdSink, StdSource};
use rssd_lab::{Sources, main_of};
use std::process::ExitCode;
use std::{env, io};

/// The words of the command line, without the program's name.
fn words(rt: &HostRuntime) -> io::Result<Vec<String>> {
    let mut words = Vec::new(rt.alloc());
    for word in env::args(rt)?.skip(1) {
        words.push(word)?;
    }
    Ok(words)
}

fn main(rt: HostRuntime) -> ExitCode {
    let words = words(&rt);
    let from = Sources {
        lines: StdSource::new(rt.stdin()),
        image: FileSource::new(&rt, "die.img"),
    };
    let mut out = BufSink::new(StdSink::new(rt.stdout()));
    let mut image_out = FileSink::new(&rt, "die.new");
    let pace = match &words {
        Ok(words) => Clocked::new(&rt, words),
        Err(_) => Clocked::new(&rt, &[]),
    };
    let outcome = main_of(rt.alloc(), words, from, &mut out, &mut image_out, pace);
    ExitCode::from(outcome.status)
}
