//! The program: its words, standard input and output, and the files `die.img` and `die.new` of the current folder go to one
//! call, and the status that it answers is the program's.
#![tactic(auto)]

use rssd_io::{BufSink, FileSink, FileSource, StdSink, StdSource};
use rssd_run::main_of;
use std::process::ExitCode;
use std::{env, io};

/// The words of the command line, without the program's name.
fn words(rt: &HostRuntime) -> io::Result<Vec<String>> {
    let mut words = Vec::new(rt.alloc());
    for word in env::args(rt)?.skip(1) {
        words.push(word)?;
    }
    Ok(words)
}

fn main(rt: HostRuntime) -> ExitCode {
    let mut image = FileSource::new(&rt, "die.img");
    let mut script = StdSource::new(rt.stdin());
    let mut out = BufSink::new(StdSink::new(rt.stdout()));
    let mut image_out = FileSink::new(&rt, "die.new");
    let status = main_of(
        rt.alloc(),
        words(&rt),
        &mut image,
        &mut script,
        &mut out,
        &mut image_out,
    );
    ExitCode::from(status)
}
