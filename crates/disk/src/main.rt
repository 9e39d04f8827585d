//! A disk in a file: the file is a die image, and the disk is served over standard input and output by the NBD protocol.
#![tactic(auto)]

mod by_scheme;
mod files;
mod status;
mod words;

use status::{Status, tell};
use std::process::ExitCode;
use words::{Asked, read_asked};

/// Answers the words.
fn answer(rt: &HostRuntime) -> Result<Status, Status> {
    let Asked {
        name,
        made,
        cut,
        sync,
    } = read_asked(rt)?;
    if let Some(head) = made {
        files::make(rt, name.as_str(), &head)?;
    }
    let (head, die) = files::open(rt, name.as_str(), sync, cut)?;
    by_scheme::serve_with(rt, &head, die)
}

fn main(rt: HostRuntime) -> ExitCode {
    let status = match answer(&rt) {
        Ok(status) | Err(status) => status,
    };
    tell(&rt, status);
    ExitCode::from(status.number())
}
