//! The nine schemes, each with the campaign on it.

use crate::campaign::{Share, run};
use crate::counts::Counts;
use crate::stop::Stop;
use schemes::{cosets, flips, pairs, plains, sevens};
use std::alloc::{AllocError, Global};
use striped::Scheme;

/// The names of the schemes.
pub const NAMES: [&str; 9] = [
    "plain16", "rs16", "coset16", "flip16", "ham16", "rs512", "coset512", "flip512", "ham512",
];

/// The campaign with a scheme that was made, or for which there was no memory.
fn run_made<C: Scheme + Drop>(
    alloc: Global,
    made: Result<C, AllocError>,
    share: Share,
    counts: &mut Counts,
) -> Result<(), Stop> {
    run(alloc, made?, share, counts)
}

/// The campaign on the scheme of this name, if there is one.
pub fn run_named(
    alloc: Global,
    name: &str,
    share: Share,
    counts: &mut Counts,
) -> Option<Result<(), Stop>> {
    Some(match name {
        "plain16" => run_made(alloc, plains(alloc, 16), share, counts),
        "rs16" => run_made(alloc, pairs(alloc, 16), share, counts),
        "rs512" => run_made(alloc, pairs(alloc, 512), share, counts),
        "coset16" => run_made(alloc, cosets(alloc, 16), share, counts),
        "coset512" => run_made(alloc, cosets(alloc, 512), share, counts),
        "flip16" => run_made(alloc, flips(alloc, 16), share, counts),
        "flip512" => run_made(alloc, flips(alloc, 512), share, counts),
        "ham16" => run_made(alloc, sevens(alloc, 16), share, counts),
        "ham512" => run_made(alloc, sevens(alloc, 512), share, counts),
        _ => return None,
    })
}
