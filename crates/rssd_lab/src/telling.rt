//! What is told of a run.
ghost use Rattle.std.specs.Prelude.{◌≤◌};

/// What is told of a run: the replies or not, and a row after each so many lines.
#[derive(Clone, Copy)]
pub struct Telling {
    pub replies: bool,
    pub every: u64,
    ghost some: { 1 ≤ every },
}
