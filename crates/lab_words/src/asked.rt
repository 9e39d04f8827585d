//! What is asked of a laboratory.
use die_image::ImageHead;
use lab_lines::Kind;

/// Where the lines come from.
#[derive(Clone, Copy, Debug, PartialEq, Eq)]
pub enum LinesFrom {
    /// Standard input.
    Stream,
    /// `count` of them are drawn from the seed, of which about `idle` of a thousand are idle ones.
    Drawn {
        kind: Kind,
        seed: u64,
        count: u64,
        idle: u32,
    },
}

/// What is told beside the tables.
#[derive(Clone, Copy, Debug, PartialEq, Eq)]
pub enum Voice {
    /// Each reply.
    Loud,
    Quiet,
    /// On standard error, how far the run has come.
    Progress,
}

/// What a blank die is made of.
#[derive(Clone, Copy, Debug, PartialEq, Eq)]
pub enum DieKind {
    /// One die, no block of which goes bad.
    Plain,
    /// A die with so many reserve blocks, each `bad`-th erase of which makes its block bad.
    Worn { reserve: u32, bad: u32 },
    /// Two dies, each with half of the blocks, as one.
    Pair,
}

/// A blank die, with what it says of its device.
#[derive(Clone, Copy, Debug, PartialEq, Eq)]
pub struct AskedDie {
    pub head: ImageHead,
    pub kind: DieKind,
}

/// On which die the lines are played.
#[derive(Clone, Copy, Debug, PartialEq, Eq)]
pub enum DieFrom {
    /// A blank one, in memory.
    Blank(AskedDie),
    /// The die of an image, as the command `run` of `rssd` takes it.
    Image,
}

/// What is asked of a laboratory: lines, a row after each `every` of them, and a die.
#[derive(Clone, Copy, Debug, PartialEq, Eq)]
pub struct Asked {
    pub from: LinesFrom,
    pub voice: Voice,
    pub every: u64,
    pub die: DieFrom,
}
