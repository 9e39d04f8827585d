//! How the sectors of a workload are chosen.

/// How the sectors of a workload are chosen.
#[derive(Clone, Copy, Debug, PartialEq, Eq)]
pub enum Kind {
    /// Each sector is as likely as any other.
    Uniform,
    /// Nine of ten draws fall on the first tenth of the sectors, the tenth on all of them.
    Hot,
    /// Sector k is as likely as 1 to k + 1, by a table.
    Zipf,
    /// One sector after another, and then from the first one again.
    Sequential,
    /// As `Uniform`, but of sixteen lines five read and one trims.
    Mixed,
}
