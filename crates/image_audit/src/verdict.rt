//! What an audit finds.

/// The first part of soundness that does not hold, and the first place where it does not. Slots go by page and then by slot.
#[derive(Clone, Copy, Debug, PartialEq, Eq)]
pub enum Verdict {
    /// The cells are sound.
    Sound,
    /// The header cells of this slot lie below no valid word.
    Header {
        page: u32,
        slot: u32,
    },
    /// The seq of this valid header stands in a later one too, the first such.
    SameSeq {
        page: u32,
        slot: u32,
        other_page: u32,
        other_slot: u32,
    },
    /// Every block has a live record.
    NoSpare,
    /// The seq of this valid header is `2^62 + 2^20` or more.
    Number {
        page: u32,
        slot: u32,
    },
}
