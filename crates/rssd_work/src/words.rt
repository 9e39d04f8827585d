//! Words of SplitMix64 (Steele, Lea and Flood, 2014), and bytes of them.
ghost use Rattle.std.specs.Prelude.{◌≡◌, ◌/◌, ◌≤◌, IfOk};
ghost use Rattle.rand_xoshiro.specs.SplitMix64.{next_state};
ghost use Rattle.rssd_work.specs.Workload.{word, after_words, word_bytes};

use arrayvec::ArrayVec;
use rand_core::utils::NextWord;
use rand_xoshiro::SplitMix64;
use rssd_script::{OutOfMemory, SectorBytes};
use std::alloc::Global;

/// The next word.
pub fn draw_word(words: &mut SplitMix64) -> u64
    ensures word { result ≡ word words.old }
    ensures next { words.new ≡ next_state words.old }
{
    words.next_word()
}

/// The bytes of the next words, each low byte first.
pub fn draw_bytes(
    alloc: Global,
    words: &mut SplitMix64,
    sector_bytes: u32,
) -> Result<SectorBytes, OutOfMemory>
    requires { sector_bytes ≤ 512 }
    ensures bytes { IfOk result (λ bytes. bytes ≡ word_bytes (sector_bytes / 8) words.old) }
    ensures next { words.new ≡ after_words (sector_bytes / 8) words.old }
{
    let count = sector_bytes / 8;
    let mut bytes: ArrayVec<u8, 512> = ArrayVec::new();
    for _ in 0..count {
        let word = draw_word(words);
        let _ = bytes.try_extend_from_slice(&word.to_le_bytes());
    }
    SectorBytes::of(alloc, bytes.as_slice())
}
