//! One line drawn from the next words of SplitMix64 (Steele, Lea and Flood, 2014). The first word chooses its kind.

ghost use Rattle.std.specs.Prelude.{◌≡◌, ◌%◌, ◌<◌, ◌≤◌, IfOk, OnOk};
ghost use Rattle.rand_xoshiro.specs.SplitMix64.{next_state};
ghost use Rattle.rssd_work.specs.Workload.{word, after_words, next_line, words_drawn};

use crate::words::{draw_bytes, draw_word};
use rand_xoshiro::SplitMix64;
use rssd_script::{Line, OutOfMemory};
use std::alloc::Global;

/// The sector that the next word names.
fn draw_sector(words: &mut SplitMix64, sectors: u32) -> u32
    requires { 0 < sectors }
    ensures sector { result ≡ word words.old % sectors }
    ensures next { words.new ≡ next_state words.old }
{
    (draw_word(words) % u64::from(sectors)) as u32
}

/// The next line.
pub(crate) fn draw_line(
    alloc: Global,
    words: &mut SplitMix64,
    sectors: u32,
    sector_bytes: u32,
) -> Result<Line, OutOfMemory>
    requires sectors { 0 < sectors }
    requires sector_bytes { sector_bytes ≤ 512 }
    ensures line { IfOk result (λ line. line ≡ next_line sectors sector_bytes words.old) }
    ensures next { OnOk result (words.new ≡ after_words (words_drawn sector_bytes words.old) words.old) }
{
    let kind = draw_word(words) % 16;
    if kind == 0 {
        let trimmed = draw_sector(words, sectors);
        return Ok(Line::Trim { sector: trimmed });
    }
    if kind == 1 {
        return Ok(Line::Idle { n: 4 });
    }
    let sector = draw_sector(words, sectors);
    let bytes = draw_bytes(alloc, words, sector_bytes)?;
    Ok(Line::Write { sector, bytes })
}
