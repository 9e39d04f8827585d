//! A workload that is stepped as it is drawn: no list of its lines is held. Then what its sectors hold is read.
ghost use Rattle.std.specs.Prelude.{◌≡◌, ◌≤◌, ◌<◌, ◌*◌, ◌+◌, ◌^◌, ◌⊎◌, ℕ, List, length, sum, IfOk, OnOk};
ghost use Rattle.rssd_core.specs.DeviceValue.{Numbers};
ghost use Rattle.rssd_work.specs.Workload.{after_words, next_line, words_drawn, workload};
ghost use Rattle.rssd_run.specs.Workloads.{words_of, HasRows, StepsLines, held_count, byte_sum, held_line};

use crate::run::Stepping;
use arrayvec::ArrayVec;
use itoa::Buffer;
use rssd_script::{Line, OutOfMemory, Reply};
use rssd_work::make;
use std::alloc::Global;

/// A seed, and how many lines are drawn from it.
#[derive(Clone, Copy)]
pub struct Seeded {
    pub seed: u64,
    pub count: u32,
}

/// By how much the state of the words goes up with each.
const STRIDE: u64 = 0x9e37_79b9_7f4a_7c15;

/// How many words a line draws.
fn words_of(line: &Line, sector_bytes: u32) -> u32
    requires { sector_bytes ≤ 512 }
    ensures words { result ≡ words_of sector_bytes line.now }
{
    match line {
        Line::Trim { .. } => 2,
        Line::Idle { .. } => 1,
        _ => 2 + sector_bytes / 8,
    }
}

/// The state of the words behind the next ones.
fn behind(state: u64, words: u32) -> u64
    ensures { result ≡ after_words words state }
{
    state.wrapping_add(STRIDE.wrapping_mul(u64::from(words)))
}

/// Draws the next line.
fn draw(
    alloc: Global,
    state: &mut u64,
    sectors: u32,
    sector_bytes: u32,
) -> Result<Line, OutOfMemory>
    requires sectors { 1 ≤ sectors }
    requires sector_bytes { (sector_bytes ≡ 16) ⊎ (sector_bytes ≡ 512) }
    ensures line { IfOk result (λ line. line ≡ next_line sectors sector_bytes state.old) }
    ensures next { OnOk result (state.new ≡ after_words (words_drawn sector_bytes state.old) state.old) }
{
    let mut lines = make(alloc, *state, 1, sectors, sector_bytes)?;
    let Some(line) = lines.pop() else {
        unreachable!();
    };
    *state = behind(*state, words_of(&line, sector_bytes));
    Ok(line)
}

/// Steps the lines of the workload of a seed, each as it is drawn.
pub fn step_workload<S: Stepping>(
    alloc: Global,
    session: &mut S,
    seeded: Seeded,
    sectors: u32,
    sector_bytes: u32,
) -> Result<(), OutOfMemory>
    requires sectors { 1 ≤ sectors }
    requires sector_bytes { (sector_bytes ≡ 16) ⊎ (sector_bytes ≡ 512) }
    ensures { OnOk result ((d : Numbers) → StepsLines d (workload seeded.seed seeded.count sectors sector_bytes) (S.session session.old) (S.session session.new)) }
{
    let mut state = seeded.seed;
    let mut reply = Reply::Off;
    for _ in 0..seeded.count {
        let line = draw(alloc, &mut state, sectors, sector_bytes)?;
        session.step(alloc, &line, &mut reply);
    }
    Ok(())
}

/// What the sectors hold: how many of them are not all zeros, and the sum of their bytes.
#[derive(Clone, Copy)]
pub struct Held {
    pub count: u32,
    pub sum: u64,
}

/// The sum of the bytes of a row.
fn row_sum(row: &[u8]) -> u64
    requires { length row.now ≤ 512 }
    ensures sum { result ≡ sum row.now }
    ensures small { result ≤ 130_560 }
{
    let mut total = 0;
    for byte in row {
        total += u64::from(*byte);
    }
    total
}

/// Reads all sectors.
pub fn read_held<S: Stepping>(alloc: Global, session: &mut S, sectors: u32) -> Held
    requires { (d : Numbers) × (rows : List (List ℕ)) × HasRows d (S.session session.old) rows × (length rows ≡ sectors) }
    ensures count { (d : Numbers) (rows : List (List ℕ)) → HasRows d (S.session session.old) rows → length rows ≡ sectors → result.count ≡ held_count rows }
    ensures sum { (d : Numbers) (rows : List (List ℕ)) → HasRows d (S.session session.old) rows → length rows ≡ sectors → result.sum ≡ byte_sum rows }
{
    let mut held = Held { count: 0, sum: 0 };
    for sector in 0..sectors {
        let mut reply = Reply::Off;
        session.step(alloc, &Line::Read { sector }, &mut reply);
        let Reply::Bytes(bytes) = reply else {
            unreachable!();
        };
        let row = bytes.as_slice();
        held.count += u32::from(!row.is_empty());
        held.sum += row_sum(row);
    }
    held
}

/// The line that tells what the sectors hold.
pub fn held_text(held: Held) -> ArrayVec<u8, 48>
    ensures { result.items ≡ held_line held.count held.sum }
{
    let mut number = Buffer::new();
    let mut text = ArrayVec::new();
    let _ = text.try_extend_from_slice(b"held ");
    let _ = text.try_extend_from_slice(number.format(held.count).as_bytes());
    let _ = text.try_extend_from_slice(b" sum ");
    let _ = text.try_extend_from_slice(number.format(held.sum).as_bytes());
    let _ = text.try_extend_from_slice(b"\n");
    text
}
