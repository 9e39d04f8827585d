//! The tables of a laboratory: the rows of a run, the kinds of replies, and the blocks of the die.
ghost use Rattle.std.specs.Prelude.{◌≡◌, ◌<◌, ◌≤◌, ◌∷◌, OnOk, OnErr, length, map};
ghost use Rattle.count_die.specs.Tallies.{counted_of, blocks_of};
ghost use Rattle.rssd_io.specs.Event.{HasFailed};
ghost use Rattle.rssd_io.specs.Pieces.{Gives};
ghost use Rattle.lab_tables.specs.Tables.{amplification, run_row, kind_row, kind_table, block_row, block_table};

use crate::answers::{Answers, Met};
use crate::csv::{CsvLine, csv_line};
use count_die::{Tally, Totals};
use rssd_io::{Sink, WriteFault};

/// The head of a run's table.
pub const RUN_HEAD: &[u8] =
    b"lines,first,second,declined,read,trim,idle,other,moved,reads,programs,charges,erases,programs_per_1000_writes\n";

/// So many programs to a thousand writes, rounded down; 0 where there was no write.
fn amplification(programs: u64, writes: u64) -> u64
    ensures { result ≡ amplification programs writes }
{
    if writes == 0 {
        0
    } else {
        programs.saturating_mul(1_000) / writes
    }
}

/// A row of a run: what was counted up to now.
pub fn run_row(answers: &Answers, moved: u64, totals: Totals) -> CsvLine
    ensures { result.items ≡ run_row answers.now moved totals }
{
    let front = [
        answers.lines,
        answers.first.count,
        answers.second.count,
        answers.declined.count,
        answers.read.count,
        answers.trim.count,
        answers.idle.count,
        answers.other.count,
        moved,
        totals.reads,
        totals.programs,
        totals.charges,
        totals.erases,
    ];
    let last = amplification(totals.programs, answers.writes());
    csv_line(b"", &front, last)
}

/// The row of a kind of reply.
fn kind_row(name: &[u8], met: Met) -> CsvLine
    requires { length name.now ≤ 16 }
    ensures { result.items ≡ kind_row name.now met }
{
    csv_line(name, &[met.count, met.changes], met.reads)
}

/// Gives a head and rows, each in one piece.
fn give_rows<O: Sink>(out: &mut O, head: &[u8], rows: &[CsvLine]) -> Result<(), WriteFault>
    ensures done { OnOk result (Gives (head.now ∷ map (λ row. row.items) rows.now) (O.log out.old) (O.log out.new)) }
    ensures fault { OnErr result (HasFailed (O.log out.old) (O.log out.new)) }
{
    out.give(head)?;
    for row in rows {
        out.give(row.as_slice())?;
    }
    Ok(())
}

/// Gives the table of the kinds of replies, line by line.
pub fn give_kinds<O: Sink>(answers: &Answers, out: &mut O) -> Result<(), WriteFault>
    ensures done { OnOk result (Gives (kind_table answers.now) (O.log out.old) (O.log out.new)) }
    ensures fault { OnErr result (HasFailed (O.log out.old) (O.log out.new)) }
{
    let rows = [
        kind_row(b"first,", answers.first),
        kind_row(b"second,", answers.second),
        kind_row(b"declined,", answers.declined),
        kind_row(b"read,", answers.read),
        kind_row(b"trim,", answers.trim),
        kind_row(b"idle,", answers.idle),
        kind_row(b"other,", answers.other),
    ];
    give_rows(out, b"\nreply,count,most_changes,most_reads\n", &rows)
}

/// The row of a block.
fn block_row(tally: &Tally, block: u32) -> CsvLine
    requires { block < blocks_of tally.now }
    ensures { result.items ≡ block_row (counted_of tally.now) block }
{
    let front = [
        u64::from(block),
        tally.reads(block),
        tally.programs(block),
        tally.charges(block),
        tally.erases(block),
        tally.most_programs(block),
    ];
    csv_line(b"", &front, tally.most_changes(block))
}

/// Gives the table of the blocks, line by line.
pub fn give_blocks<O: Sink>(tally: &Tally, out: &mut O) -> Result<(), WriteFault>
    ensures done { OnOk result (Gives (block_table (counted_of tally.now) (blocks_of tally.now)) (O.log out.old) (O.log out.new)) }
    ensures fault { OnErr result (HasFailed (O.log out.old) (O.log out.new)) }
{
    out.give(b"\nblock,reads,programs,charges,erases,most_programs,most_changes\n")?;
    for block in 0..tally.blocks() {
        out.give(block_row(tally, block).as_slice())?;
    }
    Ok(())
}
