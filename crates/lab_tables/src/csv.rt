//! A line of a table: a name, and numbers that commas part.
ghost use Rattle.std.specs.Prelude.{◌≡◌, ◌≤◌, ◌+◌, ◌++◌, ◌∷◌, [], length, decimal};
ghost use Rattle.lab_tables.specs.Tables.{csv_text};

use arrayvec::ArrayVec;
use itoa::Buffer;

/// Room for one line.
pub type CsvLine = ArrayVec<u8, 512>;

/// Adds a number and the mark behind it.
fn put(text: &mut CsvLine, number: u64, mark: u8)
    requires { length text.old.items ≤ 480 }
    ensures items { text.new.items ≡ text.old.items ++ (decimal number ++ mark ∷ []) }
    ensures length { length text.new.items ≤ length text.old.items + 21 }
{
    let mut buffer = Buffer::new();
    let _ = text.try_extend_from_slice(buffer.format(number).as_bytes());
    let _ = text.try_extend_from_slice(&[mark]);
}

/// The line of a name and of these numbers, with its line feed. A comma follows each number but the last.
#[tactic(auto, unfolding(crate::specs::Tables::csv_text))]
pub fn csv_line(name: &[u8], front: &[u64], last: u64) -> CsvLine
    requires name { length name.now ≤ 16 }
    requires few { length front.now ≤ 16 }
    ensures { result.items ≡ csv_text name.now front.now last }
{
    let mut text = ArrayVec::new();
    let _ = text.try_extend_from_slice(name);
    for number in front {
        put(&mut text, *number, b',');
    }
    put(&mut text, last, b'\n');
    text
}
