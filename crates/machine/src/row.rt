// What is written into the row that is lent.
ghost use Rattle.std.specs.Prelude.{◌≡◌, ◌≤◌, length, drop};
ghost use Rattle.command.specs.Machine.{eight, flat};
ghost use Rattle.command.specs.Reader.{Says as SaysSo};
ghost use Rattle.command.specs.Plain.{give};
ghost use Rattle.command.specs.Told.{numbers_in};
ghost use Rattle.target.specs.Run.{shows};
ghost use Rattle.machine.specs.Entry.{on_row, ActTold};

use crate::acts::Told;
use crate::cells::ROW;
use command::reading::Cursor;
use command::writing::eight_bytes;

// The bytes of each number, one after the other, and that they are to be shown.
pub fn show(row: &mut [u64; ROW], numbers: &[u64]) -> Told
    requires few { length numbers.now ≤ 4096 }
    ensures { ActTold (shows (flat eight numbers.now)) result row.old row.new }
{
    // Each place is taken by its index: what `chunks_exact_mut` lends ends as anything, as far as a proof can tell.
    for (i, number) in numbers.iter().enumerate() {
        row[8 * i..8 * i + 8].copy_from_slice(&eight_bytes(*number));
    }
    Told::Shows(8 * numbers.len() as u64)
}

// A few numbers at the front.
pub fn put_front(row: &mut [u64; ROW], numbers: &[u64])
    requires few { length numbers.now ≤ 65536 }
    ensures { row.new ≡ on_row numbers.now row.old }
{
    row[..numbers.len()].copy_from_slice(numbers);
}

// The numbers that a text gives, each in a place of the row.
pub fn put_given(row: &mut [u64; ROW], text: &[u64], count: u64)
    requires says { SaysSo text.now (give (numbers_in (drop 1 text.now))) }
    requires counts { count ≡ length (numbers_in (drop 1 text.now)) }
    ensures { row.new ≡ on_row (numbers_in (drop 1 text.now)) row.old }
{
    let mut cursor = Cursor { rest: &text[9..] };
    for place in &mut row[..count as usize] {
        *place = cursor.word().unwrap() as u64;
    }
}
