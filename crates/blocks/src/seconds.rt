// The block of the seconds: at level four a row for each letter; at level three nothing.
ghost use Rattle.std.specs.Prelude.{◌≡◌, ◌+◌, ◌*◌, ◌≤◌, ◌<◌, length};
ghost use Rattle.slices.specs.declared.Part.TheVariants.{First};
ghost use Rattle.slices.specs.Filling.{written};
ghost use Rattle.numbers.specs.Storing.{Stored};
ghost use Rattle.format.specs.Format.{reading};
ghost use Rattle.format.specs.Steps.{Reads};
ghost use Rattle.blocks.specs.Text.{timed, seconds_row_of, seconds_format};
ghost use Rattle.blocks.specs.Numbers.{cells_of};
ghost use Rattle.blocks.specs.Lines.{seconds_text};

use format::{Column, Row, put_literal, put_row, read_literal, read_rows};
use slices::{Part, Reason, Refusal};

const TITLE: [u8; 14] = *b"scene seconds\n";

// How many of s things of the block a text of a level has: at level four all, else none.
pub fn timed(level: usize, s: usize) -> usize
    ensures { result ≡ timed level s }
{
    if level == 4 { s } else { 0 }
}

// The row of a letter.
fn seconds_row() -> Row
    ensures { result ≡ seconds_row_of 0 }
{
    let first = Column {
        low: 0,
        limit: 1,
        reason: Reason::OutOfTurn,
    };
    let rest = Column {
        low: 1,
        limit: 1000,
        reason: Reason::SecondsRange,
    };
    Row {
        first,
        second: rest,
        third: rest,
        rest,
        count: 2,
    }
}

pub fn read_seconds(
    text: &[u8],
    at: usize,
    level: usize,
    s: usize,
    rows: &mut [u16],
) -> Result<usize, Refusal>
    requires { (at ≤ length text.now) × (s ≤ 32) × (64 ≤ length rows.old) }
    ensures { Reads (reading First text.now (seconds_format level s) at) rows.old rows.new result }
{
    let e = read_literal(text, at, &TITLE[..timed(level, 14)], Part::First)?;
    read_rows(
        text,
        e,
        seconds_row(),
        0,
        timed(level, s),
        rows,
        Part::First,
    )
}

// The seconds of m letters, from the rows that were read, to the start of the lent slice.
pub fn fill_seconds(rows: &[u16], m: usize, seconds: &mut [u16])
    requires { (m ≤ 32) × (m * 2 ≤ length rows.now) × (m ≤ length seconds.old) }
    ensures { seconds.new ≡ written (cells_of m rows.now) seconds.old }
{
    for (a, cell) in seconds[..m].iter_mut().enumerate() {
        *cell = rows[a * 2 + 1];
    }
}

pub fn put_seconds(level: usize, s: usize, seconds: &[u16], out: &mut [u8], at: usize) -> usize
    requires { (s ≤ 32) × (timed level s ≤ length seconds.now) ×
        (at + length (seconds_text level s seconds.now) ≤ 18446744073709551615) }
    ensures { Stored out.old at (seconds_text level s seconds.now) out.new result }
{
    let m = timed(level, s);
    let mut p = put_literal(&TITLE[..timed(level, 14)], out, at);
    for (a, &x) in seconds[..m].iter().enumerate() {
        p = put_row(&[a as u16, x], out, p);
    }
    p
}
