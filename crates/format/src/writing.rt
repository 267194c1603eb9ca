// Formats written. A byte is stored where there is room for it, so that a text can be measured on an empty slice.
ghost use Rattle.std.specs.Prelude.{◌≡◌, ◌+◌, ◌≤◌, ◌<◌, length};
ghost use Rattle.numbers.specs.Storing.{Stored};
ghost use Rattle.format.specs.Rows.{separator, line};

use numbers::{put, put_field};

pub fn separator(count: usize, i: usize) -> u8
    requires { i < count }
    ensures { result ≡ separator count i }
{
    if i + 1 == count { b'\n' } else { b' ' }
}

// A fixed text.
pub fn put_literal(due: &[u8], out: &mut [u8], at: usize) -> usize
    requires { at + length due.now ≤ 18446744073709551615 }
    ensures { Stored out.old at due.now out.new result }
{
    let mut p = at;
    for &c in due {
        p = put(out, p, c);
    }
    p
}

// A row: its numbers with one space between, and a line feed.
pub fn put_row(values: &[u16], out: &mut [u8], at: usize) -> usize
    requires { at + length (line values.now) ≤ 18446744073709551615 }
    ensures { Stored out.old at (line values.now) out.new result }
{
    let count = values.len();
    let mut p = at;
    for (i, &v) in values.iter().enumerate() {
        p = put_field(usize::from(v), separator(count, i), out, p);
    }
    p
}
