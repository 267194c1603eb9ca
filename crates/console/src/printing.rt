// What the programs print: texts made in a lent slice, and written to standard output.
ghost use Rattle.std.specs.Prelude.{◌≤◌, length};
ghost use Rattle.numbers.specs.Digits.{field};
ghost use Rattle.console.specs.Printed.{part_field, refusal_text_of, Shows};

use crate::failing::fail;
use numbers::put_field;
use slices::{Part, Refusal, copy};

// Room for a refusal: its line of names, 19 bytes, two numbers and a name.
const REFUSAL: usize = 80;

// Writes all of a text to standard output. A write that fails is said on standard error.
pub fn print(rt: &HostRuntime, text: &[u8]) {
    match Print::write_all(rt, text) {
        Ok(()) => {}
        Err(error) => fail(rt, b"standard output", error),
    }
}

// Writes all of a text to standard error.
pub fn say(rt: &HostRuntime, text: &[u8]) {
    let _ = Print::write_all(&rt.stderr(), text);
}

// A text at the start of a slice, and its length.
pub fn put(text: &[u8], out: &mut [u8]) -> usize
    requires { length text.now ≤ length out.old }
    ensures { Shows text.now out.old out.new result }
{
    copy(text, out);
    text.len()
}

// The digits that a number takes, then the byte that ends its field.
pub fn put_number(n: usize, end: u8, out: &mut [u8]) -> usize
    requires { 21 ≤ length out.old }
    ensures { Shows (field n end) out.old out.new result × (result ≤ 21) }
{
    put_field(n, end, out, 0)
}

// A part's name and a space.
fn put_part(part: Part, out: &mut [u8]) -> usize
    requires { 8 ≤ length out.old }
    ensures { Shows (part_field part) out.old out.new result × (result ≤ 8) }
{
    match part {
        Part::First => put(b"first ", out),
        Part::Second => put(b"second ", out),
        Part::Opening => put(b"opening ", out),
        Part::Loop => put(b"loop ", out),
        Part::Out => put(b"out ", out),
        Part::Work => put(b"work ", out),
        Part::Cursor => put(b"cursor ", out),
        Part::Seconds => put(b"seconds ", out),
    }
}

// A refusal: the line of names, then its number, part and place.
pub fn refusal_text(r: Refusal, out: &mut [u8]) -> usize
    requires { 80 ≤ length out.old }
    ensures { Shows (refusal_text_of r) out.old out.new result }
{
    let mut at = put(b"refused part place\n", out);
    at += put_number(usize::from(r.reason.number()), b' ', &mut out[at..]);
    let part = r.part;
    at += put_part(part, &mut out[at..]);
    at += put_number(r.place, b'\n', &mut out[at..]);
    at
}

pub fn print_refusal(rt: &HostRuntime, r: Refusal) {
    let mut text = [0u8; REFUSAL];
    let n = refusal_text(r, &mut text);
    print(rt, &text[..n]);
}
