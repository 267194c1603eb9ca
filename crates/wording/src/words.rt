// A refusal in words: where it is, and why.
ghost use Rattle.std.specs.Prelude.{◌≡◌, ◌++◌, ◌+◌, ◌≤◌, length};
ghost use Rattle.numbers.specs.Storing.{Stored};
ghost use Rattle.slices.specs.Texts.{bytes};
ghost use Rattle.console.specs.Printed.{Shows};
ghost use Rattle.wording.specs.Words.{position_at, line_place, byte_place, place_in, spot};
ghost use Rattle.wording.specs.Words.{file_of_value, culprit, refusal_words_of};

use crate::Position;
use crate::reasons::put_reason;
use format::put_literal;
use numbers::put_field;
use slices::{Part, Reason, Refusal};

// Room for a refusal in words: a name of 4,096 bytes, a place and a sentence.
pub const WORDS: usize = 4352;

// The line and the column of a place.
fn locate(text: &[u8], place: usize) -> Position
    requires { place ≤ length text.now }
    ensures { result ≡ position_at text.now place }
{
    let mut line = 1;
    let mut column = 1;
    for &b in &text[..place] {
        if b == b'\n' {
            line += 1;
            column = 1;
        } else {
            column += 1;
        }
    }
    Position { line, column }
}

// A place of a text.
pub fn put_line(q: Position, out: &mut [u8], at: usize) -> usize
    requires { at ≤ 4096 }
    ensures { Stored out.old at (line_place q) out.new result × (result ≤ at + 43) }
{
    let named = put_literal(b":", out, at);
    let lined = put_field(q.line, b':', out, named);
    put_field(q.column, b':', out, lined)
}

// A place of bytes.
fn put_byte(place: usize, out: &mut [u8], at: usize) -> usize
    requires { at ≤ 4096 }
    ensures { Stored out.old at (byte_place place) out.new result × (result ≤ at + 43) }
{
    let named = put_literal(b": byte ", out, at);
    put_field(place, b':', out, named)
}

// A place of a file, which is a text or not.
fn put_place(text: &[u8], lined: bool, place: usize, out: &mut [u8], at: usize) -> usize
    requires { at ≤ 4096 }
    ensures { Stored out.old at (place_in text.now lined place) out.new result ×
        (result ≤ at + 43) }
{
    if !lined {
        return put_byte(place, out, at);
    }
    if text.len() < place {
        return put_byte(place, out, at);
    }
    put_line(locate(text, place), out, at)
}

// The name of a file and the place.
fn put_spot(name: &[u8], text: &[u8], lined: bool, r: Refusal, out: &mut [u8]) -> usize
    requires { length name.now ≤ 4096 }
    ensures { Stored out.old 0
        (spot (record { name = name.entry.now; held = text.now; lined = lined }) r) out.new result
        × (result ≤ 4139) }
{
    let named = put_literal(name, out, 0);
    if r.reason == Reason::LettersDiffer {
        return put_literal(b":", out, named);
    }
    put_place(text, lined, r.place, out, named)
}

// The name of the program.
fn put_program(program: &[u8], out: &mut [u8]) -> usize
    requires { length program.now ≤ 4096 }
    ensures { Stored out.old 0 (program.now ++ bytes ":") out.new result ×
        (result ≤ 4139) }
{
    let named = put_literal(program, out, 0);
    put_literal(b":", out, named)
}

// Which file a part is: the first, the second, or none.
fn file_of(part: Part) -> u8
    ensures { result ≡ file_of_value part }
{
    match part {
        Part::First => 1,
        Part::Second => 2,
        Part::Opening => 0,
        Part::Loop => 0,
        Part::Out => 0,
        Part::Work => 0,
        Part::Cursor => 0,
        Part::Seconds => 0,
    }
}

// The file that a refusal concerns, and the place there, or the program. Of each file its name, its bytes, and whether
// they are text.
fn put_culprit(
    program: &[u8],
    one: &[u8],
    first: &[u8],
    lined: bool,
    two: &[u8],
    second: &[u8],
    lined2: bool,
    r: Refusal,
    out: &mut [u8],
) -> usize
    requires { (length program.now ≤ 4096) × (length one.now ≤ 4096) × (length two.now ≤ 4096) }
    ensures { Stored out.old 0
        (culprit program.now
        (record { name = one.now; held = first.now; lined = lined })
        (record { name = two.now; held = second.now; lined = lined2 }) r)
        out.new result × (result ≤ 4139) }
{
    let part = r.part;
    let file = file_of(part);
    if file == 1 {
        return put_spot(one, first, lined, r, out);
    }
    if file == 2 {
        return put_spot(two, second, lined2, r, out);
    }
    put_program(program, out)
}

// A refusal in words, for a program that was given two files.
pub fn refusal_words(
    program: &[u8],
    one: &[u8],
    first: &[u8],
    lined: bool,
    two: &[u8],
    second: &[u8],
    lined2: bool,
    r: Refusal,
    out: &mut [u8],
) -> usize
    requires { (length program.now ≤ 4096) × (length one.now ≤ 4096) × (length two.now ≤ 4096) ×
        (4352 ≤ length out.old) }
    ensures { Shows
        (refusal_words_of program.now
        (record { name = one.now; held = first.now; lined = lined })
        (record { name = two.now; held = second.now; lined = lined2 }) r)
        out.old out.new result }
{
    let at = put_culprit(program, one, first, lined, two, second, lined2, r, out);
    put_reason(r.reason, out, at)
}
