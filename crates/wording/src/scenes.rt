// A refusal in words where the second file is a show's text: a scene that the sheet has not is named by its line there,
// a part that is too long by the file.
ghost use Rattle.std.specs.Prelude.{◌≡◌, true, ◌++◌, ◌+◌, ◌≤◌, ◌<◌, length};
ghost use Rattle.numbers.specs.Storing.{Stored};
ghost use Rattle.console.specs.Printed.{Shows};
ghost use Rattle.wording.specs.Words.{line_place, show_part_of, is_scene_of, scene_position_of};
ghost use Rattle.wording.specs.Words.{is_long_of, long_words, part_words_of, show_words_of};

use crate::Position;
use crate::reasons::put_reason;
use crate::words::{put_line, refusal_words};
use format::put_literal;
use slices::{Part, Reason, Refusal};

// Which part of a show it is: the opening, the loop, or none.
fn show_part(part: Part) -> u8
    ensures { result ≡ show_part_of part }
{
    match part {
        Part::First => 0,
        Part::Second => 0,
        Part::Opening => 1,
        Part::Loop => 2,
        Part::Out => 0,
        Part::Work => 0,
        Part::Cursor => 0,
        Part::Seconds => 0,
    }
}

// Whether a refusal is of a scene.
pub fn is_scene(r: Refusal) -> bool
    ensures { result ≡ is_scene_of r }
{
    r.reason == Reason::UnknownLetter && show_part(r.part) > 0 && r.place < 4096
}

// Where it stands.
pub fn scene_position(openings: usize, r: Refusal) -> Position
    requires { (openings ≤ 4096) × (is_scene_of r ≡ true) }
    ensures { result ≡ scene_position_of openings r }
{
    let part = r.part;
    if show_part(part) == 1 {
        return Position {
            line: r.place + 2,
            column: 9,
        };
    }
    Position {
        line: openings + r.place + 2,
        column: 6,
    }
}

// The name of the show's file and the line.
pub fn put_scene(name: &[u8], q: Position, out: &mut [u8]) -> usize
    requires { length name.now ≤ 4096 }
    ensures { Stored out.old 0 (name.now ++ line_place q) out.new result ×
        (result ≤ 4139) }
{
    let named = put_literal(name, out, 0);
    put_line(q, out, named)
}

// Whether a refusal is of a part that is too long.
fn is_long(r: Refusal) -> bool
    ensures { result ≡ is_long_of r }
{
    r.reason == Reason::TooLittleRoom && show_part(r.part) > 0
}

// The name of the show's file and what is too long.
fn put_long(name: &[u8], r: Refusal, out: &mut [u8]) -> usize
    requires { (length name.now ≤ 4096) × (4352 ≤ length out.old) }
    ensures { Shows (long_words name.now r) out.old out.new result }
{
    let named = put_literal(name, out, 0);
    let part = r.part;
    if show_part(part) == 1 {
        return put_literal(
            b": refusal 21: the opening has more than 4,096 scenes\n",
            out,
            named,
        );
    }
    put_literal(
        b": refusal 21: the loop has more than 4,096 scenes\n",
        out,
        named,
    )
}

// A refusal that is of no scene: of a part, or as of two files.
fn part_words(
    program: &[u8],
    one: &[u8],
    first: &[u8],
    lined: bool,
    two: &[u8],
    show: &[u8],
    r: Refusal,
    out: &mut [u8],
) -> usize
    requires { (length program.now ≤ 4096) × (length one.now ≤ 4096) × (length two.now ≤ 4096) ×
        (4352 ≤ length out.old) }
    ensures { Shows
        (part_words_of program.now
        (record { name = one.now; held = first.now; lined = lined })
        (record { name = two.now; held = show.now; lined = true }) r)
        out.old out.new result }
{
    if is_long(r) {
        return put_long(two, r, out);
    }
    refusal_words(program, one, first, lined, two, show, true, r, out)
}

// A refusal in words, for a program that was given a file and a show's text with so many opening lines.
pub fn show_words(
    program: &[u8],
    one: &[u8],
    first: &[u8],
    lined: bool,
    two: &[u8],
    show: &[u8],
    openings: usize,
    r: Refusal,
    out: &mut [u8],
) -> usize
    requires { (length program.now ≤ 4096) × (length one.now ≤ 4096) × (length two.now ≤ 4096) ×
        (openings ≤ 4096) × (4352 ≤ length out.old) }
    ensures { Shows
        (show_words_of program.now
        (record { name = one.now; held = first.now; lined = lined })
        (record { name = two.now; held = show.now; lined = true }) openings r)
        out.old out.new result }
{
    if is_scene(r) {
        let q = scene_position(openings, r);
        let at = put_scene(two, q, out);
        return put_reason(r.reason, out, at);
    }
    part_words(program, one, first, lined, two, show, r, out)
}
