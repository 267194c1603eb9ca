// A file turned into a packed sheet, or a packed sheet into text: what the programs `pack`, `unpack` and `import`
// share.
#![tactic(auto)]

ghost use Rattle.std.specs.Prelude.{IfSome};
ghost use Rattle.console.specs.Files.{IsPrefixLen};

mod packing; // packing.rt: from text to packed sheet and seconds
mod telling; // telling.rt: a refusal, printed and in words
mod unpacking; // unpacking.rt: from packed sheet and seconds to text, from the text of an automaton to packed sheet

use console::{Asked, NAME};
use packing::save_packed;
use slices::Part;
use telling::tell;
use unpacking::{save_imported, save_unpacked};

// From text to packed sheet, or back; from the text of an automaton to the packed sheet of its family.
#[derive(Clone, Copy, Debug, PartialEq, Eq)]
pub enum Way {
    Pack,
    Unpack,
    Import,
}

// The level of a text, and how many bytes its packed sheet and its seconds have.
#[derive(Clone, Copy, Debug, PartialEq, Eq)]
struct Packed {
    level: usize,
    sheet: usize,
    seconds: usize,
}

// The longest packed sheet: 32 scenes, 32 places, 32 places in each loop automaton.
const SHEET: usize = 34850;

// Whether a way takes so many names.
fn takes(way: Way, names: usize) -> bool {
    match way {
        Way::Pack => names == 2 || names == 3,
        Way::Unpack => names == 2 || names == 3,
        Way::Import => names == 2,
    }
}

// The second name, a target's: none where it is too long, which is said.
fn target_at(rt: &HostRuntime, way: Way, i: usize, name: &mut [u8]) -> Option<usize>
    ensures { IfSome result (λ n. IsPrefixLen n name.new) }
{
    match way {
        Way::Pack => console::target_at(rt, i, b"SHEET", name),
        Way::Unpack => console::target_at(rt, i, b"TEXT", name),
        Way::Import => console::target_at(rt, i, b"SHEET", name),
    }
}

// Whether a way makes the third file that is named.
fn makes_third(way: Way) -> bool {
    way == Way::Pack
}

// Makes what the bytes of a source are turned into. A third file is one of seconds.
fn convert(
    rt: &HostRuntime,
    way: Way,
    source: &[u8],
    bytes: &[u8],
    target: &[u8],
    named: bool,
    third: &[u8],
) {
    match way {
        Way::Pack => save_packed(rt, source, bytes, target, named, third),
        Way::Unpack => save_unpacked(rt, source, bytes, target, named, third),
        Way::Import => save_imported(rt, source, bytes, target),
    }
}

// Reads a source, which is refused where it is too long, and turns it into what the way makes.
fn judge(rt: &HostRuntime, way: Way, source: &[u8], target: &[u8], named: bool, third: &[u8]) {
    let mut bytes = [0u8; console::ROOM];
    let n = console::load(rt, source, &mut bytes);
    match console::check_length(n, Part::First) {
        Err(r) => tell(rt, way, source, &bytes[..n], third, b"", r),
        Ok(()) => convert(rt, way, source, &bytes[..n], target, named, third),
    }
}

// Goes on with the third name, where there is one. A target that is too long to be a name is said, and nothing is made.
fn name_third(rt: &HostRuntime, way: Way, source: &[u8], target: &[u8], named: bool, i: usize) {
    if !named {
        judge(rt, way, source, target, false, b"");
        return;
    }
    let mut third = [0u8; NAME];
    if let Some(n) = third_at(rt, way, i, &mut third) {
        judge(rt, way, source, target, true, &third[..n]);
    }
}

// The third name: none where it is too long and the way makes its file, which is said.
fn third_at(rt: &HostRuntime, way: Way, i: usize, name: &mut [u8]) -> Option<usize>
    ensures { IfSome result (λ n. IsPrefixLen n name.new) }
{
    if makes_third(way) {
        console::target_at(rt, i, b"SECONDS", name)
    } else {
        Some(console::name_at(rt, i, name))
    }
}

// Goes on with the names at these places. A source that is too long to be a name counts as missing; of a target that
// is, this is said, and nothing is made.
fn name_files(rt: &HostRuntime, way: Way, first: usize, second: usize, named: bool, last: usize) {
    let mut source = [0u8; NAME];
    let n = console::name_at(rt, first, &mut source);
    let mut target = [0u8; NAME];
    if let Some(m) = target_at(rt, way, second, &mut target) {
        name_third(rt, way, &source[..n], &target[..m], named, last);
    }
}

// The place of the first name, where no argument but `--` is an option.
fn first_name(rt: &HostRuntime) -> usize {
    if console::is_end(rt, 1) { 2 } else { 1 }
}

// Goes on with the files that the arguments name, two or three.
fn run_named(rt: &HostRuntime, way: Way, asked: Asked) {
    if asked.names == 3 {
        name_files(rt, way, first_name(rt), asked.first, true, asked.second);
    } else {
        name_files(rt, way, asked.first, asked.second, false, 0);
    }
}

// Turns the file that is named first into the one that is named next, or prints the refusal. A third name is that of
// the seconds: a target of packing, a source of unpacking.
pub fn run(rt: &HostRuntime, way: Way, usage: &[u8]) {
    match console::arguments(rt) {
        Some(asked) if !asked.explain && takes(way, asked.names) => run_named(rt, way, asked),
        _ => console::say(rt, usage),
    }
}
