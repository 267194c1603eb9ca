// From packed sheet and seconds to text; from the text of an automaton to packed sheet.
ghost use Rattle.std.specs.Prelude.{◌≡◌, IfOk, ◌≤◌, length};
ghost use Rattle.console.specs.Files.{IsPrefixLen};
ghost use Rattle.conversion.specs.Forms.{level_of_value, Unpacks};

use crate::telling::tell;
use crate::{SHEET, Way};
use slices::{Part, Refusal, halves};

// The text of the longest packed sheet, at level four, with next places of two digits and seconds of three.
const LONGEST: usize = 109630;

// The longest text that `pack` takes.
const PACKABLE: usize = 65536;

// The most cells that a file of seconds has.
const CELLS: usize = 32768;

// The level of the text that is written: four where a file of seconds is named.
fn level_of(named: bool) -> usize
    ensures { result ≡ level_of_value named }
{
    if named { 4 } else { 3 }
}

// The text of a packed sheet and of the bytes of its seconds.
fn unpack(sheet: &[u8], named: bool, seconds: &[u8], out: &mut [u8]) -> Result<usize, Refusal>
    requires { length seconds.now ≤ 65536 }
    ensures { Unpacks named sheet.now seconds.now out.old out.new
        result }
{
    let mut cells = [0u16; CELLS];
    halves(seconds, &mut cells);
    let count = seconds.len() / 2;
    notation::write(level_of(named), sheet, &cells[..count], out)
}

// The letters of a sheet.
fn letters(sheet: &[u8]) -> usize {
    match sheet.first() {
        Some(&n) => usize::from(n),
        None => 0,
    }
}

// Says so where the file of seconds, if one is named, has not two bytes for each letter of the sheet.
fn say_length(rt: &HostRuntime, sheet: &[u8], name: &[u8], seconds: &[u8]) {
    if name.len() == 0 {
        return;
    }
    if seconds.len() / 2 != letters(sheet) || seconds.len() % 2 != 0 {
        console::say(rt, b"unpack: SECONDS has not two bytes for each scene\n");
    }
}

// Saves a text. Of one that is longer than `pack` takes this is said, and it does not take the place of its own sheet.
fn save_long(rt: &HostRuntime, source: &[u8], target: &[u8], text: &[u8]) {
    if text.len() <= PACKABLE {
        saving::save(rt, target, text);
        return;
    }
    console::say(
        rt,
        b"unpack: the text is longer than the 65,536 bytes that pack takes\n",
    );
    if saving::one_file(rt, source, target) {
        console::say(
            rt,
            b"unpack: SHEET and TEXT are one file, nothing is made\n",
        );
        return;
    }
    saving::save(rt, target, text);
}

// Saves a text, but not in the place of its own seconds, of which it has no others than the sheet's scenes have.
fn save_timed(
    rt: &HostRuntime,
    one: &[u8],
    first: &[u8],
    two: &[u8],
    second: &[u8],
    target: &[u8],
    text: &[u8],
) {
    if two.len() != 0 && saving::one_file(rt, two, target) {
        console::say(
            rt,
            b"unpack: TEXT and SECONDS are one file, nothing is made\n",
        );
        return;
    }
    say_length(rt, first, two, second);
    save_long(rt, one, target, text);
}

// Saves the sheet of a drawn automaton, but not in its place: no program makes the drawing of a sheet.
fn save_drawn(rt: &HostRuntime, source: &[u8], target: &[u8], sheet: &[u8]) {
    if saving::one_file(rt, source, target) {
        console::say(
            rt,
            b"import: TEXT and SHEET are one file, nothing is made\n",
        );
        return;
    }
    saving::save(rt, target, sheet);
}

// Saves what was made of two files.
fn keep(
    rt: &HostRuntime,
    way: Way,
    one: &[u8],
    first: &[u8],
    two: &[u8],
    second: &[u8],
    target: &[u8],
    made: &[u8],
) {
    match way {
        Way::Pack => {
            saving::save(rt, target, made);
        }
        Way::Import => save_drawn(rt, one, target, made),
        Way::Unpack => save_timed(rt, one, first, two, second, target, made),
    }
}

// Saves what was filled, or tells the refusal.
fn save_filled(
    rt: &HostRuntime,
    answer: Result<usize, Refusal>,
    out: &[u8],
    target: &[u8],
    way: Way,
    one: &[u8],
    first: &[u8],
    two: &[u8],
    second: &[u8],
)
    requires { IfOk answer (λ n. n ≤ length out.now) }
{
    match answer {
        Err(r) => tell(rt, way, one, first, two, second, r),
        Ok(n) => keep(rt, way, one, first, two, second, target, &out[..n]),
    }
}

// Saves the text of a packed sheet and of the bytes of its seconds.
fn save_text(
    rt: &HostRuntime,
    one: &[u8],
    sheet: &[u8],
    named: bool,
    two: &[u8],
    seconds: &[u8],
    target: &[u8],
)
    requires { length seconds.now ≤ 65536 }
{
    let mut out = [0u8; LONGEST];
    let answer = unpack(sheet, named, seconds, &mut out);
    save_filled(
        rt,
        answer,
        &out,
        target,
        Way::Unpack,
        one,
        sheet,
        two,
        seconds,
    );
}

// Reads the seconds, none where no file is named.
fn load_seconds(rt: &HostRuntime, named: bool, name: &[u8], bytes: &mut [u8]) -> usize
    ensures { IsPrefixLen result bytes.new }
{
    if named {
        return console::load(rt, name, bytes);
    }
    0
}

// The same with the seconds in a file, one that is not named being read as empty.
pub fn save_unpacked(
    rt: &HostRuntime,
    source: &[u8],
    sheet: &[u8],
    target: &[u8],
    named: bool,
    third: &[u8],
) {
    let mut seconds = [0u8; console::ROOM];
    let n = load_seconds(rt, named, third, &mut seconds);
    match console::check_length(n, Part::Second) {
        Err(r) => tell(rt, Way::Unpack, source, sheet, third, &seconds[..n], r),
        Ok(()) => save_text(rt, source, sheet, named, third, &seconds[..n], target),
    }
}

// Saves the packed sheet of an automaton's text.
pub fn save_imported(rt: &HostRuntime, source: &[u8], text: &[u8], target: &[u8]) {
    let mut out = [0u8; SHEET];
    let answer = buchi_import::import(text, &mut out);
    save_filled(
        rt,
        answer,
        &out,
        target,
        Way::Import,
        source,
        text,
        b"",
        b"",
    );
}
