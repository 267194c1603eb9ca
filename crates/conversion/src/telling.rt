// A refusal, printed on standard output, and in words on standard error: of which file, and where.
ghost use Rattle.std.specs.Prelude.{◌≤◌, length};
ghost use Rattle.console.specs.Files.{IsPrefixLen};

use crate::Way;
use slices::{Part, Reason, Refusal};

// The longest name that words have room for.
const NAME: usize = 4096;

// The most seconds that a file has, two bytes each.
const CELLS: usize = 32768;

// How much of a name words have room for.
fn shortened(name: &[u8]) -> usize
    ensures { IsPrefixLen result name.now × (result ≤ 4096) }
{
    name.len().min(NAME)
}

// The place in bytes of a number of seconds.
fn in_bytes(place: usize) -> usize {
    if place < CELLS { place * 2 } else { place }
}

// A refusal by the file that it is in: one of the seconds is in the second file.
fn in_files(r: Refusal) -> Refusal {
    match r.part {
        Part::Seconds => Refusal {
            part: Part::Second,
            place: in_bytes(r.place),
            ..r
        },
        _ => r,
    }
}

// Says a refusal in words. The first file is lines of text or not, the second is not.
fn say_words(
    rt: &HostRuntime,
    program: &[u8],
    one: &[u8],
    first: &[u8],
    lined: bool,
    two: &[u8],
    second: &[u8],
    r: Refusal,
)
    requires { length program.now ≤ 4096 }
{
    let mut words = [0u8; wording::WORDS];
    let n = shortened(one);
    let m = shortened(two);
    let count = wording::refusal_words(
        program,
        &one[..n],
        first,
        lined,
        &two[..m],
        second,
        false,
        r,
        &mut words,
    );
    console::say(rt, &words[..count]);
}

// Whether a refusal is that there are too few seconds.
fn lacks_seconds(r: Refusal) -> bool {
    r.part == Part::Seconds && r.reason == Reason::TooLittleRoom
}

fn say_short(rt: &HostRuntime, r: Refusal) {
    if lacks_seconds(r) {
        console::say(rt, b"unpack: SECONDS has not two bytes for each scene\n");
    }
}

// Prints a refusal, and says it in words: of the source, or of the seconds.
pub fn tell(
    rt: &HostRuntime,
    way: Way,
    one: &[u8],
    first: &[u8],
    two: &[u8],
    second: &[u8],
    r: Refusal,
) {
    console::print_refusal(rt, r);
    let found = in_files(r);
    match way {
        Way::Pack => say_words(rt, b"pack", one, first, true, two, second, found),
        Way::Unpack => {
            say_words(rt, b"unpack", one, first, false, two, second, found);
            say_short(rt, r);
        }
        Way::Import => say_words(rt, b"import", one, first, true, two, second, found),
    }
}
