// From text to packed sheet and, at level four, seconds.
ghost use Rattle.std.specs.Prelude.{◌≤◌, length};
ghost use Rattle.notation.specs.Reading.{sheet_in};
ghost use Rattle.conversion.specs.Forms.{Packs};

use crate::telling::tell;
use crate::{Packed, SHEET, Way};
use blocks::timed;
use slices::{Refusal, half_bytes};

// The seconds of the most letters, two bytes each.
const SECONDS: usize = 64;

// What a text says, to the starts of two slices: the packed sheet, and the bytes of the seconds.
fn pack(text: &[u8], sheet: &mut [u8], seconds: &mut [u8]) -> Result<Packed, Refusal>
    requires { 64 ≤ length seconds.old }
    ensures { Packs (sheet_in text.now) sheet.old seconds.old
        sheet.new seconds.new result }
{
    let mut cells = [0u16; 32];
    let read = notation::read(text, sheet, &mut cells)?;
    let m = timed(read.level, usize::from(sheet[0]));
    half_bytes(&cells[..m], seconds);
    Ok(Packed {
        level: read.level,
        sheet: read.filled,
        seconds: m * 2,
    })
}

// Saves the packed sheet and the seconds of a text, where source and targets are three files. Which are one is said,
// and nothing is made.
fn save_three(
    rt: &HostRuntime,
    source: &[u8],
    target: &[u8],
    sheet: &[u8],
    third: &[u8],
    seconds: &[u8],
) {
    if saving::one_file(rt, target, third) {
        say_one_target(rt);
        return;
    }
    if saving::one_file(rt, source, target) {
        console::say(rt, b"pack: TEXT and SHEET are one file, nothing is made\n");
        return;
    }
    if saving::one_file(rt, source, third) {
        console::say(
            rt,
            b"pack: TEXT and SECONDS are one file, nothing is made\n",
        );
        return;
    }
    if !saving::save_both(rt, target, sheet, third, seconds) {
        say_one_target(rt);
    }
}

fn say_one_target(rt: &HostRuntime) {
    console::say(
        rt,
        b"pack: SHEET and SECONDS are one file, nothing is made\n",
    );
}

// Saves the packed sheet of a text alone. Seconds are then not kept, which is said; so such a text does not make room
// for its sheet.
fn save_alone(rt: &HostRuntime, source: &[u8], target: &[u8], sheet: &[u8], level: usize) {
    if level == 4 && saving::one_file(rt, source, target) {
        console::say(rt, b"pack: TEXT and SHEET are one file, nothing is made\n");
        return;
    }
    if saving::save(rt, target, sheet) {
        say_dropped(rt, level);
    }
}

// Saves what a text says.
pub fn save_packed(
    rt: &HostRuntime,
    source: &[u8],
    text: &[u8],
    target: &[u8],
    named: bool,
    third: &[u8],
) {
    let mut sheet = [0u8; SHEET];
    let mut seconds = [0u8; SECONDS];
    match pack(text, &mut sheet, &mut seconds) {
        Err(r) => tell(rt, Way::Pack, source, text, third, b"", r),
        Ok(packed) => {
            let sheet = &sheet[..packed.sheet];
            if named {
                save_three(rt, source, target, sheet, third, &seconds[..packed.seconds]);
            } else {
                save_alone(rt, source, target, sheet, packed.level);
            }
        }
    }
}

// Seconds that no file is named for are not kept.
fn say_dropped(rt: &HostRuntime, level: usize) {
    if level == 4 {
        console::say(rt, b"pack: the seconds were not kept\n");
    }
}
