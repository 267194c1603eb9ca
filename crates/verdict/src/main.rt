// Judges the show of a text by a sheet, and prints the verdict. Without names the sheet is `first.sheet` of the folder,
// the show `show.txt`.
#![tactic(auto)]

ghost use Rattle.std.specs.Prelude.{◌≤◌, length};

use answering::put_answer;

mod answering; // answering.rt: what is printed and said for two files
mod saying; // saying.rt: why, in words
mod text; // text.rt: what is printed

// Prints what is judged of two files, which are named, and says it.
fn answer(
    rt: &HostRuntime,
    any: bool,
    explain: bool,
    one: &[u8],
    sheet: &[u8],
    two: &[u8],
    show: &[u8],
)
    requires { (length one.now ≤ 4096) × (length two.now ≤ 4096) }
{
    let mut text = [0u8; text::ROOM];
    let mut said = [0u8; answering::SAID];
    let printed = put_answer(any, explain, one, sheet, two, show, &mut text, &mut said);
    let n = printed.text;
    let m = printed.said;
    console::print(rt, &text[..n]);
    console::say(rt, &said[..m]);
}

// Judges the files with these names.
fn judge(rt: &HostRuntime, any: bool, explain: bool, one: &[u8], two: &[u8])
    requires { (length one.now ≤ 4096) × (length two.now ≤ 4096) }
{
    let mut sheet = [0u8; console::ROOM];
    let mut show = [0u8; console::ROOM];
    let n = console::load(rt, one, &mut sheet);
    let m = console::load(rt, two, &mut show);
    answer(rt, any, explain, one, &sheet[..n], two, &show[..m]);
}

// Three lines: what is read, what is printed, an example.
fn usage(rt: &HostRuntime) {
    console::say(
        rt,
        b"usage: verdict [--explain] [--] [SHEET SHOW]: reads a sheet, packed, as text or drawn, ",
    );
    console::say(
        rt,
        b"and a show's text (without names: first.sheet, packed, and show.txt)\n",
    );
    console::say(
        rt,
        b"prints accepted or rejected, the turns i and j of the loop, the place and the loop place ",
    );
    console::say(rt, b"at the end; --explain says why\n");
    console::say(rt, b"example: verdict old.txt show.txt\n");
}

// Judges the files that two arguments name.
fn judge_named(rt: &HostRuntime, explain: bool, i: usize, j: usize) {
    let mut one = [0u8; console::NAME];
    let n = console::name_at(rt, i, &mut one);
    let mut two = [0u8; console::NAME];
    let m = console::name_at(rt, j, &mut two);
    judge(rt, true, explain, &one[..n], &two[..m]);
}

fn main(rt: HostRuntime) {
    match console::arguments(&rt) {
        Some(asked) if asked.names == 0 => {
            judge(&rt, false, asked.explain, b"first.sheet", b"show.txt");
        }
        Some(asked) if asked.names == 2 => {
            judge_named(&rt, asked.explain, asked.first, asked.second);
        }
        _ => usage(&rt),
    }
}
