// Compares two sheets, and prints whether every show that closes in both and is accepted by the first is accepted by
// the second, or the first counter-show, and where both sheets wait and end. Without names the sheets are `first.sheet`
// and `second.sheet` of the folder.
#![tactic(auto)]

ghost use Rattle.std.specs.Prelude.{◌≤◌, length};

use answering::put_answer;

mod answering; // answering.rt: what is printed and said for two files
mod saying; // saying.rt: what is said on standard error
mod text; // text.rt: what is printed, block by block

// Prints what is decided of two files, which are named, and says it.
fn answer(
    rt: &HostRuntime,
    any: bool,
    explain: bool,
    one: &[u8],
    first: &[u8],
    two: &[u8],
    second: &[u8],
)
    requires { (length one.now ≤ 4096) × (length two.now ≤ 4096) }
{
    let mut text = [0u8; text::ROOM];
    let mut said = [0u8; saying::SAID];
    let printed = put_answer(any, explain, one, first, two, second, &mut text, &mut said);
    let n = printed.text;
    let m = printed.said;
    console::print(rt, &text[..n]);
    console::say(rt, &said[..m]);
}

// Compares the files with these names.
fn compare(rt: &HostRuntime, any: bool, explain: bool, one: &[u8], two: &[u8])
    requires { (length one.now ≤ 4096) × (length two.now ≤ 4096) }
{
    let mut first = [0u8; console::ROOM];
    let mut second = [0u8; console::ROOM];
    let n = console::load(rt, one, &mut first);
    let m = console::load(rt, two, &mut second);
    answer(rt, any, explain, one, &first[..n], two, &second[..m]);
}

// Three lines: what is read, what is printed, an example.
fn usage(rt: &HostRuntime) {
    console::say(
        rt,
        b"usage: compare [--explain] [--] [FIRST SECOND]: reads two sheets, packed, as text or drawn; ",
    );
    console::say(
        rt,
        b"FIRST is the revised one (without names: first.sheet and second.sheet, packed)\n",
    );
    console::say(
        rt,
        b"prints contained, or missing and the first show that closes in both, is accepted by FIRST and ",
    );
    console::say(rt, b"rejected by SECOND; --explain says it in words\n");
    console::say(rt, b"example: compare revised.txt old.txt\n");
}

// Compares the files that two arguments name.
fn compare_named(rt: &HostRuntime, explain: bool, i: usize, j: usize) {
    let mut one = [0u8; console::NAME];
    let n = console::name_at(rt, i, &mut one);
    let mut two = [0u8; console::NAME];
    let m = console::name_at(rt, j, &mut two);
    compare(rt, true, explain, &one[..n], &two[..m]);
}

fn main(rt: HostRuntime) {
    match console::arguments(&rt) {
        Some(asked) if asked.names == 0 => {
            compare(&rt, false, asked.explain, b"first.sheet", b"second.sheet");
        }
        Some(asked) if asked.names == 2 => {
            compare_named(&rt, asked.explain, asked.first, asked.second);
        }
        _ => usage(&rt),
    }
}
