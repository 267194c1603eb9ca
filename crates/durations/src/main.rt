// Prints the running sheet of a show: each scene of its text with the seconds that a sheet's text has for it, and how
// long its opening and its loop last.
#![tactic(auto)]

ghost use Rattle.std.specs.Prelude.{◌≤◌, length};

use answering::put_answer;

mod answering; // answering.rt: what is printed and said for two files
mod saying; // saying.rt: a refusal in words

// Prints what is decided of two files, which are named, and says why one is refused.
fn answer(rt: &HostRuntime, one: &[u8], text: &[u8], two: &[u8], show: &[u8])
    requires { (length one.now ≤ 4096) × (length two.now ≤ 4096) }
{
    let mut out = [0u8; durations_files::TEXT];
    let mut said = [0u8; saying::SAID];
    let printed = put_answer(one, text, two, show, &mut out, &mut said);
    let n = printed.text;
    let m = printed.said;
    console::print(rt, &out[..n]);
    console::say(rt, &said[..m]);
}

// Reads the files with these names.
fn run(rt: &HostRuntime, one: &[u8], two: &[u8])
    requires { (length one.now ≤ 4096) × (length two.now ≤ 4096) }
{
    let mut text = [0u8; console::ROOM];
    let mut show = [0u8; console::ROOM];
    let n = console::load(rt, one, &mut text);
    let m = console::load(rt, two, &mut show);
    answer(rt, one, &text[..n], two, &show[..m]);
}

// Three lines: what is read, what is printed, an example.
fn usage(rt: &HostRuntime) {
    console::say(
        rt,
        b"usage: durations [--] TEXT SHOW: reads a sheet's text, of level four, which has the ",
    );
    console::say(rt, b"seconds of each scene, and a show's text\n");
    console::say(
        rt,
        b"prints each scene of the show with its seconds, then how long the opening and one turn ",
    );
    console::say(rt, b"of the loop last\n");
    console::say(rt, b"example: durations revised.txt show.txt\n");
}

// The files that two arguments name.
fn run_named(rt: &HostRuntime, i: usize, j: usize) {
    let mut one = [0u8; console::NAME];
    let n = console::name_at(rt, i, &mut one);
    let mut two = [0u8; console::NAME];
    let m = console::name_at(rt, j, &mut two);
    run(rt, &one[..n], &two[..m]);
}

fn main(rt: HostRuntime) {
    match console::arguments(&rt) {
        Some(asked) if !asked.explain && asked.names == 2 => {
            run_named(&rt, asked.first, asked.second);
        }
        _ => usage(&rt),
    }
}
