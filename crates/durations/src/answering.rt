// What the program prints, and what it says on standard error.
ghost use Rattle.std.specs.Prelude.{◌≤◌, length};
ghost use Rattle.console.specs.Printed.{Shows};
ghost use Rattle.durations.specs.Text.{program_text};
ghost use Rattle.durations.specs.Said.{message_text};

use crate::saying::put_refusal;
use console::Output;
use durations_files::write_files;

// What is printed for the bytes that came of two files, and what is said beside it. The names are those of the files.
pub fn put_answer(
    one: &[u8],
    text: &[u8],
    two: &[u8],
    show: &[u8],
    out: &mut [u8],
    said: &mut [u8],
) -> Output
    requires { (length one.now ≤ 4096) × (length two.now ≤ 4096) × (131146 ≤ length out.old) ×
        (8448 ≤ length said.old) }
    ensures { Shows (program_text text.now show.now) out.old out.new
        result.text × Shows
        (message_text one.now text.now two.now show.now)
        said.old said.new result.said }
{
    match write_files(text, show, out) {
        Ok(n) => Output { text: n, said: 0 },
        Err(r) => Output {
            text: console::refusal_text(r, out),
            said: put_refusal(one, text, two, show, r, said),
        },
    }
}
