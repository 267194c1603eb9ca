// What failed, said on standard error in a line: what it is called, and why.
ghost use Rattle.console.specs.Files.{IsPrefixLen};

use crate::printing::say;
use std::fmt;
use std::fmt::Write;
use std::io::Error;

// Room for why.
const ROOM: usize = 256;

// The system's number of a name that is too long.
const ENAMETOOLONG: i32 = 36;

// A text in its making: as much of it as there is room for.
#[derive(Drop)]
struct Text {
    bytes: [u8; ROOM],
    length: usize,
}

impl fmt::Write for Text {
    fn write_str(&mut self, more: &str) -> fmt::Result {
        for byte in more.as_bytes() {
            if self.length < ROOM {
                self.bytes[self.length] = *byte;
                self.length += 1;
            }
        }
        Ok(())
    }
}

// How many bytes of a text stand before the system's number of an error.
#[tactic(auto, using(crate::proofs::Counted::prefix_len_of_le))]
fn before_number(text: &[u8]) -> usize
    ensures { IsPrefixLen result text.now }
{
    let number: &[u8] = b" (os error ";
    text.windows(number.len())
        .position(|w| w == number)
        .unwrap_or(text.len())
}

// Says what failed and why, in the system's words.
pub fn fail(rt: &HostRuntime, what: &[u8], error: Error) {
    let mut text = Text {
        bytes: [0; ROOM],
        length: 0,
    };
    let _ = write!(text, "{error}");
    let bytes = &text.bytes[..];
    let n = before_number(bytes).min(text.length);
    say(rt, what);
    say(rt, b": ");
    say(rt, &bytes[..n]);
    say(rt, b"\n");
}

// Says that a name is too long, by what it is called.
pub fn fail_long(rt: &HostRuntime, what: &[u8]) {
    fail(rt, what, Error::from_raw_os_error(ENAMETOOLONG));
}
