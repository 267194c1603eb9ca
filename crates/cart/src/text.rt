// What the program prints, made in a lent slice.
ghost use Rattle.std.specs.Prelude.{◌≤◌, length};
ghost use Rattle.console.specs.Printed.{Shows};
ghost use Rattle.cart.specs.Text.{rejected_text, load_text, Decides};

use cart_files::{Collected, decide};
use carts::Loading;
use format::put_literal;
use numbers::put_field;
use slices::Refusal;

// Room for what is printed: a word and a number; a refusal asks for 80 bytes.
pub const TEXT: usize = 80;

// What is decided, and how many bytes are printed.
#[derive(Clone, Copy, Debug, PartialEq, Eq)]
pub struct Decision {
    pub answer: Result<Loading, Refusal>,
    pub text: usize,
}

// The word and the index of the show.
fn put_rejected(i: usize, out: &mut [u8]) -> usize
    requires { 80 ≤ length out.old }
    ensures { Shows (rejected_text i) out.old out.new result }
{
    let judged = put_literal(b"rejected\n", out, 0);
    put_field(i, b'\n', out, judged)
}

// Nothing where the cart is loaded; else the show that is rejected, or the refusal.
fn put_answer(answer: Result<Loading, Refusal>, out: &mut [u8]) -> usize
    requires { 80 ≤ length out.old }
    ensures { Shows (load_text answer) out.old out.new result }
{
    match answer {
        Ok(Loading::Loaded(_)) => 0,
        Ok(Loading::Rejected(i)) => put_rejected(i, out),
        Err(r) => console::refusal_text(r, out),
    }
}

// What is decided of the bytes that came of the sheet's file and of the texts that came, and what is printed for it.
pub fn put_decision(sheet: &[u8], cart: &[u8], held: Collected, out: &mut [u8]) -> Decision
    requires { (held.length ≤ length cart.now) × (80 ≤ length out.old) }
    ensures { Decides sheet.now cart.now held result.answer out.old
        out.new result.text }
{
    let answer = decide(sheet, cart, held);
    let text = put_answer(answer, out);
    Decision { answer, text }
}
