// For C: a cart loaded. The call returns 0, and changes nothing, where the answer slice is too short; else 1.
#![tactic(auto)]

ghost use Rattle.std.specs.Prelude.{◌≡◌};
ghost use Rattle.answers.specs.Layout.{numbers_of, padded};
ghost use Rattle.c_cart.specs.Numbers.{load_numbers_of, CartTold};

use answers::{SHORT, refusal_numbers, tell};
use carts::Loading;
use slices::Refusal;

// The bytes of the answer.
const ANSWER: usize = 24;

fn load_numbers(loading: Result<Loading, Refusal>) -> [u64; 3]
    ensures { result ≡ padded 3 (numbers_of load_numbers_of loading) }
{
    match loading {
        Ok(Loading::Loaded(n)) => [0, 1, n as u64],
        Ok(Loading::Rejected(i)) => [0, 0, i as u64],
        Err(r) => refusal_numbers(r),
    }
}

// Loads a cart: whether every show is accepted, and the cart's length or the index of the first that is not.
#[unsafe(no_mangle)]
pub extern "C" fn fdfa_cart(sheet: &[u8], cart: &[u8], out: &mut [u8], answer: &mut [u8]) -> u32
    ensures { CartTold sheet.now cart.now
        out.old answer.old out.new answer.new result }
{
    if answer.len() < ANSWER {
        return SHORT;
    }
    let loading = carts::load(sheet, cart, out);
    let told = load_numbers(loading);
    tell(&told, answer)
}
