// A cart, judged by itself: its layout, then each show.
ghost use Rattle.slices.specs.Refusals.{fault_in};
ghost use Rattle.std.specs.Prelude.{◌≡◌, ◌≤◌, ◌<◌, eqb, length};
ghost use Rattle.carts.specs.Reading.{end_at, end_from};
ghost use Rattle.carts.specs.Faults.{layout_fault, show_fault, shows_fault, cart_fault};

use crate::places::locate;
use slices::{Part, Reason, Refusal, first_outside, is_outside, refuse};

// Whether so many shows end where the cart does.
fn is_exact(cart: &[u8], count: usize) -> bool
    requires { 0 < length cart.now }
    ensures { result ≡ eqb (end_from cart.now 1 count) (length cart.now) }
{
    let mut at = 1;
    for _ in 0..count {
        if cart.len() - at < 4 {
            return false;
        }
        at = locate(cart, at).end;
        if cart.len() < at {
            return false;
        }
    }
    at == cart.len()
}

// The count and the length.
fn check_layout(cart: &[u8]) -> Result<(), Refusal>
    ensures { fault_in result ≡ layout_fault cart.now }
{
    let length = cart.len();
    if length == 0 {
        return Err(refuse(Reason::CartLength, Part::Second, 0));
    }
    let count = usize::from(cart[0]);
    if is_outside(1, 65, count) {
        return Err(refuse(Reason::CartCount, Part::Second, 0));
    }
    if !is_exact(cart, count) {
        return Err(refuse(Reason::CartLength, Part::Second, length));
    }
    Ok(())
}

// The show whose header begins at a place.
fn check_show(cart: &[u8], at: usize, letters: usize) -> Result<(), Refusal>
    requires { end_at cart.now at ≤ length cart.now }
    ensures { fault_in result ≡ show_fault letters cart.now at }
{
    let span = locate(cart, at);
    let prefix = span.prefix;
    let period = span.period;
    let m = period - prefix;
    let i = first_outside(cart, 0, letters, prefix, m);
    if i < m {
        return Err(refuse(Reason::UnknownLetter, Part::Opening, prefix + i));
    }
    let n = span.end - period;
    if n == 0 {
        return Err(refuse(Reason::EmptyLoop, Part::Loop, period));
    }
    let j = first_outside(cart, 0, letters, period, n);
    if j < n {
        return Err(refuse(Reason::UnknownLetter, Part::Loop, period + j));
    }
    Ok(())
}

// Each show in turn.
fn check_shows(cart: &[u8], count: usize, letters: usize) -> Result<(), Refusal>
    requires { end_from cart.now 1 count ≡ length cart.now }
    ensures { fault_in result ≡ shows_fault letters cart.now 1 count }
{
    let mut at = 1;
    for _ in 0..count {
        check_show(cart, at, letters)?;
        at = locate(cart, at).end;
    }
    Ok(())
}

// The layout, then the shows.
pub fn check_cart(cart: &[u8], letters: usize) -> Result<(), Refusal>
    ensures { fault_in result ≡ cart_fault letters cart.now }
{
    check_layout(cart)?;
    check_shows(cart, usize::from(cart[0]), letters)
}
