// Where the shows of a cart lie.
ghost use Rattle.std.specs.Prelude.{◌≡◌, ◌+◌, ◌≤◌, ◌<◌, length};
ghost use Rattle.carts.specs.Reading.{length_at};
ghost use Rattle.carts.specs.Steps.{span_of};

use crate::Span;

// A length in the header of a show.
fn length_at(cart: &[u8], at: usize) -> usize
    requires { at + 1 < length cart.now }
    ensures { (result ≡ length_at cart.now at) × (result < 65536) }
{
    usize::from(u16::from_le_bytes([cart[at], cart[at + 1]]))
}

// The show whose header begins at a place.
pub fn locate(cart: &[u8], at: usize) -> Span
    requires { at + 4 ≤ length cart.now }
    ensures { result ≡ span_of cart.now at }
{
    let prefix = at + 4;
    let period = prefix + length_at(cart, at);
    Span {
        prefix,
        period,
        end: period + length_at(cart, at + 2),
    }
}
