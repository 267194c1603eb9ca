// The cart of the texts that came, show after show.
ghost use Rattle.std.specs.Prelude.{◌≡◌, [], ◌+◌, ◌≤◌, ◌<◌, length};
ghost use Rattle.slices.specs.Refusals.{sound};
ghost use Rattle.numbers.specs.Storing.{Stored};
ghost use Rattle.carts.specs.Layout.{show_bytes};
ghost use Rattle.cart_files.specs.declared.Kept.TheVariants.{Nothing};
ghost use Rattle.cart_files.specs.Decided.{long_test};
ghost use Rattle.cart_files.specs.Gathered.{Gathered, Bounded, Adds, longer, ShowPut};

use crate::{Collected, Kept};
use format::put_literal;
use show_files::SCENES;
use slices::{Part, Refusal};

// No text came yet.
pub fn start(cart: &mut [u8]) -> Collected
    requires { 1 ≤ length cart.old }
    ensures { Gathered [] cart.new result × ((result.count ≡ 0) × (result.length ≡ 1)) }
{
    cart[0] = 0;
    Collected {
        count: 0,
        length: 1,
        kept: Kept::Nothing,
    }
}

// The lengths of a show's parts, 16 bits each, low byte first, then its scenes.
fn put_words(opening: &[u8], period: &[u8], cart: &mut [u8], at: usize) -> usize
    requires { (length opening.now ≤ 4096) × (length period.now ≤ 4096) × (at ≤ 524545) }
    ensures { Stored cart.old at
        (show_bytes (record { prefix = opening.now; period = period.now })) cart.new result }
{
    let m = opening.len();
    let n = period.len();
    let led = put_literal(&(m as u16).to_le_bytes(), cart, at);
    let headed = put_literal(&(n as u16).to_le_bytes(), cart, led);
    let opened = put_literal(opening, cart, headed);
    put_literal(period, cart, opened)
}

// The show of a text, behind so many bytes of the cart, and how many bytes these are then; or the refusal.
fn put_show(text: &[u8], cart: &mut [u8], at: usize) -> Result<usize, Refusal>
    requires { at ≤ 524545 }
    ensures { ShowPut text.now cart.old at cart.new result }
{
    let mut opening = [0u8; SCENES];
    let mut period = [0u8; SCENES];
    let lengths = lasso_text::read(text, Part::Second, &mut opening, &mut period)?;
    Ok(put_words(
        &opening[..lengths.prefix],
        &period[..lengths.period],
        cart,
        at,
    ))
}

// One text more, and what is refused now.
fn counted(held: Collected, kept: Kept) -> Collected
    requires { held.count < 64 }
    ensures { result ≡ record { count = held.count + 1; length = held.length; kept = kept } }
{
    Collected {
        count: held.count + 1,
        length: held.length,
        kept,
    }
}

// One text more, where none is refused.
fn add_next(text: &[u8], held: Collected, cart: &mut [u8]) -> Collected
    requires { (length cart.old ≡ 524545) × (held.count < 64) × Bounded held × (long_test text.now ≡ sound) ×
        (held.kept ≡ Nothing) }
    ensures { Adds text.now cart.old cart.new held result }
{
    match put_show(text, cart, held.length) {
        Err(r) => counted(held, Kept::Text(r)),
        Ok(length) => {
            let count = held.count + 1;
            cart[0] = count as u8;
            Collected {
                count,
                length,
                kept: Kept::Nothing,
            }
        }
    }
}

// One text more, which is not too long.
fn add_short(text: &[u8], held: Collected, cart: &mut [u8]) -> Collected
    requires { (length cart.old ≡ 524545) × (held.count < 64) × Bounded held × (long_test text.now ≡ sound) }
    ensures { Adds text.now cart.old cart.new held result }
{
    match held.kept {
        Kept::Nothing => add_next(text, held, cart),
        Kept::Text(_) | Kept::Long(_) => counted(held, held.kept),
    }
}

// One text more, which is too long.
fn add_long(held: Collected, r: Refusal) -> Collected
    requires { held.count < 64 }
    ensures { result ≡ record { count = held.count + 1; length = held.length; kept = longer held.kept r } }
{
    match held.kept {
        Kept::Nothing | Kept::Text(_) => counted(held, Kept::Long(r)),
        Kept::Long(_) => counted(held, held.kept),
    }
}

// One text more, of which so many bytes came.
pub fn add_show(text: &[u8], held: Collected, cart: &mut [u8]) -> Collected
    requires { (length cart.old ≡ 524545) × (held.count < 64) × Bounded held }
    ensures { Adds text.now cart.old cart.new held result }
{
    match console::check_length(text.len(), Part::Second) {
        Err(r) => add_long(held, r),
        Ok(()) => add_short(text, held, cart),
    }
}
