// The verdicts on the shows of a cart, and the cart in the out slice.
ghost use Rattle.std.specs.Prelude.{◌≡◌, ◌≤◌, length};
ghost use Rattle.slices.specs.declared.Part.TheVariants.{First, Out};
ghost use Rattle.slices.specs.Refusals.{sound, ◌then◌, short, unless};
ghost use Rattle.fdfa.specs.Acceptance.{accepts};
ghost use Rattle.packed.specs.Layout.{letter_count, decode};
ghost use Rattle.packed.specs.Faults.{sheet_fault};
ghost use Rattle.membership.specs.Verdict.{lasso_fault};
ghost use Rattle.carts.specs.Reading.{count_of, end_at, show_at, shows_from, shows_of};
ghost use Rattle.carts.specs.Faults.{cart_fault};
ghost use Rattle.carts.specs.Loads.{first_rejected_of, load_by, load_of, CartLoaded};
ghost use Rattle.carts.specs.Steps.{GoodShows};

use crate::Loading;
use crate::judging::check_cart;
use crate::places::locate;
use slices::{Part, Reason, Refusal, copy, refuse};

// Whether the sheet accepts the show whose header begins at a place.
fn is_accepted(sheet: &[u8], cart: &[u8], at: usize) -> bool
    requires { (end_at cart.now at ≤ length cart.now) ×
        (lasso_fault sheet.now (show_at cart.now at).prefix (show_at cart.now at).period ≡ sound) }
    ensures { result ≡ accepts (decode sheet.now) (show_at cart.now at).prefix
        (show_at cart.now at).period }
{
    let span = locate(cart, at);
    let prefix = &cart[span.prefix..span.period];
    let period = &cart[span.period..span.end];
    membership::verdict(sheet, prefix, period).is_ok_and(|v| v.accepted)
}

// The index of the first show that is rejected, or how many there are.
fn first_rejected(sheet: &[u8], cart: &[u8], count: usize) -> usize
    requires { GoodShows sheet.now cart.now 1 count }
    ensures { result ≡ first_rejected_of (decode sheet.now) (shows_from cart.now 1 count) }
{
    let mut at = 1;
    for i in 0..count {
        if !is_accepted(sheet, cart, at) {
            return i;
        }
        at = locate(cart, at).end;
    }
    count
}

// What a good sheet says of a good cart.
fn judge_shows(sheet: &[u8], cart: &[u8]) -> Loading
    requires { GoodShows sheet.now cart.now 1 (count_of cart.now) }
    ensures { result ≡ load_by (decode sheet.now) (shows_of cart.now) (length cart.now) }
{
    let count = usize::from(cart[0]);
    let i = first_rejected(sheet, cart, count);
    if i == count {
        return Loading::Loaded(cart.len());
    }
    Loading::Rejected(i)
}

// What a good sheet says of a cart: its own faults, then the room, then the verdicts.
fn judge_cart(sheet: &[u8], letters: usize, cart: &[u8], room: usize) -> Result<Loading, Refusal>
    requires { (sheet_fault First sheet.now ≡ sound) × (letters ≡ letter_count sheet.now) }
    ensures { result ≡ unless
        (cart_fault letters cart.now then short Out room (length cart.now))
        (load_by (decode sheet.now) (shows_of cart.now) (length cart.now)) }
{
    check_cart(cart, letters)?;
    if room < cart.len() {
        return Err(refuse(Reason::TooLittleRoom, Part::Out, cart.len()));
    }
    Ok(judge_shows(sheet, cart))
}

// What loading a cart into an out slice of `room` cells says, without an out slice.
pub fn judge(sheet: &[u8], cart: &[u8], room: usize) -> Result<Loading, Refusal>
    ensures { result ≡ load_of sheet.now cart.now room }
{
    let z = packed::check(sheet, Part::First)?;
    judge_cart(sheet, z.letters, cart, room)
}

// Loads a cart: where the sheet accepts every show of it, its bytes are copied to the start of the out slice.
pub fn load(sheet: &[u8], cart: &[u8], out: &mut [u8]) -> Result<Loading, Refusal>
    ensures { CartLoaded sheet.now cart.now out.old out.new result }
{
    let loading = judge(sheet, cart, out.len())?;
    if let Loading::Loaded(_) = loading {
        copy(cart, out);
    }
    Ok(loading)
}
