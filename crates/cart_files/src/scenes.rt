// Which show a place of a cart lies in.
ghost use Rattle.std.specs.Prelude.{◌≡◌, cond, ◌-◌, ◌≤◌, ◌<◌, ltb, get_or};
ghost use Rattle.carts.specs.Reading.{length_at};
ghost use Rattle.cart_files.specs.Scenes.{scene_at};

use crate::Scene;

// A byte of a cart, 0 past its end.
fn byte_at(cart: &[u8], at: usize) -> usize
    ensures { (result ≡ get_or cart.now at 0) × (result < 256) }
{
    if at < cart.len() {
        usize::from(cart[at])
    } else {
        0
    }
}

// A length in the header of a show.
fn length_at(cart: &[u8], at: usize) -> usize
    requires { at ≤ 67108864 }
    ensures { (result ≡ length_at cart.now at) × (result < 65536) }
{
    byte_at(cart, at) + byte_at(cart, at + 1) * 256
}

// How far a place lies behind a start.
fn behind(place: usize, start: usize) -> usize
    ensures { result ≡ place - start }
{
    place.saturating_sub(start)
}

// A scene of the show whose opening and loop begin at these places.
fn scene_in(show: usize, prefix: usize, period: usize, place: usize) -> Scene
    requires { prefix ≤ period }
    ensures { result ≡ record {
      show = show;
      openings = period - prefix;
      place = cond (ltb place period)
          (place - prefix) (place - period);
    } }
{
    let openings = period - prefix;
    if place < period {
        return Scene {
            show,
            openings,
            place: behind(place, prefix),
        };
    }
    Scene {
        show,
        openings,
        place: place - period,
    }
}

// The scene at a place of a cart.
pub fn scene_at(cart: &[u8], place: usize) -> Scene
    ensures { (result ≡ scene_at cart.now place) × (result.openings < 65536) }
{
    let count = byte_at(cart, 0);
    let mut at = 1;
    for i in 0..count {
        let prefix = at + 4;
        let period = prefix + length_at(cart, at);
        let end = period + length_at(cart, at + 2);
        if place < end {
            return scene_in(i, prefix, period, place);
        }
        at = end;
    }
    Scene {
        show: count,
        openings: 0,
        place: 0,
    }
}
