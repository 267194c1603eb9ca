// Makes a cart of shows that a sheet accepts, for the table-top model: of each show's text, in the order of the names.
#![tactic(auto)]

ghost use Rattle.std.specs.Prelude.{◌≡◌, ◌≤◌, length};

use cart_files::{CART, Collected, Kept, scene_at};
use carts::Loading;
use gathering::gather;
use names::{end_place, name_place, show_place};
use saying::{put_one, put_rejected, put_sheet, put_unknown};
use slices::{Part, Refusal};
use text::put_decision;

mod gathering; // gathering.rt: the shows, one after the other
mod names; // names.rt: the places of the names
mod saying; // saying.rt: what is said, for people
mod text; // text.rt: what is printed

// Says where the cart's file is that of a source, and answers whether it is.
fn is_source(rt: &HostRuntime, target: &[u8], name: &[u8]) -> bool
    requires { length name.now ≤ 4096 }
{
    if !saving::one_file(rt, target, name) {
        return false;
    }
    let mut said = [0u8; wording::WORDS];
    let n = put_one(name, &mut said);
    console::say(rt, &said[..n]);
    true
}

// The same of the file that an argument names.
fn is_named(rt: &HostRuntime, target: &[u8], place: usize) -> bool {
    let mut name = [0u8; console::NAME];
    let n = console::name_at(rt, place, &mut name);
    is_source(rt, target, &name[..n])
}

// The same of so many shows.
fn is_show(rt: &HostRuntime, target: &[u8], end: usize, shows: usize) -> bool {
    (0..shows).any(|i| is_named(rt, target, show_place(i, end)))
}

// Saves the cart, but not in the place of a source.
fn save(rt: &HostRuntime, one: &[u8], target: &[u8], end: usize, shows: usize, cart: &[u8])
    requires { length one.now ≤ 4096 }
{
    if is_source(rt, target, one) || is_show(rt, target, end, shows) {
        return;
    }
    saving::save(rt, target, cart);
}

// Says that a show is rejected.
fn say_rejected(rt: &HostRuntime, one: &[u8], place: usize)
    requires { length one.now ≤ 4096 }
{
    let mut name = [0u8; console::NAME];
    let n = console::name_at(rt, place, &mut name);
    let mut said = [0u8; saying::SAID];
    let m = put_rejected(&name[..n], one, &mut said);
    console::say(rt, &said[..m]);
}

// Says that a scene of the cart is refused.
fn say_unknown(rt: &HostRuntime, end: usize, cart: &[u8], r: Refusal) {
    let scene = scene_at(cart, r.place);
    let mut name = [0u8; console::NAME];
    let n = console::name_at(rt, show_place(scene.show, end), &mut name);
    let mut said = [0u8; wording::WORDS];
    let m = put_unknown(&name[..n], scene, r, &mut said);
    console::say(rt, &said[..m]);
}

// Says that the sheet is refused.
fn say_sheet(rt: &HostRuntime, one: &[u8], sheet: &[u8], r: Refusal)
    requires { length one.now ≤ 4096 }
{
    let mut said = [0u8; wording::WORDS];
    let n = put_sheet(one, sheet, r, &mut said);
    console::say(rt, &said[..n]);
}

// Says a refusal: of the sheet; of a text, in the words that are there; or of a scene of the cart.
fn say_refused(
    rt: &HostRuntime,
    one: &[u8],
    sheet: &[u8],
    end: usize,
    cart: &[u8],
    kept: Kept,
    words: &[u8],
    r: Refusal,
)
    requires { length one.now ≤ 4096 }
{
    if r.part == Part::First {
        say_sheet(rt, one, sheet, r);
        return;
    }
    match kept {
        Kept::Nothing => say_unknown(rt, end, cart, r),
        _ => console::say(rt, words),
    }
}

// Prints what is decided.
fn print_decision(
    rt: &HostRuntime,
    sheet: &[u8],
    cart: &[u8],
    held: Collected,
) -> Result<Loading, Refusal>
    requires { held.length ≤ length cart.now }
{
    let mut text = [0u8; text::TEXT];
    let decision = put_decision(sheet, cart, held, &mut text);
    console::print(rt, &text[..decision.text]);
    decision.answer
}

// Does what is decided, and says it.
fn conclude(
    rt: &HostRuntime,
    one: &[u8],
    sheet: &[u8],
    target: &[u8],
    end: usize,
    held: Collected,
    cart: &[u8],
    words: &[u8],
)
    requires { (length one.now ≤ 4096) × (held.length ≤ length cart.now) }
{
    let shows = &cart[..held.length];
    match print_decision(rt, sheet, cart, held) {
        Ok(Loading::Loaded(_)) => save(rt, one, target, end, held.count, shows),
        Ok(Loading::Rejected(i)) => say_rejected(rt, one, show_place(i, end)),
        Err(r) => say_refused(rt, one, sheet, end, shows, held.kept, words, r),
    }
}

// Gathers so many shows in a cart.
fn fill(
    rt: &HostRuntime,
    one: &[u8],
    sheet: &[u8],
    target: &[u8],
    end: usize,
    shows: usize,
    cart: &mut [u8],
)
    requires { (length one.now ≤ 4096) × (shows ≤ 64) × (length cart.old ≡ 524545) }
{
    let mut said = [0u8; wording::WORDS];
    let gathered = gather(rt, end, shows, cart, &mut said);
    let held = gathered.held;
    let n = gathered.said;
    conclude(rt, one, sheet, target, end, held, cart, &said[..n]);
}

// Makes the cart in a slice that has room for every one.
fn make(rt: &HostRuntime, one: &[u8], sheet: &[u8], target: &[u8], end: usize, shows: usize)
    requires { (length one.now ≤ 4096) × (shows ≤ 64) }
{
    let mut cart = [0u8; CART];
    fill(rt, one, sheet, target, end, shows, &mut cart);
}

// Reads the sheet.
fn run(rt: &HostRuntime, one: &[u8], target: &[u8], end: usize, shows: usize)
    requires { (length one.now ≤ 4096) × (shows ≤ 64) }
{
    let mut sheet = [0u8; console::ROOM];
    let n = console::load(rt, one, &mut sheet);
    make(rt, one, &sheet[..n], target, end, shows);
}

// Goes on with the names. A source that is too long to be a name counts as missing; of a target that is, this is said,
// and nothing is made.
fn run_named(rt: &HostRuntime, shows: usize)
    requires { shows ≤ 64 }
{
    let end = end_place(rt);
    let mut target = [0u8; console::NAME];
    let Some(m) = console::target_at(rt, name_place(1, end), b"CART", &mut target) else {
        return;
    };
    let mut one = [0u8; console::NAME];
    let n = console::name_at(rt, name_place(0, end), &mut one);
    run(rt, &one[..n], &target[..m], end, shows);
}

// Three lines: what is read, what is made or printed, an example.
fn usage(rt: &HostRuntime) {
    console::say(
        rt,
        b"usage: cart [--] SHEET CART SHOW..: reads a sheet, packed, as text or drawn, and the texts ",
    );
    console::say(rt, b"of 1 to 64 shows\n");
    console::say(
        rt,
        b"makes CART, a cart of the shows, where the sheet accepts each; else prints rejected and the ",
    );
    console::say(
        rt,
        b"index of the first that it rejects, from 0, or the refusal, and makes nothing\n",
    );
    console::say(
        rt,
        b"example: cart old.txt evening.cart show.txt show.txt\n",
    );
}

fn main(rt: HostRuntime) {
    match console::arguments(&rt) {
        Some(asked) if !asked.explain && (3..=66).contains(&asked.names) => {
            run_named(&rt, asked.names - 2);
        }
        _ => usage(&rt),
    }
}
