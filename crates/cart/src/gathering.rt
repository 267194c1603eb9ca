// The shows that the arguments name, gathered one after the other.
ghost use Rattle.std.specs.Prelude.{◌≡◌, List, [], ◌∷◌, ◌++◌, ◌+◌, ◌≤◌, ◌<◌, length};
ghost use Rattle.cart_files.specs.Gathered.{Bounded, Adds};
ghost use Rattle.wording.specs.Words.{File};
ghost use Rattle.cart.specs.Said.{show_file, Worded, Sourced};

use crate::names::show_place;
use crate::saying::put_kept;
use cart_files::{Collected, add_show, start};

// What is held of the shows that came, and how many bytes the words of a refusal are.
#[derive(Clone, Copy, Debug, PartialEq, Eq)]
pub struct Gathering {
    pub held: Collected,
    pub said: usize,
}

// One show more: a file's name, and the bytes that came of it.
fn add_named(
    name: &[u8],
    text: &[u8],
    gathered: Gathering,
    cart: &mut [u8],
    said: &mut [u8],
) -> Gathering
    requires { (length name.now ≤ 4096) × (length cart.old ≡ 524545) × (length said.old ≡ 4352) ×
        (gathered.held.count < 64) × Bounded gathered.held × (gathered.said ≤ 4352) }
    ensures { Adds text.now cart.old cart.new gathered.held result.held ×
        (result.said ≤ 4352) × ((fs : List File) →
        Worded fs cart.old said.old gathered.held gathered.said →
        Worded (fs ++ (show_file name.now text.now ∷ [])) cart.new said.new
        result.held result.said) }
{
    let old = gathered.held;
    let held = add_show(text, old, cart);
    let before = old.kept;
    let after = held.kept;
    let n = put_kept(name, text, before, after, gathered.said, said);
    Gathering { held, said: n }
}

// One show more: the file that an argument names.
fn add_file(
    rt: &HostRuntime,
    place: usize,
    gathered: Gathering,
    cart: &mut [u8],
    said: &mut [u8],
) -> Gathering
    requires { (length cart.old ≡ 524545) × (length said.old ≡ 4352) × (gathered.held.count < 64) ×
        Bounded gathered.held × (gathered.said ≤ 4352) ×
        Sourced cart.old said.old gathered.held gathered.said }
    ensures { (result.held.count ≡ gathered.held.count + 1) × Bounded result.held × (result.said ≤ 4352) ×
        Sourced cart.new said.new result.held result.said }
{
    let mut name = [0u8; console::NAME];
    let n = console::name_at(rt, place, &mut name);
    let mut text = [0u8; console::ROOM];
    let m = console::load(rt, &name[..n], &mut text);
    add_named(&name[..n], &text[..m], gathered, cart, said)
}

// So many shows.
pub fn gather(
    rt: &HostRuntime,
    end: usize,
    shows: usize,
    cart: &mut [u8],
    said: &mut [u8],
) -> Gathering
    requires { (length cart.old ≡ 524545) × (length said.old ≡ 4352) × (shows ≤ 64) }
    ensures { (result.held.count ≡ shows) × Bounded result.held × (result.said ≤ 4352) ×
        Sourced cart.new said.new result.held result.said }
{
    let mut gathered = Gathering {
        held: start(cart),
        said: 0,
    };
    for i in 0..shows {
        gathered = add_file(rt, show_place(i, end), gathered, cart, said);
    }
    gathered
}
