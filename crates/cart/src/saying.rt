// What the program says on standard error, made in a lent slice.
ghost use Rattle.std.specs.Prelude.{◌≡◌, ◌≤◌, length};
ghost use Rattle.console.specs.Printed.{Shows};
ghost use Rattle.cart.specs.Said.{sheet_file, show_file, sheet_words, show_said, opening_lines_of, unknown_words};
ghost use Rattle.cart.specs.Said.{rejected_words, one_words, is_new_of, Says};

use cart_files::{Kept, Scene};
use format::put_literal;
use sheet_forms::{form_of, is_text};
use show_files::SCENES;
use slices::{Refusal, refuse};
use wording::{refusal_words, show_words};

// Room for what is said of two files: two names of 4,096 bytes and some words.
pub const SAID: usize = 8448;

// A refusal of the sheet's file.
pub fn put_sheet(one: &[u8], sheet: &[u8], r: Refusal, out: &mut [u8]) -> usize
    requires { (length one.now ≤ 4096) × (4352 ≤ length out.old) }
    ensures { Shows (sheet_words (sheet_file one.now sheet.now) r) out.old
        out.new result }
{
    let lined = is_text(form_of(sheet));
    refusal_words(b"cart", one, sheet, lined, b"", b"", false, r, out)
}

// A refusal of a show's file, which has so many opening lines.
fn put_show(name: &[u8], text: &[u8], openings: usize, r: Refusal, out: &mut [u8]) -> usize
    requires { (length name.now ≤ 4096) × (openings ≤ 4096) × (4352 ≤ length out.old) }
    ensures { Shows (show_said (show_file name.now text.now) openings r)
        out.old out.new result }
{
    show_words(b"cart", b"", b"", false, name, text, openings, r, out)
}

// How many opening lines the show of a scene has.
fn opening_lines(scene: Scene) -> usize
    ensures { (result ≡ opening_lines_of scene) × (result ≤ 4096) }
{
    if scene.openings < SCENES {
        return scene.openings;
    }
    SCENES
}

// A refusal of a scene of the cart, by its place in the show's text.
pub fn put_unknown(name: &[u8], scene: Scene, r: Refusal, out: &mut [u8]) -> usize
    requires { (length name.now ≤ 4096) × (4352 ≤ length out.old) }
    ensures { Shows (unknown_words name.now scene r) out.old out.new result }
{
    let openings = opening_lines(scene);
    let q = refuse(r.reason, r.part, scene.place);
    put_show(name, b"", openings, q, out)
}

// Whether the refusal of a text is new, after what was kept before it.
fn is_new(before: Kept, after: Kept) -> bool
    ensures { result ≡ is_new_of before after }
{
    match after {
        Kept::Nothing => false,
        Kept::Text(_) => matches!(before, Kept::Nothing),
        Kept::Long(_) => !matches!(before, Kept::Long(_)),
    }
}

// The refusal that is kept after a text came: of so many bytes where it was said before, else that of the text.
pub fn put_kept(
    name: &[u8],
    text: &[u8],
    before: Kept,
    after: Kept,
    n: usize,
    out: &mut [u8],
) -> usize
    requires { (length name.now ≤ 4096) × (4352 ≤ length out.old) × (n ≤ length out.old) }
    ensures { Says (show_file name.now text.now) before after n out.old
        out.new result }
{
    if !is_new(before, after) {
        return n;
    }
    match after {
        Kept::Nothing => n,
        Kept::Text(r) | Kept::Long(r) => put_show(name, text, 0, r, out),
    }
}

// A show that is rejected.
pub fn put_rejected(name: &[u8], one: &[u8], out: &mut [u8]) -> usize
    requires { (length name.now ≤ 4096) × (length one.now ≤ 4096) × (8448 ≤ length out.old) }
    ensures { Shows (rejected_words name.now one.now) out.old
        out.new result }
{
    let named = put_literal(name, out, 0);
    let judged = put_literal(b": rejected by ", out, named);
    let by = put_literal(one, out, judged);
    put_literal(b"\n", out, by)
}

// A file that the cart's would take the place of.
pub fn put_one(name: &[u8], out: &mut [u8]) -> usize
    requires { (length name.now ≤ 4096) × (4352 ≤ length out.old) }
    ensures { Shows (one_words name.now) out.old out.new result }
{
    let begun = put_literal(b"cart: CART and ", out, 0);
    let named = put_literal(name, out, begun);
    put_literal(b" are one file, nothing is made\n", out, named)
}
