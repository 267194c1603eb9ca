// A refusal in words, made in a lent slice.
ghost use Rattle.std.specs.Prelude.{◌≡◌, ◌≤◌, length};
ghost use Rattle.console.specs.Printed.{Shows};
ghost use Rattle.durations.specs.Said.{is_untimed_of, untimed_words, refused_words, text_file};

use durations_files::count_cells;
use format::put_literal;
use show_files::count_openings;
use slices::Refusal;
use wording::{Position, is_scene, put_scene, scene_position, show_words};

// Room for what is said: two names of 4,096 bytes and some words.
pub const SAID: usize = 8448;

// Whether a scene is refused since the sheet's text has no seconds at all.
fn is_untimed(text: &[u8], r: Refusal) -> bool
    ensures { result ≡ is_untimed_of text.now r }
{
    if !is_scene(r) {
        return false;
    }
    count_cells(text) == 0
}

// The words for such a scene.
fn put_untimed(one: &[u8], two: &[u8], q: Position, out: &mut [u8]) -> usize
    requires { (length one.now ≤ 4096) × (length two.now ≤ 4096) × (8448 ≤ length out.old) }
    ensures { Shows (untimed_words one.now two.now q)
        out.old out.new result }
{
    let spotted = put_scene(two, q, out);
    let refused = put_literal(b" refusal 9: this scene has no seconds, ", out, spotted);
    let named = put_literal(one, out, refused);
    put_literal(b" is a text of level three\n", out, named)
}

// A refusal of two files, which are named.
pub fn put_refusal(
    one: &[u8],
    text: &[u8],
    two: &[u8],
    show: &[u8],
    r: Refusal,
    out: &mut [u8],
) -> usize
    requires { (length one.now ≤ 4096) × (length two.now ≤ 4096) × (8448 ≤ length out.old) }
    ensures { Shows
        (refused_words (text_file one.now text.now)
        (text_file two.now show.now) r)
        out.old out.new result }
{
    let openings = count_openings(show);
    if is_untimed(text, r) {
        let q = scene_position(openings, r);
        return put_untimed(one, two, q, out);
    }
    show_words(b"durations", one, text, true, two, show, openings, r, out)
}
