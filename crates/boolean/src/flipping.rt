// The bytes of a complement: the sheet itself, every mark flipped.
ghost use Rattle.std.specs.Prelude.{◌≡◌, not, ◌≤◌, eqb, length};
ghost use Rattle.slices.specs.Filling.{written};
ghost use Rattle.slices.specs.Tables.{tab};
ghost use Rattle.packed.specs.Layout.{letter_count, state_count, mark, Valid};
ghost use Rattle.boolean.specs.Operations.{complement_bytes};
ghost use Rattle.boolean.specs.Pieces.{flipped_mark, flipped_part};

use slices::copy;

fn flipped(m: u8) -> u8
    ensures { result ≡ mark (not (eqb m 1)) }
{
    u8::from(m != 1)
}

// Writes the marks, each flipped.
fn flip_marks(marks: &[u8], out: &mut [u8])
    requires { length marks.now ≤ length out.old }
    ensures { out.new
        ≡ written (tab (length marks.now) (flipped_mark marks.now)) out.old }
{
    for (i, &m) in marks.iter().enumerate() {
        out[i] = flipped(m);
    }
}

// Writes the part of one leading state: its `count` next states as they are, then its marks flipped.
fn flip_part(part: &[u8], count: usize, out: &mut [u8])
    requires { (count ≤ length part.now) × (length part.now ≤ length out.old) }
    ensures { out.new ≡ written (flipped_part part.now count) out.old }
{
    copy(&part[..count], out);
    flip_marks(&part[count..], &mut out[count..]);
}

// Writes the complement: the counts and the leading table, then the part of each leading state.
pub fn write_complement(sheet: &[u8], states: usize, letters: usize, out: &mut [u8])
    requires valid { Valid sheet.now × (length sheet.now ≤ length out.old) }
    requires states_value { (states ≡ state_count sheet.now) × (letters ≡ letter_count sheet.now) }
    ensures { out.new ≡ written (complement_bytes sheet.now) out.old }
{
    let mut at = 2 + states + states * letters;
    copy(&sheet[..at], out);
    for q in 0..states {
        let k = packed::size(sheet, q);
        let end = at + k * letters + k;
        flip_part(&sheet[at..end], k * letters, &mut out[at..]);
        at = end;
    }
}
