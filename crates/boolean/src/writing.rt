// The bytes of a product: sizes, leading table, and for each pair of leading states the part of its progress automata.
ghost use Rattle.std.specs.Prelude.{◌≡◌, ◌+◌, ◌*◌, ◌≤◌, ◌<◌, length};
ghost use Rattle.slices.specs.Filling.{written};
ghost use Rattle.slices.specs.Tables.{tab, table};
ghost use Rattle.packed.specs.Layout.{state_count, mark};
ghost use Rattle.pairing.specs.Pairs.{next_pair_of, Steps, MarksRead, sizes_of};
ghost use Rattle.boolean.specs.Operations.{op_of, Pair, product_bytes};
ghost use Rattle.boolean.specs.Pieces.{pair_mark, pair_size, pair_part, product_front, product_parts, product_at};

use crate::Operation;
use pairing::{Beside, PairSizes};
use slices::narrow_copy;

// Writes the next pairs of `count` pairs, as bytes.
fn write_table(first: &[u8], second: &[u8], t: Beside, count: usize, out: &mut [u8])
    requires { Steps first.now second.now t count × (count ≤ 32) × (count * t.letters ≤ length out.old) }
    ensures { out.new
        ≡ written (table count t.letters (next_pair_of first.now second.now t)) out.old }
{
    let mut table = [0u16; 1024];
    pairing::tabulate(first, second, t, count, &mut table);
    let end = count * t.letters;
    narrow_copy(&table[..end], out);
}

fn joined(op: Operation, a: bool, b: bool) -> u8
    ensures { result ≡ mark (op_of op a b) }
{
    match op {
        Operation::Both => u8::from(a && b),
        Operation::Either => u8::from(a || b),
    }
}

// Writes the marks of the pairs of two automata, the first of `size` states.
fn write_marks(first: &[u8], second: &[u8], m: Beside, size: usize, op: Operation, out: &mut [u8])
    requires { MarksRead first.now second.now m size × (size * m.width ≤ length out.old) }
    ensures { out.new
        ≡ written (tab (size * m.width) (pair_mark op first.now second.now m)) out.old }
{
    let count = size * m.width;
    for (x, cell) in out[..count].iter_mut().enumerate() {
        let a = packed::is_marked(first, m.first, x / m.width);
        let b = packed::is_marked(second, m.second, x % m.width);
        *cell = joined(op, a, b);
    }
}

// Writes the progress automaton of the pair (p, q): its next states, then its marks. Says how many bytes that took.
fn write_pair(
    first: &[u8],
    second: &[u8],
    p: usize,
    q: usize,
    op: Operation,
    out: &mut [u8],
) -> usize
    requires pair { Pair first.now second.now × (p < state_count first.now) × (q < state_count second.now) }
    requires q_in_bounds { length (pair_part op first.now second.now p q) ≤ length out.old }
    ensures says { result ≡ length (pair_part op first.now second.now p q) }
    ensures fills { out.new
        ≡ written (pair_part op first.now second.now p q) out.old }
{
    let size = packed::size(first, p);
    let t = pairing::progress(first, second, p, q);
    let count = size * t.width;
    write_table(first, second, t, count, out);
    let at = count * t.letters;
    let m = pairing::marks(first, second, p, q);
    write_marks(first, second, m, size, op, &mut out[at..]);
    at + count
}

// Writes the progress automata of all pairs of leading states, each into its own part.
fn write_pairs(first: &[u8], second: &[u8], z: PairSizes, op: Operation, out: &mut [u8])
    requires pair { Pair first.now second.now × (z ≡ sizes_of first.now second.now) }
    requires second_in_bounds { length (product_parts op first.now second.now) ≤ length out.old }
    ensures { out.new ≡ written (product_parts op first.now second.now) out.old }
{
    let mut at = 0;
    for x in 0..z.pairs {
        at += write_pair(
            first,
            second,
            x / z.second,
            x % z.second,
            op,
            &mut out[at..],
        );
    }
}

// The size of the progress automaton of the pair x of leading states.
fn size_of(first: &[u8], second: &[u8], z: PairSizes, x: usize) -> usize
    requires { Pair first.now second.now × (z ≡ sizes_of first.now second.now) × (x < z.pairs) }
    ensures { result ≡ pair_size first.now second.now x }
{
    packed::size(first, x / z.second) * packed::size(second, x % z.second)
}

// Writes the sizes of the pairs of leading states.
fn write_sizes(first: &[u8], second: &[u8], z: PairSizes, out: &mut [u8])
    requires { Pair first.now second.now × (z ≡ sizes_of first.now second.now) × (z.pairs ≤ length out.old) }
    ensures { out.new
        ≡ written (tab z.pairs (pair_size first.now second.now)) out.old }
{
    for (x, cell) in out[..z.pairs].iter_mut().enumerate() {
        *cell = size_of(first, second, z, x) as u8;
    }
}

// Writes the counts and the leading table of the product.
fn write_front(first: &[u8], second: &[u8], z: PairSizes, out: &mut [u8])
    requires pair { Pair first.now second.now × (z ≡ sizes_of first.now second.now) }
    requires letters_in_bounds { 2 + z.pairs + z.pairs * z.letters ≤ length out.old }
    ensures { out.new ≡ written (product_front first.now second.now) out.old }
{
    out[0] = z.letters as u8;
    out[1] = z.pairs as u8;
    write_sizes(first, second, z, &mut out[2..]);
    let at = 2 + z.pairs;
    let t = pairing::leads(first, second);
    write_table(first, second, t, z.pairs, &mut out[at..]);
}

// The length of the product's sheet.
pub fn product_length(first: &[u8], second: &[u8], z: PairSizes) -> usize
    requires { Pair first.now second.now × (z ≡ sizes_of first.now second.now) }
    ensures { result ≡ product_at first.now second.now z.pairs }
{
    let mut at = 2 + z.pairs + z.pairs * z.letters;
    for x in 0..z.pairs {
        at += size_of(first, second, z, x) * (z.letters + 1);
    }
    at
}

// Writes the product, where it fits.
pub fn write_product(first: &[u8], second: &[u8], z: PairSizes, op: Operation, out: &mut [u8])
    requires pair { Pair first.now second.now × (z ≡ sizes_of first.now second.now) }
    requires second_in_bounds { length (product_bytes op first.now second.now) ≤ length out.old }
    ensures { out.new ≡ written (product_bytes op first.now second.now) out.old }
{
    write_front(first, second, z, out);
    let at = 2 + z.pairs + z.pairs * z.letters;
    write_pairs(first, second, z, op, &mut out[at..]);
}
