// The packed sheet of the numbers that a text says. Each function answers the place after the cells that it fills.
ghost use Rattle.std.specs.Prelude.{◌≡◌, ◌++◌, ℕ, ◌+◌, ◌*◌, ◌≤◌, ◌<◌, length, get_or};
ghost use Rattle.slices.specs.Tables.{tab, rows, sum, table};
ghost use Rattle.packed.specs.Layout.{front_bytes, part_bytes, pack};
ghost use Rattle.numbers.specs.Storing.{Stored};
ghost use Rattle.blocks.specs.Text.{letters_in, states_in, size_in};
ghost use Rattle.blocks.specs.Numbers.{family_of};
ghost use Rattle.blocks.specs.Values.{Readable};

// Numbers `stride` apart.
fn gather(
    values: &[u16],
    at: usize,
    stride: usize,
    count: usize,
    out: &mut [u8],
    to: usize,
) -> usize
    requires at_bound { (at ≤ 65536) × (stride ≤ 40) × (count ≤ 40) × (to + count ≤ length out.old) }
    requires by_index { (i : ℕ) → i < count → (at + i * stride < length values.now) ×
        (get_or values.now (at + i * stride) 0 < 256) }
    ensures { Stored out.old to (tab count (λ i. get_or values.now (at + i * stride) 0)) out.new result }
{
    for (i, cell) in out[to..to + count].iter_mut().enumerate() {
        *cell = values[at + i * stride] as u8;
    }
    to + count
}

// A table of k rows of s next states, each after `head` numbers.
fn fill_table(
    values: &[u16],
    at: usize,
    head: usize,
    s: usize,
    k: usize,
    out: &mut [u8],
    to: usize,
) -> usize
    requires at_bound { (at ≤ 40000) × (head ≤ 3) × (s ≤ 32) × (k ≤ 32) × (to + k * s ≤ length out.old) }
    requires head_in_bounds { at + k * (s + head) ≤ length values.now }
    requires by_index { (q a : ℕ) → q < k → a < s → get_or values.now (at + (q * (s + head) + (head + a))) 0 < 256 }
    ensures { Stored out.old to (table k s (λ q a. get_or values.now
        (at + (q * (s + head) + (head + a))) 0)) out.new result }
{
    let mut w = to;
    let mut p = at + head;
    for q in 0..k {
        w = gather(values, p, 1, s, out, w);
        p += s + head;
    }
    w
}

// The part of a progress automaton of k states, whose rows begin at `at`.
fn fill_part(parts: &[u16], s: usize, k: usize, at: usize, out: &mut [u8], to: usize) -> usize
    requires at_bound { (at ≤ 40000) × (s ≤ 32) × (k ≤ 32) × (to + k * (s + 1) ≤ length out.old) ×
        (at + k * (s + 3) ≤ length parts.now) }
    requires by_index { (p a : ℕ) → p < k → a < s → get_or parts.now (at + (p * (s + 3) + (3 + a))) 0 < 256 }
    requires by_index_2 { (p : ℕ) → p < k → get_or parts.now (at + (p * (s + 3) + 2)) 0 < 256 }
    ensures { Stored out.old to (table k s (λ p a. get_or parts.now (at + (p * (s + 3) + (3 + a))) 0)
        ++ tab k (λ p. get_or parts.now (at + (p * (s + 3) + 2)) 0)) out.new result }
{
    let w = fill_table(parts, at, 3, s, k, out, to);
    gather(parts, at + 2, s + 3, k, out, w)
}

// The parts of all progress automata. The sizes are in the front.
fn fill_parts(front: &[u16], parts: &[u16], s: usize, n: usize, out: &mut [u8], to: usize) -> usize
    requires readable { Readable front.now parts.now × (s ≡ letters_in front.now) × (n ≡ states_in front.now) }
    requires parts_in_bounds { to + length (rows (states_in front.now)
        (part_bytes (family_of front.now parts.now))) ≤ length out.old }
    ensures { Stored out.old to (rows (states_in front.now)
        (part_bytes (family_of front.now parts.now))) out.new result }
{
    let mut p = 0;
    let mut w = to;
    for q in 0..n {
        let k = usize::from(front[3 + q * (s + 2) + 1]);
        w = fill_part(parts, s, k, p, out, w);
        p += k * (s + 3);
    }
    w
}

// The counts and the leading table.
fn fill_front(front: &[u16], parts: &[u16], s: usize, n: usize, out: &mut [u8]) -> usize
    requires readable { Readable front.now parts.now × (s ≡ letters_in front.now) × (n ≡ states_in front.now) }
    requires parts_in_bounds { length (front_bytes (family_of front.now parts.now)) ≤ length out.old }
    ensures { Stored out.old 0 (front_bytes (family_of front.now parts.now)) out.new result }
{
    out[0] = s as u8;
    out[1] = n as u8;
    let w = gather(front, 4, s + 2, n, out, 2);
    fill_table(front, 3, 2, s, n, out, w)
}

// The packed sheet.
pub fn fill(front: &[u16], parts: &[u16], s: usize, n: usize, out: &mut [u8]) -> usize
    requires readable { Readable front.now parts.now × (s ≡ letters_in front.now) × (n ≡ states_in front.now) }
    requires parts_in_bounds { length (pack (family_of front.now parts.now)) ≤ length out.old }
    ensures { Stored out.old 0 (pack (family_of front.now parts.now)) out.new result }
{
    let w = fill_front(front, parts, s, n, out);
    fill_parts(front, parts, s, n, out, w)
}

// The rows of all progress automata.
pub fn row_count(front: &[u16], s: usize, n: usize) -> usize
    requires s_value { (s ≡ letters_in front.now) × (n ≡ states_in front.now) × (s ≤ 32) × (n ≤ 32) ×
        (3 + n * (s + 2) ≤ length front.now) }
    requires by_index { (q : ℕ) → q < n → size_in front.now q ≤ 32 }
    ensures { (result ≡ sum (states_in front.now) (size_in front.now)) × (result ≤ 1024) }
{
    let mut count = 0;
    for q in 0..n {
        count += usize::from(front[3 + q * (s + 2) + 1]);
    }
    count
}
