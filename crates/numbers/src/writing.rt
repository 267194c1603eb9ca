// Numbers written: a byte is stored where there is room for it, so that a text can be measured on an empty slice; a
// small number also where there is room for all of it.
ghost use Rattle.std.specs.Prelude.{◌≡◌, cond, ◌∷◌, [], ◌+◌, ◌≤◌, ◌<◌, leb, length};
ghost use Rattle.numbers.specs.Digits.{digits_of, field};
ghost use Rattle.numbers.specs.Storing.{Stored};

// One byte, where there is room for it; and the place after it.
pub fn put(out: &mut [u8], at: usize, c: u8) -> usize
    requires { at + 1 ≤ 18446744073709551615 }
    ensures { Stored out.old at (c ∷ []) out.new result }
{
    if at < out.len() {
        out[at] = c;
    }
    at + 1
}

fn digit(d: usize) -> u8
    requires { d < 10 }
    ensures { result ≡ 48 + d }
{
    (48 + d) as u8
}

// How many digits a number has.
pub fn width(n: usize) -> usize
    ensures { (result ≡ length (digits_of n)) × (result ≤ 20) }
{
    let mut w = 1;
    let mut rest = n;
    while 10 <= rest {
        rest /= 10;
        w += 1;
    }
    w
}

// The digits of a number, the last of them first.
fn put_digits(n: usize, out: &mut [u8], at: usize) -> usize
    requires { at + length (digits_of n) ≤ 18446744073709551615 }
    ensures { Stored out.old at (digits_of n) out.new result }
{
    let w = width(n);
    let mut rest = n;
    for i in (1..w).rev() {
        put(out, at + i, digit(rest % 10));
        rest /= 10;
    }
    put(out, at, digit(rest));
    at + w
}

// A number and the byte that ends it; the small ones, which are the most, digit by digit.
pub fn put_field(n: usize, end: u8, out: &mut [u8], at: usize) -> usize
    requires { at + length (field n end) ≤ 18446744073709551615 }
    ensures { Stored out.old at (field n end) out.new result }
{
    if n < 10 {
        let p = put(out, at, digit(n));
        return put(out, p, end);
    }
    if n < 100 {
        let p = put(out, at, digit(n / 10));
        let r = put(out, p, digit(n % 10));
        return put(out, r, end);
    }
    let p = put_digits(n, out, at);
    put(out, p, end)
}

// 1 where a number is at least a bound, else 0.
fn at_least(bound: usize, n: usize) -> usize
    ensures { result ≡ cond (leb bound n) 1 0 }
{
    usize::from(bound <= n)
}

// How many digits a number below 1,000 has, without a jump in the machine code.
pub fn small_width(n: usize) -> usize
    requires { n < 1000 }
    ensures { result ≡ length (digits_of n) }
{
    1 + at_least(10, n) + at_least(100, n)
}

// A number below 1,000 and the byte that ends it, with room for all of it. No jump: a digit that is not needed is
// written over.
pub fn put_small(n: usize, end: u8, out: &mut [u8], at: usize) -> usize
    requires { (n < 1000) × (at + length (field n end) ≤ length out.old) }
    ensures { Stored out.old at (field n end) out.new result }
{
    out[at] = digit(n / 100);
    let tens = at + at_least(100, n);
    out[tens] = digit(n / 10 % 10);
    let ones = tens + at_least(10, n);
    out[ones] = digit(n % 10);
    out[ones + 1] = end;
    ones + 2
}
