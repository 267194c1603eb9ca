// For C: the check of a packed sheet, complement, intersection and union. Each call returns 0, and changes nothing,
// where the answer slice is too short; else 1.
#![tactic(auto)]

ghost use Rattle.std.specs.Prelude.{◌≡◌, length};
ghost use Rattle.slices.specs.declared.Part.TheVariants.{First};
ghost use Rattle.packed.specs.Faults.{checked};
ghost use Rattle.boolean.specs.declared.Operation.TheVariants.{Both, Either};
ghost use Rattle.boolean.specs.Operations.{complement_fault, complement_bytes};
ghost use Rattle.boolean.specs.Operations.{product_fault, intersection_bytes, union_bytes};
ghost use Rattle.answers.specs.Layout.{numbers_of, padded, Told, FillTold};
ghost use Rattle.c_sheet.specs.Numbers.{size_numbers};

use answers::{SHORT, fill_numbers, refusal_numbers, tell};
use packed::Sizes;
use slices::{Part, Refusal};

// The bytes of the answers.
const CHECK: usize = 32;

const FILL: usize = 24;

fn check_numbers(sizes: Result<Sizes, Refusal>) -> [u64; 4]
    ensures { result ≡ padded 4 (numbers_of size_numbers sizes) }
{
    match sizes {
        Ok(z) => [0, z.letters as u64, z.states as u64, z.widest as u64],
        Err(r) => refusal_numbers(r),
    }
}

// Whether bytes are a packed sheet: its sizes.
#[unsafe(no_mangle)]
pub extern "C" fn fdfa_check(sheet: &[u8], answer: &mut [u8]) -> u32
    ensures { Told 4 (numbers_of size_numbers (checked First sheet.now))
        answer.old answer.new result }
{
    if answer.len() < CHECK {
        return SHORT;
    }
    let sizes = packed::check(sheet, Part::First);
    let numbers = check_numbers(sizes);
    tell(&numbers, answer)
}

// The complement, in the out slice: its length.
#[unsafe(no_mangle)]
pub extern "C" fn fdfa_complement(sheet: &[u8], out: &mut [u8], answer: &mut [u8]) -> u32
    ensures { FillTold (complement_fault sheet.now (length out.old))
        (complement_bytes sheet.now)
        out.old answer.old out.new answer.new result }
{
    if answer.len() < FILL {
        return SHORT;
    }
    let filled = boolean::complement(sheet, out);
    let numbers = fill_numbers(filled);
    tell(&numbers, answer)
}

// The intersection, in the out slice: its length.
#[unsafe(no_mangle)]
pub extern "C" fn fdfa_intersection(
    first: &[u8],
    second: &[u8],
    out: &mut [u8],
    answer: &mut [u8],
) -> u32
    ensures { FillTold
        (product_fault Both first.now second.now (length out.old))
        (intersection_bytes first.now second.now)
        out.old answer.old out.new answer.new result }
{
    if answer.len() < FILL {
        return SHORT;
    }
    let filled = boolean::intersection(first, second, out);
    let numbers = fill_numbers(filled);
    tell(&numbers, answer)
}

// The union, in the out slice: its length.
#[unsafe(no_mangle)]
pub extern "C" fn fdfa_union(first: &[u8], second: &[u8], out: &mut [u8], answer: &mut [u8]) -> u32
    ensures { FillTold
        (product_fault Either first.now second.now (length out.old))
        (union_bytes first.now second.now)
        out.old answer.old out.new answer.new result }
{
    if answer.len() < FILL {
        return SHORT;
    }
    let filled = boolean::union(first, second, out);
    let numbers = fill_numbers(filled);
    tell(&numbers, answer)
}
