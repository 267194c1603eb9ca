// Complement, intersection and union of families of DFAs, written as packed sheets into a lent slice.
#![tactic(auto)]

mod flipping; // flipping.rt: the bytes of a complement
mod writing; // writing.rt: the bytes of a product

ghost use Rattle.std.specs.Prelude.{◌≡◌, length};
ghost use Rattle.slices.specs.Filling.{Fills};
ghost use Rattle.pairing.specs.Pairs.{sizes_of};
ghost use Rattle.boolean.specs.Operations.{too_short, complement_bytes, complement_fault};
ghost use Rattle.boolean.specs.Operations.{product_bytes, intersection_bytes, union_bytes, product_fault, Pair};

use flipping::write_complement;
use pairing::PairSizes;
use slices::{Part, Reason, Refusal, refuse};
use writing::{product_length, write_product};

// Which marks of a pair make it marked.
#[derive(Clone, Copy, Debug, PartialEq, Eq)]
pub enum Operation {
    Both,
    Either,
}

// The complement of a sheet: the same sheet, every mark flipped.
pub fn complement(sheet: &[u8], out: &mut [u8]) -> Result<usize, Refusal>
    ensures { Fills (complement_fault sheet.now (length out.old))
        (complement_bytes sheet.now) out.old out.new result }
{
    let z = packed::check(sheet, Part::First)?;
    if out.len() < sheet.len() {
        return Err(refuse(Reason::TooLittleRoom, Part::Out, sheet.len()));
    }
    let end = sheet.len();
    write_complement(sheet, z.states, z.letters, &mut out[..end]);
    Ok(sheet.len())
}

// The product of two sheets that can have one, where it fits.
fn fill_product(
    first: &[u8],
    second: &[u8],
    z: PairSizes,
    op: Operation,
    out: &mut [u8],
) -> Result<usize, Refusal>
    requires { Pair first.now second.now × (z ≡ sizes_of first.now second.now) }
    ensures { Fills (too_short (length out.old) (length (product_bytes op first.now second.now)))
        (product_bytes op first.now second.now) out.old out.new result }
{
    let needed = product_length(first, second, z);
    if out.len() < needed {
        return Err(refuse(Reason::TooLittleRoom, Part::Out, needed));
    }
    write_product(first, second, z, op, out);
    Ok(needed)
}

// The product of two sheets: both are judged, then N and K, then the room.
fn product(first: &[u8], second: &[u8], op: Operation, out: &mut [u8]) -> Result<usize, Refusal>
    ensures { Fills (product_fault op first.now second.now (length out.old))
        (product_bytes op first.now second.now) out.old out.new result }
{
    let z = pairing::check(first, second)?;
    if 32 < z.pairs {
        return Err(refuse(Reason::ProductSize, Part::Out, z.pairs));
    }
    if 32 < z.widest {
        return Err(refuse(Reason::ProductSize, Part::Out, z.widest));
    }
    fill_product(first, second, z, op, out)
}

// The intersection of two sheets: a pair is marked when both its states are.
pub fn intersection(first: &[u8], second: &[u8], out: &mut [u8]) -> Result<usize, Refusal>
    ensures { Fills (product_fault Operation.Both first.now second.now (length out.old))
        (intersection_bytes first.now second.now) out.old out.new result }
{
    product(first, second, Operation::Both, out)
}

// The union of two sheets: a pair is marked when either of its states is.
pub fn union(first: &[u8], second: &[u8], out: &mut [u8]) -> Result<usize, Refusal>
    ensures { Fills (product_fault Operation.Either first.now second.now (length out.old))
        (union_bytes first.now second.now) out.old out.new result }
{
    product(first, second, Operation::Either, out)
}
