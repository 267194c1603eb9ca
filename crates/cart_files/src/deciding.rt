// What the sheet says of the cart of the texts that came.
ghost use Rattle.std.specs.Prelude.{◌≡◌, List, ℕ, ◌≤◌, length};
ghost use Rattle.slices.specs.declared.Part.TheVariants.{First};
ghost use Rattle.sheet_forms.specs.Forms.{sheet_from};
ghost use Rattle.cart_files.specs.Decided.{decided};
ghost use Rattle.cart_files.specs.Gathered.{Gathered, of_cart, of_short, of_long};

use crate::{Collected, Kept};
use carts::Loading;
use sheet_forms::{SHEET, form_of, pack};
use slices::{Part, Refusal};

// What a packed sheet says, after the refusals of the texts.
fn decide_cart(sheet: &[u8], cart: &[u8], kept: Kept) -> Result<Loading, Refusal>
    ensures { result ≡ of_cart sheet.now cart.now kept }
{
    match kept {
        Kept::Nothing => carts::judge(sheet, cart, cart.len()),
        Kept::Text(r) | Kept::Long(r) => Err(r),
    }
}

// What the sheet says that a file is.
fn decide_sheet(sheet: &[u8], cart: &[u8], kept: Kept) -> Result<Loading, Refusal>
    ensures { result ≡ of_short (sheet_from First sheet.now) cart.now kept }
{
    let mut bytes = [0u8; SHEET];
    let n = pack(form_of(sheet), sheet, Part::First, &mut bytes)?;
    decide_cart(&bytes[..n], cart, kept)
}

// The same, after the texts that are too long.
fn decide_short(sheet: &[u8], cart: &[u8], kept: Kept) -> Result<Loading, Refusal>
    ensures { result ≡ of_long (sheet_from First sheet.now) cart.now kept }
{
    match kept {
        Kept::Nothing | Kept::Text(_) => decide_sheet(sheet, cart, kept),
        Kept::Long(r) => Err(r),
    }
}

// What is decided of a sheet's file, of which so many bytes came, and of the texts that came after it.
pub fn decide(sheet: &[u8], cart: &[u8], held: Collected) -> Result<Loading, Refusal>
    requires { held.length ≤ length cart.now }
    ensures { (ts : List (List ℕ)) → Gathered ts cart.now held →
        result ≡ decided sheet.now ts }
{
    console::check_length(sheet.len(), Part::First)?;
    decide_short(sheet, &cart[..held.length], held.kept)
}
