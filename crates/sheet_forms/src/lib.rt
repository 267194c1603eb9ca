// A sheet's file in any of its forms, as the packed sheet that it is.
#![tactic(auto)]

ghost use Rattle.std.specs.Prelude.{◌≡◌, ◌≤◌, length};
ghost use Rattle.sheet_forms.specs.declared.Form.TheVariants.{Text, Drawn, Packed};
ghost use Rattle.sheet_forms.specs.Forms.{form_of, form_in_value, is_text_of, of_part_of, sheet_as, FillsWith};

use buchi_import::import;
use slices::{Part, Refusal, copy};

// The longest packed sheet: 32 scenes, 32 places, 32 places in each loop automaton.
pub const SHEET: usize = 34850;

// How a file's bytes are read.
#[derive(Clone, Copy, Debug, PartialEq, Eq)]
pub enum Form {
    Text,
    Drawn,
    Packed,
}

// The form that a file's first byte tells.
pub fn form_of(bytes: &[u8]) -> Form
    ensures { result ≡ form_of bytes.now }
{
    if bytes.len() == 0 {
        return Form::Packed;
    }
    let first = bytes[0];
    match first {
        b'l' => Form::Text,
        b'[' => Form::Drawn,
        _ => Form::Packed,
    }
}

// The form of a file that may come in any, or packed only.
pub fn form_in(any: bool, bytes: &[u8]) -> Form
    ensures { result ≡ form_in_value any bytes.now }
{
    if any {
        return form_of(bytes);
    }
    Form::Packed
}

// Whether a form has lines.
pub fn is_text(form: Form) -> bool
    ensures { result ≡ is_text_of form }
{
    match form {
        Form::Text => true,
        Form::Drawn => true,
        Form::Packed => false,
    }
}

// A refusal with the part of the file's place in the call.
fn of_part(r: Refusal, part: Part) -> Refusal
    ensures { result ≡ of_part_of part r }
{
    Refusal { part, ..r }
}

// A packed sheet as it is.
fn keep(bytes: &[u8], part: Part, out: &mut [u8]) -> Result<usize, Refusal>
    requires { 34850 ≤ length out.old }
    ensures { FillsWith (sheet_as Packed part bytes.now) out.old out.new result }
{
    packed::check(bytes, part)?;
    copy(bytes, out);
    Ok(bytes.len())
}

// The sheet of a text of either level. Its seconds are passed over.
fn pack_text(bytes: &[u8], part: Part, out: &mut [u8]) -> Result<usize, Refusal>
    requires { 34850 ≤ length out.old }
    ensures { FillsWith (sheet_as Text part bytes.now) out.old out.new result }
{
    let mut seconds = [0u16; 32];
    let sheet = notation::read(bytes, out, &mut seconds).map_err(|r| of_part(r, part))?;
    Ok(sheet.filled)
}

// The sheet of a drawn automaton.
fn pack_drawn(bytes: &[u8], part: Part, out: &mut [u8]) -> Result<usize, Refusal>
    requires { 34850 ≤ length out.old }
    ensures { FillsWith (sheet_as Drawn part bytes.now) out.old out.new result }
{
    import(bytes, out).map_err(|r| of_part(r, part))
}

// The packed sheet that a file's bytes are, to the start of the out slice.
pub fn pack(form: Form, bytes: &[u8], part: Part, out: &mut [u8]) -> Result<usize, Refusal>
    requires { 34850 ≤ length out.old }
    ensures { FillsWith (sheet_as form part bytes.now) out.old out.new result }
{
    match form {
        Form::Text => pack_text(bytes, part, out),
        Form::Drawn => pack_drawn(bytes, part, out),
        Form::Packed => keep(bytes, part, out),
    }
}
