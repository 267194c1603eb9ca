// Why something is refused: a reason's number and its sentence.
ghost use Rattle.std.specs.Prelude.{◌≡◌, ◌+◌, ◌≤◌};
ghost use Rattle.numbers.specs.Storing.{Stored};
ghost use Rattle.wording.specs.Words.{sentence, reason_line};

use format::put_literal;
use numbers::put_field;
use slices::Reason;

// The sentence of a reason.
#[tactic(auto, unfolding(crate::specs::Words::sentence))]
fn sentence(reason: Reason) -> &'static [u8]
    ensures { result.now ≡ sentence reason }
{
    match reason {
        Reason::SheetLength => b"the packed sheet is too short or too long",
        Reason::LetterCount => b"the number of scenes is not from 1 to 32",
        Reason::StateCount => {
            b"the number of places is not from 1 to 32, or 16 in a drawn automaton"
        }
        Reason::ProgressSize => b"the number of loop places is not from 1 to 32",
        Reason::NextState => b"this place is not below the number of places of its automaton",
        Reason::MarkByte => b"this mark is neither 0 nor 1",
        Reason::LettersDiffer => b"the two sheets have different numbers of scenes",
        Reason::EmptyLoop => b"the show has no loop",
        Reason::UnknownLetter => b"this scene is not below the number of scenes",
        Reason::UnknownLevel => b"the level is neither 3 nor 4",
        Reason::OffLayout => b"the text departs from its layout here, or ends too early",
        Reason::OutOfTurn => b"another scene, place or loop place is due here",
        Reason::NoneAccepting => b"the automaton has no accepting place",
        Reason::SecondsRange => b"the seconds are not from 1 to 999",
        Reason::ProductSize => b"the result has more than 32 places or loop places",
        Reason::TooLittleRoom => b"there is too little room for the result",
        Reason::TooFewCells => b"the comparison needs more work cells than there are",
        Reason::FoundTooLong => b"the show found is longer than the room for it",
        Reason::CursorPastEnd => b"the cursor stands past the end of its part",
        Reason::FileTooLong => b"the file has more than 65,536 bytes",
        Reason::PartTooLong => b"this part of the show has more than 65,536 scenes",
        Reason::CartCount => b"the cart has no show, or more than 64",
        Reason::CartLength => b"the cart is too short or too long",
    }
}

// A reason's number and its sentence, to the end of the line.
pub fn put_reason(reason: Reason, out: &mut [u8], at: usize) -> usize
    requires { at ≤ 8192 }
    ensures { Stored out.old at (reason_line reason) out.new result × (result ≤ at + 112) }
{
    let refused = put_literal(b" refusal ", out, at);
    let numbered = put_field(usize::from(reason.number()), b':', out, refused);
    let spaced = put_literal(b" ", out, numbered);
    let said = put_literal(sentence(reason), out, spaced);
    put_literal(b"\n", out, said)
}
