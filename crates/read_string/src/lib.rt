// String literals: the source's `string_lit`, which reads one from after its quote.
//
// Proved: what is read is what the definition's `string_lit` gives: item, payload and state. The payload is a part of the
// text where the literal stands there as it is, and is told by where it begins otherwise.
// Assumed: nothing but what each function's `requires` says: the class file is accepted, and a reader stands in a sound
// state of a legal text.
// Cost: a literal is read once.
#![tactic(auto)]

pub mod moves; // moves.rt: what stands at an offset of a string literal, how many bytes it adds, and where it ends

ghost use Rattle.std.specs.Prelude.{◌≡◌, ◌<◌};
ghost use Rattle.definition.specs.Basics.{Bytes};
ghost use Rattle.definition.specs.Strings.{string_lit};
ghost use Rattle.reader.specs.Described.{literal, Sized, Describes, Reads, Turns};
ghost use Rattle.read_string.specs.Moves.{string_move};
ghost use Rattle.read_string.specs.Literal.{closed, does, states, Held};
ghost use Rattle.read_string.specs.Asks.{Closing, Turning, Reader};

use crate::moves::{Move, added, string_move};
use definition::errors::LexicalError;
use definition::kinds::STRING;
use definition::{Extra, Pos};
use position::pos_of;
use reader::cursors::{moved, next_line};
use reader::tokens::{error_here, token};
use reader::{Cursor, Payload, Read, ReadResult};

// What a literal of `count` bytes holds that stands in the text from `from` up to `to`: the very bytes there, if they are as
// many.
fn contents(from: usize, to: usize, count: usize) -> Payload
    requires { count < 4294967296 }
    ensures sized { (name : Bytes) → Sized name result }
    ensures describes { (s name f acc : Bytes) → Held s f from to count acc → literal s f from ≡ acc → Describes s name f result acc }
{
    if count == to.saturating_sub(from) {
        return Payload::Part { from, to };
    }
    Payload::Literal {
        from,
        length: count,
    }
}

// The literal whose closing quote ends at e; its opening one is byte `quote`, whose position is sp.
fn close(
    text: &[u8],
    name: &[u8],
    from: usize,
    count: usize,
    at: Cursor,
    quote: u32,
    sp: Pos,
    e: usize,
) -> Read
    requires { Closing text.now count at e }
    ensures { (f acc : Bytes) → Held text.now f from at.st.offset count acc → literal text.now f from ≡ acc → Reads text.now name.now f (closed text.now acc quote sp at.st e) result }
{
    let st = at.st;
    let known = at.known;
    let end = pos_of(text, st, known, e as u32);
    let ep = end.pos;
    let here = end.known;
    let payload = contents(from, st.offset as usize, count);
    token(
        name,
        STRING,
        payload,
        quote,
        sp,
        ep,
        Extra::NoExtra,
        st.advance(e as u32),
        here,
    )
}

// One turn of the reading: what is done with what stands where the reader does.
fn turn(
    text: &[u8],
    name: &[u8],
    from: usize,
    count: usize,
    at: Cursor,
    quote: u32,
    sp: Pos,
    m: Move,
) -> ReadResult
    requires { Turning text.now count at quote sp m }
    ensures { (f acc : Bytes) → string_move text.now f at.st.offset ≡ m → Held text.now f from at.st.offset count acc → Turns text.now name.now f (states (does text.now quote sp at.st acc m)) result }
{
    let st = at.st;
    let known = at.known;
    match m {
        Move::Copy(e) => ReadResult::Again(moved(at, e)),
        Move::Skip(e) => ReadResult::Again(next_line(at, e)),
        Move::Line(e) => ReadResult::Again(next_line(at, e)),
        Move::Char(_, e) => ReadResult::Again(moved(at, e)),
        Move::Surrogate => ReadResult::Done(error_here(
            text,
            name,
            st,
            known,
            LexicalError::Surrogate as u32,
        )),
        Move::Close(e) => ReadResult::Done(close(text, name, from, count, at, quote, sp, e)),
        Move::Open => ReadResult::Done(error_here(
            text,
            name,
            st,
            known,
            LexicalError::UnterminatedString as u32,
        )),
    }
}

// The source's `string_lit`, from after the opening quote, which is byte `quote`; sp is its position.
pub fn string_lit(text: &[u8], name: &[u8], classes: &[u8], at: Cursor, quote: u32, sp: Pos) -> Read
    requires { Reader text.now classes.now at }
    ensures { Reads text.now name.now classes.now (string_lit text.now classes.now at.st quote sp) result }
{
    let first = at.st;
    let from = first.offset as usize;
    let mut here = at;
    let mut count: usize = 0;
    loop {
        let st = here.st;
        let i = st.offset as usize;
        let m = string_move(text, classes, i);
        match turn(text, name, from, count, here, quote, sp, m) {
            ReadResult::Done(r) => {
                return r;
            }
            ReadResult::Again(next) => {
                here = next;
                count += added(m, i);
            }
        }
    }
}
