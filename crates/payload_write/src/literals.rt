// What string literals hold, written: the second pass over a literal whose length is known.
//
// Proved: what is written is the definition's literal, and nothing after it is changed.
// Assumed: nothing but what the `requires` says: the class file is accepted, the length is the literal's, and it fits.
ghost use Rattle.std.specs.Prelude.{◌≡◌};
ghost use Rattle.definition.specs.Text.{lexeme};
ghost use Rattle.lemmas.specs.Over.{over, Wrote};
ghost use Rattle.reader.specs.Described.{literal};
ghost use Rattle.read_string.specs.Ends.{adds};
ghost use Rattle.payload_write.specs.Asks.{Copies, Puts, Writes};

use read_string::moves::{Move, end_of, string_move};
use reader::part;
use utf8::encoding::encode_into;

// Copies the bytes of the text from i up to e to the front of the buffer, and says how many they are.
pub fn copy_part(text: &[u8], i: usize, e: usize, out: &mut [u8]) -> usize
    requires { Copies text.now i e out.old }
    ensures { Wrote (lexeme text.now i e) out.old out.new result }
{
    let bytes = part(text, i, e);
    out[..bytes.len()].copy_from_slice(bytes);
    bytes.len()
}

// Writes the bytes that a move at i adds to the front of the buffer, and says how many they are.
fn put(text: &[u8], m: Move, i: usize, out: &mut [u8]) -> usize
    requires { Puts text.now m i out.old }
    ensures { Wrote (adds text.now i m) out.old out.new result }
{
    match m {
        Move::Copy(e) => copy_part(text, i, e, out),
        Move::Skip(_) => 0,
        Move::Line(e) => copy_part(text, i, e, out),
        Move::Char(c, _) => encode_into(c, out),
        Move::Surrogate => 0,
        Move::Close(_) => 0,
        Move::Open => 0,
    }
}

// Writes what the literal holds whose first byte after the quote is at `from`, `length` bytes, to the front of the buffer.
pub fn write_literal(text: &[u8], classes: &[u8], from: usize, length: usize, out: &mut [u8])
    requires { Writes text.now classes.now from length out.old }
    ensures { out.new ≡ over (literal text.now classes.now from) out.old }
{
    let mut i = from;
    let mut at: usize = 0;
    while at < length {
        let m = string_move(text, classes, i);
        at += put(text, m, i, &mut out[at..]);
        i = end_of(m, i);
    }
}
