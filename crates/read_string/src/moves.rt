// What stands at an offset of a string literal.
//
// Proved: what is found at an offset is what the specification says (specs/Moves.antt), whose cases are those of the
// definition's `string_turn`; it ends after the offset and within the text, and an escape, or a pair of them, stands for
// fewer bytes than it has. How many bytes a move adds to the literal, and where it ends, are what specs/Ends.antt says.
// Assumed: nothing but what `string_move` requires: the class file is accepted.
ghost use Rattle.std.specs.Prelude.{◌≡◌};
ghost use Rattle.definition.specs.ClassFile.{class_check};
ghost use Rattle.read_string.specs.Moves.{surrogate_move, escape_move, last_move, stop_move, broken_line, string_move};
ghost use Rattle.read_string.specs.Ends.{added, ends_at};

use escapes::{is_high_half, is_low_half, is_surrogate, joined, unescape};
use match_lit::byte_is;
use matchers::match_newline;
use matchers::quoted::match_escape;
use star::star_chars;
use star::stops::run_end;
use star::tests::White;
use utf8::encoding::encode_length;

// What stands at an offset of a literal. A number at the end of a variant is the offset after it.
#[derive(Clone, Copy)]
pub enum Move {
    // Bytes that stand for themselves.
    Copy(usize),
    // A backslash, a line's end, and the white space after it, which stand for nothing.
    Skip(usize),
    // A line's end, which stands for itself.
    Line(usize),
    // An escape, or the escapes of a high and a low half, with the code point that they stand for.
    Char(u32, usize),
    // The escape of a half by itself, which stands for no character.
    Surrogate,
    // The closing quote.
    Close(usize),
    // The text's end, which leaves the literal open.
    Open,
}

// What the surrogate c stands for, whose escape ends at e: a high half and a low one at once after it are a character, any
// other surrogate is none.
fn surrogate_move(text: &[u8], c: u32, e: usize) -> Move
    ensures { result ≡ surrogate_move text.now c e }
{
    if !is_high_half(c) {
        return Move::Surrogate;
    }
    let Some(pair_end) = match_escape(text, e) else {
        return Move::Surrogate;
    };
    let low = unescape(text, e);
    if !is_low_half(low) {
        return Move::Surrogate;
    }
    Move::Char(joined(c, low), pair_end)
}

// What the escape from i up to e stands for, with what follows it.
fn escape_move(text: &[u8], i: usize, e: usize) -> Move
    ensures { result ≡ escape_move text.now i e }
{
    let c = unescape(text, i);
    if is_surrogate(c) {
        return surrogate_move(text, c, e);
    }
    Move::Char(c, e)
}

// The quote, the text's end, or a backslash that makes no escape.
fn last_move(text: &[u8], i: usize) -> Move
    ensures { result ≡ last_move text.now i }
{
    if text.len() <= i {
        return Move::Open;
    }
    if text[i] == b'"' {
        return Move::Close(i + 1);
    }
    Move::Copy(i + 1)
}

// What stands at i, if it is neither a run nor a continued line.
fn stop_move(text: &[u8], i: usize) -> Move
    ensures { result ≡ stop_move text.now i }
{
    if let Some(nl) = match_newline(text, i) {
        return Move::Line(nl);
    }
    let Some(e) = match_escape(text, i) else {
        return last_move(text, i);
    };
    escape_move(text, i, e)
}

// The end of a backslash and a line's end.
fn broken_line(text: &[u8], i: usize) -> Option<usize>
    ensures { result ≡ broken_line text.now i }
{
    if byte_is(text, i, b'\\') {
        return match_newline(text, i + 1);
    }
    None
}

// What stands at i in a literal.
pub fn string_move(text: &[u8], classes: &[u8], i: usize) -> Move
    requires { class_check classes.now ≡ 0 }
    ensures { result ≡ string_move text.now classes.now i }
{
    let j = run_end(text, b'\\', b'"', i);
    if i < j {
        return Move::Copy(j);
    }
    let Some(nl) = broken_line(text, i) else {
        return stop_move(text, i);
    };
    Move::Skip(star_chars(text, White { file: classes }, nl))
}

// How many bytes a move at i adds to the literal.
pub fn added(m: Move, i: usize) -> usize
    ensures { result ≡ added i m }
{
    match m {
        Move::Copy(e) => e.saturating_sub(i),
        Move::Skip(_) => 0,
        Move::Line(e) => e.saturating_sub(i),
        Move::Char(c, _) => encode_length(c),
        Move::Surrogate => 0,
        Move::Close(_) => 0,
        Move::Open => 0,
    }
}

// Where a move from i ends.
pub fn end_of(m: Move, i: usize) -> usize
    ensures { result ≡ ends_at i m }
{
    match m {
        Move::Copy(e) => e,
        Move::Skip(e) => e,
        Move::Line(e) => e,
        Move::Char(_, e) => e,
        Move::Surrogate => i,
        Move::Close(e) => e,
        Move::Open => i,
    }
}
