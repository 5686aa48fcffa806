// The source's matchers of escapes, character literals and names in backticks: from an offset of the text, the end of what
// is looked for, or that it isn't there.
//
// Proved: the answer of each public function is what the definition gives, at any offset of any bytes.
// Assumed: nothing.
ghost use Rattle.std.specs.Prelude.{◌≡◌};
ghost use Rattle.definition.specs.Basics.{codes, mem_cp};
ghost use Rattle.definition.specs.Matchers.{one, match_escape, match_char, match_char_lit, match_backtick_ident};
ghost use Rattle.matchers.specs.Parts.{in_backticks, backtick_part, hex_pair};

use definition::Sequence;
use match_lit::{byte_is, byte_pair};
use star::stops::Inside;
use star::tests::Hex;
use star::{one_char, passes_at};
use utf8::characters::byte;
use utf8::sequence_at;

// A byte that makes an escape by itself, after the backslash.
fn is_escape_letter(c: u8) -> bool
    ensures { result ≡ mem_cp c (codes "\\\"'bfntrv0") }
{
    matches!(
        c,
        b'\\' | b'"' | b'\'' | b'b' | b'f' | b'n' | b't' | b'r' | b'v' | b'0'
    )
}

// Two hexadecimal digits stand at i.
#[tactic(auto, unfolding(crate::specs::Parts::hex_pair))]
fn hex_pair(text: &[u8], i: usize) -> bool
    ensures { result ≡ hex_pair text.now i }
{
    passes_at(text, Hex, i) && passes_at(text, Hex, i + 1)
}

// The end of an escape: a backslash, and a letter, or x and two hexadecimal digits, or u and four.
pub fn match_escape(text: &[u8], i: usize) -> Option<usize>
    ensures { result ≡ match_escape text.now i }
{
    if !byte_is(text, i, b'\\') {
        return None;
    }
    let c = byte(text, i + 1)?;
    if is_escape_letter(c) {
        return Some(i + 2);
    }
    if !hex_pair(text, i + 2) {
        return None;
    }
    match c {
        b'x' => Some(i + 4),
        b'u' => hex_pair(text, i + 4).then_some(i + 6),
        _ => None,
    }
}

// The end of a character other than the backslash, or of an escape.
pub fn match_char(text: &[u8], i: usize) -> Option<usize>
    ensures { result ≡ match_char text.now i }
{
    let Sequence::Char(c, width) = sequence_at(text, i) else {
        return None;
    };
    if c == b'\\' as u32 {
        return match_escape(text, i);
    }
    Some(i + width)
}

// The end of a character literal, with or without the B after it.
pub fn match_char_lit(text: &[u8], i: usize, with_b: bool) -> Option<usize>
    ensures { result ≡ match_char_lit text.now i with_b }
{
    if !byte_is(text, i, b'\'') {
        return None;
    }
    let j = match_char(text, i + 1)?;
    if !byte_is(text, j, b'\'') {
        return None;
    }
    if !with_b {
        return Some(j + 1);
    }
    byte_is(text, j + 1, b'B').then_some(j + 2)
}

// The end of a character other than a backtick and a line end.
fn one_in_backticks(text: &[u8], i: usize) -> Option<usize>
    ensures { result ≡ one in_backticks text.now i }
{
    let inside = Inside {
        first: b'`',
        second: b'`',
    };
    one_char(text, inside, i)
}

// The end of such a character, or of one after a single backtick.
fn backtick_part(text: &[u8], i: usize) -> Option<usize>
    ensures { result ≡ backtick_part text.now i }
{
    if byte_is(text, i, b'`') {
        return one_in_backticks(text, i + 1);
    }
    one_in_backticks(text, i)
}

// The end of a name between two backticks and two backticks, of a part or more.
pub fn match_backtick_ident(text: &[u8], i: usize) -> Option<usize>
    ensures { result ≡ match_backtick_ident text.now i }
{
    if !byte_pair(text, i, b'`', b'`') {
        return None;
    }
    let mut end = backtick_part(text, i + 2)?;
    while let Some(next) = backtick_part(text, end) {
        end = next;
    }
    byte_pair(text, end, b'`', b'`').then_some(end + 2)
}
