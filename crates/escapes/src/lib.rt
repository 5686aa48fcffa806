// The characters that escapes denote, and surrogates.
// Proved: each public function answers what the definition's function of its name says; `unescape` at any offset of any
// bytes.
// Assumed: nothing but what `joined` requires: its numbers are the halves of a pair.
#![tactic(auto)]

ghost use Rattle.std.specs.Prelude.{◌≡◌};
ghost use Rattle.definition.specs.Escapes.{code_at, hex_value, unescape, is_surrogate, is_high_half, is_low_half, joined};
ghost use Rattle.escapes.specs.Asks.{Digits, ByteFollows, escaped, Halves};

use definition::Sequence;
use number_value::digit_value;
use utf8::characters::byte;
use utf8::sequence_at;

// The code point at i, 0 where no character stands.
#[tactic(auto, unfolding(definition::specs::Escapes::code_at))]
fn code_at(text: &[u8], i: usize) -> u32
    ensures { result ≡ code_at text.now i }
{
    match sequence_at(text, i) {
        Sequence::Char(c, _) => c,
        Sequence::Bad | Sequence::End => 0,
    }
}

// The value of n hexadecimal digits from k on, or of those that the text still has.
fn hex_value(text: &[u8], k: usize, n: usize) -> u32
    requires { Digits text.now k n }
    ensures { result ≡ hex_value text.now k n }
{
    let end = text.len().min(k + n);
    let mut value = 0;
    for &digit in &text[k..end] {
        value = value * 16 + digit_value(digit);
    }
    value
}

// What the byte c at i + 1, after a backslash, denotes, together with what follows it.
#[tactic(auto, unfolding(crate::specs::Asks::escaped), using(lemmas::proofs::Cases::all_tests))]
fn escaped(text: &[u8], i: usize, c: u8) -> u32
    requires { ByteFollows text.now i }
    ensures { result ≡ escaped text.now i c }
{
    match c {
        b'0' => 0,
        b'b' => 8,
        b't' => 9,
        b'n' => 10,
        b'v' => 11,
        b'f' => 12,
        b'r' => 13,
        b'u' => hex_value(text, i + 2, 4),
        b'x' => hex_value(text, i + 2, 2),
        _ => code_at(text, i + 1),
    }
}

// The character that the escape, or the character, at i denotes.
pub fn unescape(text: &[u8], i: usize) -> u32
    ensures { result ≡ unescape text.now i }
{
    let Some(first) = byte(text, i) else {
        return 0;
    };
    if first != b'\\' {
        return code_at(text, i);
    }
    let Some(c) = byte(text, i + 1) else {
        return 0;
    };
    escaped(text, i, c)
}

// A number that `\u` can give and that is no character. (This and the two that follow are one line each, by the definition's names.)
#[tactic(auto, unfolding(definition::specs::Escapes::is_surrogate), using(lemmas::proofs::Cases::all_tests))]
pub fn is_surrogate(c: u32) -> bool
    ensures { result ≡ is_surrogate c }
{
    matches!(c, 0xD800..=0xDFFF)
}

// A surrogate that can begin a pair.
#[tactic(auto, unfolding(definition::specs::Escapes::is_high_half), using(lemmas::proofs::Cases::all_tests))]
pub fn is_high_half(c: u32) -> bool
    ensures { result ≡ is_high_half c }
{
    matches!(c, 0xD800..=0xDBFF)
}

// A surrogate that can end one.
#[tactic(auto, unfolding(definition::specs::Escapes::is_low_half), using(lemmas::proofs::Cases::all_tests))]
pub fn is_low_half(c: u32) -> bool
    ensures { result ≡ is_low_half c }
{
    matches!(c, 0xDC00..=0xDFFF)
}

// The character that a high and a low half are together.
#[tactic(auto, using(crate::proofs::Surrogates::high_within, crate::proofs::Surrogates::low_within))]
pub fn joined(high: u32, low: u32) -> u32
    requires { Halves high low }
    ensures { result ≡ joined high low }
{
    0x10000 + (high - 0xD800) * 1024 + (low - 0xDC00)
}
