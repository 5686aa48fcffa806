// Integers with their suffixes. The digits of an integer are read once: a suffix is looked for after their ends by the
// functions named `.._after`, which take these ends, and which `select` runs; `match_int_suffix` and `match_int_usuffix`, the
// source's functions, are the same from an offset.
//
// Proved: the answer of each public function is what the definition gives, at any offset of any bytes.
// Assumed: nothing.
#![tactic(auto)]

pub mod floats; // floats.rt: floats, reals, and numbers that go wrong

ghost use Rattle.std.specs.Prelude.{◌≡◌};
ghost use Rattle.definition.specs.Matchers.{◌then◌, later, match_lit, match_integer, match_xinteger, match_int_suffix, match_int_usuffix};
ghost use Rattle.match_number.specs.IntegerParts.{integer_ends, usuffix};

use match_lit::{byte_either, byte_is, later, lit_after, match_lit};
use star::plus_ascii;
use star::tests::{Binary, Digit, Hex, Octal};

// The end of an integer's digits, and that of the digits after 0x, 0o or 0b: the source's `any_integer_ends`.
#[derive(Clone, Copy)]
pub struct IntegerEnds {
    pub plain: Option<usize>,
    pub based: Option<usize>,
}

#[tactic(auto, unfolding(definition::specs::Matchers::match_integer))]
pub fn match_integer(text: &[u8], i: usize) -> Option<usize>
    ensures { result ≡ match_integer text.now i }
{
    plus_ascii(text, Digit, i)
}

#[tactic(auto, using(match_lit::proofs::ByteLaws::has_inside), unfolding(definition::specs::Matchers::match_xinteger))]
pub fn match_xinteger(text: &[u8], i: usize) -> Option<usize>
    ensures { result ≡ match_xinteger text.now i }
{
    if !byte_is(text, i, b'0') {
        return None;
    }
    if byte_either(text, i + 1, b'x', b'X') {
        return plus_ascii(text, Hex, i + 2);
    }
    if byte_either(text, i + 1, b'o', b'O') {
        return plus_ascii(text, Octal, i + 2);
    }
    if byte_either(text, i + 1, b'b', b'B') {
        return plus_ascii(text, Binary, i + 2);
    }
    None
}

pub fn any_integer_ends(text: &[u8], i: usize) -> IntegerEnds
    ensures { result ≡ integer_ends text.now i }
{
    IntegerEnds {
        plain: match_integer(text, i),
        based: match_xinteger(text, i),
    }
}

// The end of a suffix after either end of an integer.
pub fn suffix_after(text: &[u8], ends: IntegerEnds, suffix: &[u8]) -> Option<usize>
    ensures { result ≡ later (ends.plain then match_lit text.now suffix.now) (ends.based then match_lit text.now suffix.now) }
{
    later(
        lit_after(text, ends.plain, suffix),
        lit_after(text, ends.based, suffix),
    )
}

// Nothing calls it yet: request K7 asks for each place's own longest end.
pub fn match_int_suffix(text: &[u8], i: usize, suffix: &[u8]) -> Option<usize>
    ensures { result ≡ match_int_suffix text.now i suffix.now }
{
    suffix_after(text, any_integer_ends(text, i), suffix)
}

// The end of a u or U and a suffix after an end.
#[tactic(auto, using(match_lit::proofs::ByteLaws::has_inside), unfolding(crate::specs::IntegerParts::usuffix))]
fn u_lit_after(text: &[u8], m: Option<usize>, suffix: &[u8]) -> Option<usize>
    ensures { result ≡ (m then usuffix text.now suffix.now) }
{
    let e = m?;
    if byte_either(text, e, b'u', b'U') {
        return match_lit(text, suffix, e + 1);
    }
    None
}

// The end of a u or U and a suffix after either end of an integer. (The source has a matcher of either kind, `match_int_suffix` and
// `match_int_usuffix`; what they share is `later` over both ends.)
pub fn usuffix_after(text: &[u8], ends: IntegerEnds, suffix: &[u8]) -> Option<usize>
    ensures { result ≡ later (ends.plain then usuffix text.now suffix.now) (ends.based then usuffix text.now suffix.now) }
{
    later(
        u_lit_after(text, ends.plain, suffix),
        u_lit_after(text, ends.based, suffix),
    )
}

// Nothing calls it yet: request K7 asks for each place's own longest end.
pub fn match_int_usuffix(text: &[u8], i: usize, suffix: &[u8]) -> Option<usize>
    ensures { result ≡ match_int_usuffix text.now i suffix.now }
{
    usuffix_after(text, any_integer_ends(text, i), suffix)
}
