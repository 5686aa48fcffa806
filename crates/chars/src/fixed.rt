// The tests on code points that compare them with given ones: no table and no class file is asked. Proved: each is the
// definition's test, or the part of one that specs/Parts.antt names.
// Assumed: nothing.
ghost use Rattle.std.specs.Prelude.{◌≡◌};
ghost use Rattle.definition.specs.Basics.{between as between_codes_spec};
ghost use Rattle.definition.specs.Chars.{is_digit, is_hex, is_newline_char};
ghost use Rattle.chars.specs.Parts.{ascii_ident_char, listed_white};

pub const UNDERSCORE: u32 = 95;

pub const QUOTE: u32 = 39;

// c is one of the code points from `first` to `last`.
#[tactic(auto, using(lemmas::proofs::Cases::all_tests))]
pub fn between_codes(first: u32, last: u32, c: u32) -> bool
    ensures { result ≡ between_codes_spec first last c }
{
    (first..=last).contains(&c)
}

// The same where both ends fit a byte, as b'a' does.
pub fn between(first: u8, last: u8, c: u32) -> bool
    ensures { result ≡ between_codes_spec first last c }
{
    between_codes(u32::from(first), u32::from(last), c)
}

#[tactic(auto, unfolding(definition::specs::Chars::is_digit), using(lemmas::proofs::Cases::all_tests))]
pub fn is_digit(c: u32) -> bool
    ensures { result ≡ is_digit c }
{
    between(b'0', b'9', c)
}

#[tactic(auto, unfolding(definition::specs::Chars::is_hex), using(lemmas::proofs::Cases::all_tests))]
pub fn is_hex(c: u32) -> bool
    ensures { result ≡ is_hex c }
{
    is_digit(c) || between(b'A', b'F', c) || between(b'a', b'f', c)
}

// An ASCII character that may stand in an identifier: a part of the source's `is_ident_char`.
#[tactic(auto, unfolding(crate::specs::Parts::ascii_ident_char), using(lemmas::proofs::Cases::all_tests))]
pub fn is_ascii_ident_char(c: u32) -> bool
    ensures { result ≡ ascii_ident_char c }
{
    between(b'a', b'z', c) || between(b'A', b'Z', c) || is_digit(c) || c == QUOTE || c == UNDERSCORE
}

// The white characters that no class is asked about: space, tab, vertical tab, form feed, U+00A0 and U+FEFF.
#[tactic(auto, unfolding(crate::specs::Parts::listed_white), using(lemmas::proofs::Cases::all_tests))]
pub fn is_listed_white(c: u32) -> bool
    ensures { result ≡ listed_white c }
{
    matches!(c, 32 | 9 | 11 | 12 | 0xA0 | 0xFEFF)
}

// LF, CR, U+2028 and U+2029.
#[tactic(auto, unfolding(definition::specs::Chars::is_newline_char), using(lemmas::proofs::Cases::all_tests))]
pub fn is_newline_char(c: u32) -> bool
    ensures { result ≡ is_newline_char c }
{
    matches!(c, 10 | 13 | 0x2028 | 0x2029)
}
