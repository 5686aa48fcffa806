// The tests on characters that look them up, in the table of lowercase letters or in a class, in the source's order. An
// ASCII character is never looked up in a class. (The tests that look nothing up are the module `fixed`.)
// Proved: each is the definition's test; those that read a class file are so for any file that the class check accepts.
// Assumed: nothing but what each function's `requires` says.
#![tactic(auto)]

pub mod ascii; // ascii.rt: the two tables of 128 yes-or-no entries for operator characters
pub mod fixed; // fixed.rt: the tests on characters that look nothing up

ghost use Rattle.std.specs.Prelude.{◌≡◌};
ghost use Rattle.definition.specs.ClassFile.{class_check};
ghost use Rattle.definition.specs.Chars.{is_lower, is_ident_start, is_constructor_start, is_ident_char, is_anywhite, is_uoperator};

use crate::fixed::{QUOTE, UNDERSCORE, between, is_ascii_ident_char, is_listed_white};
use class_file::members::{is_lm, is_lo, is_lt, is_lu, is_sm, is_zs};
use lowercase::is_ll;

const ASCII_LIMIT: u32 = 128;

#[tactic(auto, unfolding(definition::specs::Chars::is_lower), using(lemmas::proofs::Cases::all_tests))]
pub fn is_lower(c: u32) -> bool
    ensures { result ≡ is_lower c }
{
    if c < ASCII_LIMIT {
        between(b'a', b'z', c)
    } else {
        is_ll(c)
    }
}

#[tactic(auto, unfolding(definition::specs::Chars::is_ident_start), using(lemmas::proofs::Cases::all_tests))]
pub fn is_ident_start(c: u32) -> bool
    ensures { result ≡ is_ident_start c }
{
    c == UNDERSCORE || c == QUOTE || is_lower(c)
}

#[tactic(auto, unfolding(definition::specs::Chars::is_constructor_start), using(lemmas::proofs::Cases::all_tests))]
pub fn is_constructor_start(file: &[u8], c: u32) -> bool
    requires { class_check file.now ≡ 0 }
    ensures { result ≡ is_constructor_start file.now c }
{
    if c < ASCII_LIMIT {
        between(b'A', b'Z', c)
    } else {
        is_lu(file, c) || is_lt(file, c)
    }
}

#[tactic(auto, unfolding(definition::specs::Chars::is_ident_char, crate::specs::Parts::ascii_ident_char), using(lemmas::proofs::Cases::all_tests))]
pub fn is_ident_char(file: &[u8], c: u32) -> bool
    requires { class_check file.now ≡ 0 }
    ensures { result ≡ is_ident_char file.now c }
{
    if c < ASCII_LIMIT {
        is_ascii_ident_char(c)
    } else {
        is_ll(c) || is_lu(file, c) || is_lo(file, c) || is_lm(file, c)
    }
}

#[tactic(auto, unfolding(definition::specs::Chars::is_anywhite, crate::specs::Parts::listed_white), using(lemmas::proofs::Cases::all_tests))]
pub fn is_anywhite(file: &[u8], c: u32) -> bool
    requires { class_check file.now ≡ 0 }
    ensures { result ≡ is_anywhite file.now c }
{
    is_listed_white(c) || (ASCII_LIMIT <= c && is_zs(file, c))
}

#[tactic(auto, unfolding(definition::specs::Chars::is_uoperator), using(lemmas::proofs::Cases::all_tests))]
pub fn is_uoperator(file: &[u8], c: u32) -> bool
    requires { class_check file.now ≡ 0 }
    ensures { result ≡ is_uoperator file.now c }
{
    ASCII_LIMIT <= c && is_sm(file, c)
}
