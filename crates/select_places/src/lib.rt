// What may be chosen at an offset, by the character that stands there: for each group of first characters the places that may
// begin with them, in place order, the earlier winning ties (specs/Groups.antt). Which characters a group has, the crate
// `select` says. Here is what the groups share, and the groups of white space and of line ends; the others are the crates
// `select_letters`, `select_operators`, `select_numbers` and `select_unicode`.
//
// Proved: the answer of each function is what the definition's matchers give, and the choice that is kept of it, at any offset
// within any bytes.
// Assumed: nothing but what each function's `requires` says: a class file that `class_check` accepts, and a byte at the offset.
#![tactic(auto)]

ghost use Rattle.std.specs.Prelude.{◌≡◌, ◌<◌, length};
ghost use Rattle.definition.specs.ClassFile.{class_check};
ghost use Rattle.definition.specs.Chars.{is_anywhite};
ghost use Rattle.definition.specs.Matchers.{◌then◌, plus, match_lit, match_ident, match_newline};
ghost use Rattle.definition.specs.Select.{found};
ghost use Rattle.select_places.specs.Groups.{first, alone, name_after};

use choice::attempts::{found, try_place};
use choice::{keep, nothing};
use definition::Choice;
use match_lit::match_lit;
use matchers::{match_ident, match_newline};
use star::tests::{IdentChar, White};
use star::{plus_chars, star_chars};

// The source's `try_` for the first place that is tried.
pub fn alone(i: usize, place: u32, m: Option<usize>) -> Choice
    ensures { result ≡ alone i place m }
{
    try_place(nothing(i), i, place, m)
}

// The same for a table.
pub fn first(i: usize, new: Choice) -> Choice
    ensures { result ≡ first i new }
{
    keep(nothing(i), new)
}

// The end of the identifier characters after the first character of a name.
pub fn name_after(text: &[u8], file: &[u8], i: usize) -> Option<usize>
    requires { (class_check file.now ≡ 0) × (i < length text.now) }
    ensures { result ≡ name_after text.now file.now i }
{
    Some(star_chars(text, IdentChar { file }, i + 1))
}

// The end of a word with an identifier after it.
pub fn lit_then_ident(text: &[u8], file: &[u8], word: &[u8], i: usize) -> Option<usize>
    requires { class_check file.now ≡ 0 }
    ensures { result ≡ (match_lit text.now word.now i then match_ident text.now file.now) }
{
    match_ident(text, file, match_lit(text, word, i)?)
}

// White space.
pub fn at_white(text: &[u8], file: &[u8], i: usize) -> Choice
    requires { class_check file.now ≡ 0 }
    ensures { result ≡ found i 7 0 (plus (is_anywhite file.now) text.now i) }
{
    found(i, 7, plus_chars(text, White { file }, i))
}

// A line end.
pub fn at_line_end(text: &[u8], i: usize) -> Choice
    ensures { result ≡ found i 8 0 (match_newline text.now i) }
{
    found(i, 8, match_newline(text, i))
}
