// What may be chosen where a character beyond ASCII stands: the places that may begin with it, in place order, the earlier
// winning ties. Each place reads on after the character, which is decoded already.
//
// Proved: the answer of `at_beyond_ascii` is what the definition's matchers and tables give at those places, at any offset
// within any bytes.
// Assumed: nothing but what each function's `requires` says: a class file that `class_check` accepts, and the table of operator
// characters.
#![tactic(auto)]

ghost use Rattle.std.specs.Prelude.{◌≡◌, Some};
ghost use Rattle.definition.specs.ClassFile.{class_check};
ghost use Rattle.definition.specs.Chars.{ascii_table, op_char_cps, is_anywhite, is_newline_char, is_ident_start, is_constructor_start, is_ident_char, is_uoperator};
ghost use Rattle.definition.specs.Text.{star};
ghost use Rattle.definition.specs.Matchers.{only};
ghost use Rattle.select_places.specs.Groups.{quantified, at_beyond_ascii};

use chars::fixed::is_newline_char;
use chars::{is_anywhite, is_constructor_start, is_ident_start, is_uoperator};
use choice::attempts::try_place;
use choice::{keep, nothing};
use definition::Choice;
use select_places::alone;
use star::tests::{IdentChar, White};
use star::{star_chars, star_decoded};
use table_kw_op::kw_op;

// The end of white space after a character c.
fn white_after(text: &[u8], file: &[u8], c: u32, j: usize) -> Option<usize>
    requires { class_check file.now ≡ 0 }
    ensures { result ≡ only (is_anywhite file.now c) (Some (star (is_anywhite file.now) text.now j)) }
{
    if is_anywhite(file, c) {
        return Some(star_chars(text, White { file }, j));
    }
    None
}

// The end of a line end c.
fn line_end(c: u32, j: usize) -> Option<usize>
    ensures { result ≡ only (is_newline_char c) (Some j) }
{
    is_newline_char(c).then_some(j)
}

// The end of a constructor whose first character is c. What follows is decoded at once: it is mostly beyond ASCII too.
fn constructor_after(text: &[u8], file: &[u8], c: u32, j: usize) -> Option<usize>
    requires { class_check file.now ≡ 0 }
    ensures { result ≡ only (is_constructor_start file.now c) (Some (star (is_ident_char file.now) text.now j)) }
{
    if is_constructor_start(file, c) {
        return Some(star_decoded(text, IdentChar { file }, j));
    }
    None
}

// The end of a mathematical operator c.
fn uoperator(file: &[u8], c: u32, j: usize) -> Option<usize>
    requires { class_check file.now ≡ 0 }
    ensures { result ≡ only (is_uoperator file.now c) (Some j) }
{
    is_uoperator(file, c).then_some(j)
}

// A keyword operator whose first character is c: of those beyond ASCII only ∀ and ∃ begin one.
fn quantifier(text: &[u8], ops: &[bool; 128], i: usize, c: u32) -> Choice
    requires { ops.now ≡ ascii_table op_char_cps }
    ensures { result ≡ quantified text.now i c }
{
    match c {
        0x2200 | 0x2203 => kw_op(text, ops, i),
        _ => nothing(i),
    }
}

// A character c from i to j. Where it begins an identifier, neither a constructor nor an operator is longer, and both are later.
pub fn at_beyond_ascii(
    text: &[u8],
    file: &[u8],
    ops: &[bool; 128],
    i: usize,
    c: u32,
    j: usize,
) -> Choice
    requires { (class_check file.now ≡ 0) × (ops.now ≡ ascii_table op_char_cps) }
    ensures { result ≡ at_beyond_ascii text.now file.now i c j }
{
    let mut best = alone(i, 7, white_after(text, file, c, j));
    best = try_place(best, i, 8, line_end(c, j));
    best = keep(best, quantifier(text, ops, i, c));
    if is_ident_start(c) {
        return try_place(best, i, 14, Some(star_decoded(text, IdentChar { file }, j)));
    }
    best = try_place(best, i, 15, constructor_after(text, file, c, j));
    try_place(best, i, 49, uoperator(file, c, j))
}
