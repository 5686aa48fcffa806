// What may be chosen where a letter, an underscore or a quote stands: for each group of such characters the places that may
// begin with them, in place order, the earlier winning ties.
//
// Proved: the answer of each public function is what the definition's matchers and tables give at those places, at any
// offset within any bytes.
// Assumed: nothing but what each function's `requires` says: a class file that `class_check` accepts, the table of operator
// characters, and a byte at the offset.
#![tactic(auto)]

ghost use Rattle.std.specs.Prelude.{◌≡◌, ◌<◌, length};
ghost use Rattle.definition.specs.ClassFile.{class_check};
ghost use Rattle.definition.specs.Chars.{ascii_table, op_char_cps};
ghost use Rattle.select_places.specs.Groups.{at_capital, at_letter, at_early_letter, at_keyword_letter, at_token_letter, at_underscore, at_quote, at_backtick, at_double_quote};

use choice::attempts::try_place;
use choice::keep;
use definition::Choice;
use match_lit::match_lit;
use matchers::quoted::{match_backtick_ident, match_char_lit};
use select_places::{alone, first, lit_then_ident, name_after};
use table_early::early_literal;
use table_kw_op::kw_op;
use table_op_tokens::op_token;

// A capital. (This and `at_letter` differ in a place alone: each is one line, named as its group of the definition's places.)
pub fn at_capital(text: &[u8], file: &[u8], i: usize) -> Choice
    requires { (class_check file.now ≡ 0) × (i < length text.now) }
    ensures { result ≡ at_capital text.now file.now i }
{
    alone(i, 15, name_after(text, file, i))
}

// A small letter with which only identifiers begin.
pub fn at_letter(text: &[u8], file: &[u8], i: usize) -> Choice
    requires { (class_check file.now ≡ 0) × (i < length text.now) }
    ensures { result ≡ at_letter text.now file.now i }
{
    alone(i, 14, name_after(text, file, i))
}

// An identifier, or an early literal.
pub fn at_early_letter(text: &[u8], file: &[u8], i: usize) -> Choice
    requires { (class_check file.now ≡ 0) × (i < length text.now) }
    ensures { result ≡ at_early_letter text.now file.now i }
{
    let best = first(i, early_literal(text, i));
    try_place(best, i, 14, name_after(text, file, i))
}

// An identifier, or a keyword with operator characters after it.
pub fn at_keyword_letter(text: &[u8], file: &[u8], ops: &[bool; 128], i: usize) -> Choice
    requires { (class_check file.now ≡ 0) × (i < length text.now) × (ops.now ≡ ascii_table op_char_cps) }
    ensures { result ≡ at_keyword_letter text.now file.now i }
{
    let best = first(i, kw_op(text, ops, i));
    try_place(best, i, 14, name_after(text, file, i))
}

// An identifier, or an operator token that begins with a letter.
pub fn at_token_letter(text: &[u8], file: &[u8], i: usize) -> Choice
    requires { (class_check file.now ≡ 0) × (i < length text.now) }
    ensures { result ≡ at_token_letter text.now file.now i }
{
    keep(at_letter(text, file, i), op_token(text, i))
}

// An identifier, or one of the three words that begin with two underscores.
pub fn at_underscore(text: &[u8], file: &[u8], i: usize) -> Choice
    requires { (class_check file.now ≡ 0) × (i < length text.now) }
    ensures { result ≡ at_underscore text.now file.now i }
{
    let mut best = alone(i, 4, match_lit(text, b"__SOURCE_FILE__", i));
    best = try_place(best, i, 5, match_lit(text, b"__LINE__", i));
    best = try_place(best, i, 6, match_lit(text, b"__FILELINE__", i));
    try_place(best, i, 14, name_after(text, file, i))
}

// A character literal, with or without the B after it, or an identifier.
pub fn at_quote(text: &[u8], file: &[u8], i: usize) -> Choice
    requires { (class_check file.now ≡ 0) × (i < length text.now) }
    ensures { result ≡ at_quote text.now file.now i }
{
    let mut best = alone(i, 9, match_char_lit(text, i, false));
    best = try_place(best, i, 10, match_char_lit(text, i, true));
    try_place(best, i, 14, name_after(text, file, i))
}

// The opening of a blob, a name in backticks, an early literal, or the backtick.
pub fn at_backtick(text: &[u8], file: &[u8], i: usize) -> Choice
    requires { (class_check file.now ≡ 0) × (i < length text.now) }
    ensures { result ≡ at_backtick text.now file.now i }
{
    let mut best = first(i, early_literal(text, i));
    best = try_place(best, i, 2, lit_then_ident(text, file, b"```", i));
    best = try_place(best, i, 11, Some(i + 1));
    try_place(best, i, 32, match_backtick_ident(text, i))
}

// The opening of a string.
pub fn at_double_quote(text: &[u8], i: usize) -> Choice
    requires { i < length text.now }
    ensures { result ≡ at_double_quote i }
{
    alone(i, 31, Some(i + 1))
}
