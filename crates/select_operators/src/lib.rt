// What may be chosen where an operator or a bracket begins: for each group of such characters the places that may begin with
// them, in place order, the earlier winning ties.
//
// Proved: the answer of each public function is what the definition's matchers and tables give at those places, at any
// offset within any bytes.
// Assumed: nothing but what each function's `requires` says: a class file that `class_check` accepts, the tables of operator
// and of symbol characters, and a byte at the offset.
#![tactic(auto)]

ghost use Rattle.std.specs.Prelude.{◌≡◌, ◌<◌, length, Some};
ghost use Rattle.definition.specs.ClassFile.{class_check};
ghost use Rattle.definition.specs.Chars.{ascii_table, op_char_cps, symbolchar_cps, is_symbolchar};
ghost use Rattle.definition.specs.Text.{star};
ghost use Rattle.definition.specs.Matchers.{◌then◌, match_lit};
ghost use Rattle.select_places.specs.Groups.{symbols_after, at_operator, at_token, at_token_operator, at_hash, at_percent, at_semicolon, at_paren, at_slash, at_less, at_bar, at_point, at_star};

use choice::attempts::try_place;
use choice::keep;
use definition::Choice;
use match_lit::match_lit;
use select_places::{alone, first, lit_then_ident};
use star::star_ascii;
use star::tests::SymbolChar;
use table_early::early_literal;
use table_kw_op::kw_op;
use table_op_tokens::mixfix::mixfix_word;
use table_op_tokens::op_token;

// The end of the symbol characters after the first character of an operator.
fn symbols_after(text: &[u8], symbols: &[bool; 128], i: usize) -> Option<usize>
    requires { (symbols.now ≡ ascii_table symbolchar_cps) × (i < length text.now) }
    ensures { result ≡ symbols_after text.now i }
{
    Some(star_ascii(text, SymbolChar { table: symbols }, i + 1))
}

// The end of the symbol characters after a word.
fn lit_then_symbols(text: &[u8], symbols: &[bool; 128], word: &[u8], i: usize) -> Option<usize>
    requires { symbols.now ≡ ascii_table symbolchar_cps }
    ensures { result ≡ (match_lit text.now word.now i then λ e. Some (star is_symbolchar text.now e)) }
{
    let e = match_lit(text, word, i)?;
    Some(star_ascii(text, SymbolChar { table: symbols }, e))
}

// Symbol characters alone.
pub fn at_operator(text: &[u8], symbols: &[bool; 128], i: usize, place: u32) -> Choice
    requires { (symbols.now ≡ ascii_table symbolchar_cps) × (i < length text.now) }
    ensures { result ≡ at_operator text.now i place }
{
    alone(i, place, symbols_after(text, symbols, i))
}

// An operator token alone.
pub fn at_token(text: &[u8], i: usize) -> Choice
    ensures { result ≡ at_token text.now i }
{
    first(i, op_token(text, i))
}

// An operator token, or symbol characters.
pub fn at_token_operator(text: &[u8], symbols: &[bool; 128], i: usize, place: u32) -> Choice
    requires { (symbols.now ≡ ascii_table symbolchar_cps) × (i < length text.now) }
    ensures { result ≡ at_token_operator text.now i place }
{
    let best = at_token(text, i);
    try_place(best, i, place, symbols_after(text, symbols, i))
}

// A pragma, `#lang-` with an identifier, or the token.
pub fn at_hash(text: &[u8], file: &[u8], i: usize) -> Choice
    requires { class_check file.now ≡ 0 }
    ensures { result ≡ at_hash text.now file.now i }
{
    let mut best = first(i, early_literal(text, i));
    best = try_place(best, i, 3, lit_then_ident(text, file, b"#lang-", i));
    keep(best, op_token(text, i))
}

// An early literal, the token `%[`, or symbol characters.
pub fn at_percent(text: &[u8], symbols: &[bool; 128], i: usize) -> Choice
    requires { (symbols.now ≡ ascii_table symbolchar_cps) × (i < length text.now) }
    ensures { result ≡ at_percent text.now i }
{
    let mut best = first(i, early_literal(text, i));
    best = keep(best, op_token(text, i));
    try_place(best, i, 48, symbols_after(text, symbols, i))
}

// A semicolon with operator characters after it, two, or one.
pub fn at_semicolon(text: &[u8], ops: &[bool; 128], i: usize) -> Choice
    requires { ops.now ≡ ascii_table op_char_cps }
    ensures { result ≡ at_semicolon text.now i }
{
    let mut best = first(i, kw_op(text, ops, i));
    best = try_place(best, i, 13, match_lit(text, b";;", i));
    keep(best, op_token(text, i))
}

// The opening of a comment, or a token.
pub fn at_paren(text: &[u8], i: usize) -> Choice
    ensures { result ≡ at_paren text.now i }
{
    let best = alone(i, 28, match_lit(text, b"(*", i));
    keep(best, op_token(text, i))
}

// A line comment, which `// IN F*:` opens too, the token `/\`, or symbol characters.
pub fn at_slash(text: &[u8], symbols: &[bool; 128], i: usize) -> Choice
    requires { (symbols.now ≡ ascii_table symbolchar_cps) × (i < length text.now) }
    ensures { result ≡ at_slash text.now i }
{
    let mut best = alone(i, 29, match_lit(text, b"// IN F*:", i));
    best = try_place(best, i, 30, match_lit(text, b"//", i));
    best = keep(best, op_token(text, i));
    try_place(best, i, 48, symbols_after(text, symbols, i))
}

// The pipe `<|`, a token, `<` by itself, or symbol characters.
pub fn at_less(text: &[u8], symbols: &[bool; 128], i: usize) -> Choice
    requires { (symbols.now ≡ ascii_table symbolchar_cps) × (i < length text.now) }
    ensures { result ≡ at_less text.now i }
{
    let mut best = alone(i, 33, match_lit(text, b"<|", i));
    best = keep(best, op_token(text, i));
    best = try_place(best, i, 37, Some(i + 1));
    try_place(best, i, 44, symbols_after(text, symbols, i))
}

// The pipe `|>`, a token, `|->` with symbol characters, or those alone.
pub fn at_bar(text: &[u8], symbols: &[bool; 128], i: usize) -> Choice
    requires { (symbols.now ≡ ascii_table symbolchar_cps) × (i < length text.now) }
    ensures { result ≡ at_bar text.now i }
{
    let mut best = alone(i, 34, match_lit(text, b"|>", i));
    best = keep(best, op_token(text, i));
    best = try_place(best, i, 40, lit_then_symbols(text, symbols, b"|->", i));
    try_place(best, i, 42, symbols_after(text, symbols, i))
}

// Two points, a token, or a mixfix word.
pub fn at_point(text: &[u8], i: usize) -> Choice
    ensures { result ≡ at_point text.now i }
{
    let mut best = alone(i, 35, match_lit(text, b"..", i));
    best = keep(best, op_token(text, i));
    keep(best, mixfix_word(text, i))
}

// Two stars with symbol characters, or those after one.
pub fn at_star(text: &[u8], symbols: &[bool; 128], i: usize) -> Choice
    requires { (symbols.now ≡ ascii_table symbolchar_cps) × (i < length text.now) }
    ensures { result ≡ at_star text.now i }
{
    let best = alone(i, 39, lit_then_symbols(text, symbols, b"**", i));
    try_place(best, i, 48, symbols_after(text, symbols, i))
}
