// The choice at an offset: the longest part that one of the 50 places permits there, ties going to the earlier place. The
// first character decides which places are tried: no place is tried that can't begin with it.
//
// Proved: `select` is the definition's `select`, at any offset of any bytes. The laws that it rests on (in proofs/): a place whose
// pattern can't begin with the character finds nothing (First), and which places may begin with which characters (Groups,
// BeyondAscii).
// Assumed: nothing but what `select`'s `requires` says: a class file that `class_check` accepts, and the tables of operator
// and of symbol characters.
#![tactic(auto)]

ghost use Rattle.std.specs.Prelude.{◌≡◌};
ghost use Rattle.definition.specs.ClassFile.{class_check};
ghost use Rattle.definition.specs.Select.{select};
ghost use Rattle.select.specs.Standing.{Lent, Ascii, Other};

use chars::fixed::is_digit;
use chars::{is_constructor_start, is_ident_start};
use choice::nothing;
use definition::{Choice, Sequence};
use select_letters::{
    at_backtick, at_capital, at_double_quote, at_early_letter, at_keyword_letter, at_letter,
    at_quote, at_token_letter, at_underscore,
};
use select_numbers::at_digit;
use select_operators::{
    at_bar, at_hash, at_less, at_operator, at_paren, at_percent, at_point, at_semicolon, at_slash,
    at_star, at_token, at_token_operator,
};
use select_places::{at_line_end, at_white};
use select_unicode::at_beyond_ascii;
use utf8::sequence_at;

// A character of ASCII with which no operator, no quote and no keyword begins: a letter, a digit, or none of the 50 places.
fn at_other(text: &[u8], file: &[u8], c: u32, i: usize) -> Choice
    requires { (class_check file.now ≡ 0) × Other text.now i c }
    ensures { result ≡ select text.now file.now i }
{
    if is_ident_start(c) {
        return at_letter(text, file, i);
    }
    if is_constructor_start(file, c) {
        return at_capital(text, file, i);
    }
    if is_digit(c) {
        return at_digit(text, file, i);
    }
    nothing(i)
}

// A character of ASCII. (Two arms have one answer where their bytes stand side by side: a range would take more tests.)
fn at_ascii(
    text: &[u8],
    file: &[u8],
    ops: &[bool; 128],
    symbols: &[bool; 128],
    c: u8,
    i: usize,
) -> Choice
    requires { Lent file.now ops.now symbols.now × Ascii text.now i c }
    ensures { result ≡ select text.now file.now i }
{
    match c {
        b'\t' | 11 | b' ' => at_white(text, file, i),
        12 => at_white(text, file, i),
        b'\n' | b'\r' => at_line_end(text, i),
        b's' => at_early_letter(text, file, i),
        b'a' | b'e' | b'i' | b'l' => at_keyword_letter(text, file, ops, i),
        b'f' | b'm' => at_keyword_letter(text, file, ops, i),
        b'r' | b'u' => at_token_letter(text, file, i),
        b'_' => at_underscore(text, file, i),
        b'\'' => at_quote(text, file, i),
        b'`' => at_backtick(text, file, i),
        b'"' => at_double_quote(text, i),
        b'#' => at_hash(text, file, i),
        b'%' => at_percent(text, symbols, i),
        b';' => at_semicolon(text, ops, i),
        b'(' => at_paren(text, i),
        b'/' => at_slash(text, symbols, i),
        b'<' => at_less(text, symbols, i),
        b'|' => at_bar(text, symbols, i),
        b'.' => at_point(text, i),
        b'*' => at_star(text, symbols, i),
        b'>' => at_operator(text, symbols, i, 38),
        b'@' | b'^' => at_operator(text, symbols, i, 46),
        b'+' => at_operator(text, symbols, i, 47),
        b'!' | b'?' | b'~' => at_token_operator(text, symbols, i, 41),
        b'&' => at_token_operator(text, symbols, i, 43),
        b'=' => at_token_operator(text, symbols, i, 44),
        b'$' => at_token_operator(text, symbols, i, 45),
        b'-' => at_token_operator(text, symbols, i, 47),
        b')' | b'[' | b']' | b'{' | b'}' => at_token(text, i),
        b',' | b':' | b'\\' => at_token(text, i),
        _ => at_other(text, file, c as u32, i),
    }
}

// What is chosen at i. A byte of ASCII is a character by itself, any other is decoded.
pub fn select(
    text: &[u8],
    file: &[u8],
    ops: &[bool; 128],
    symbols: &[bool; 128],
    i: usize,
) -> Choice
    requires { Lent file.now ops.now symbols.now }
    ensures { result ≡ select text.now file.now i }
{
    if text.len() <= i {
        return nothing(i);
    }
    if text[i] < 128 {
        return at_ascii(text, file, ops, symbols, text[i], i);
    }
    let Sequence::Char(c, width) = sequence_at(text, i) else {
        return nothing(i);
    };
    at_beyond_ascii(text, file, ops, i, c, i + width)
}
