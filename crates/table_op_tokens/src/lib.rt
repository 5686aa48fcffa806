// The operator tokens, searched at an offset: one of the definition's tables of words that `select` tries. Where several begin
// with a byte, the module `tokens_at` tries them.
//
// Proved: the search answers what trying every word of the definition's table in turn gives. That the words in the code are the
// definition's is computed from its table, as is which bytes an operator token begins with (proofs/Computed.antt).
// Assumed: nothing.
#![tactic(auto)]

pub mod tokens_at; // tokens_at.rt: the operator tokens that begin with a byte, tried one after the other
pub mod mixfix; // mixfix.rt: mixfix words, searched at an offset

ghost use Rattle.std.specs.Prelude.{◌≡◌, [], ◌∷◌};
ghost use Rattle.definition.specs.Tables.{op_tokens, words_of};
ghost use Rattle.definition.specs.Matchers.{match_lit};
ghost use Rattle.definition.specs.Select.{none_at, try_words};
ghost use Rattle.table_words.specs.Rows.{try_rows};

use crate::tokens_at::{
    at_bar, at_brace, at_bracket, at_colon, at_dollar, at_equals, at_less, at_minus, at_paren,
    at_point, at_question, at_tilde,
};
use choice::attempts::try_word;
use choice::nothing;
use definition::Choice;

// An operator token by itself.
fn only(text: &[u8], i: usize, word: &[u8], number: usize) -> Choice
    ensures { result ≡ try_rows i 36 (λ w. match_lit text.now w i) ((number, word.now) ∷ []) (none_at i) }
{
    try_word(nothing(i), text, i, 36, word, number)
}

// The longest of the operator tokens at i: only those that begin with the byte there are tried.
pub fn op_token(text: &[u8], i: usize) -> Choice
    ensures { result ≡ try_words i 36 (λ w. match_lit text.now w i) 0 (words_of op_tokens) (none_at i) }
{
    if text.len() <= i {
        return nothing(i);
    }
    let first = text[i];
    match first {
        b'!' => only(text, i, b"!{", 39),
        b'#' => only(text, i, b"#", 9),
        b'$' => at_dollar(text, i),
        b'%' => only(text, i, b"%[", 37),
        b'&' => only(text, i, b"&", 11),
        b'(' => at_paren(text, i),
        b')' => only(text, i, b")", 14),
        b',' => only(text, i, b",", 15),
        b'-' => at_minus(text, i),
        b'.' => at_point(text, i),
        b'/' => only(text, i, b"/\\", 2),
        b':' => at_colon(text, i),
        b';' => only(text, i, b";", 35),
        b'<' => at_less(text, i),
        b'=' => at_equals(text, i),
        b'?' => at_question(text, i),
        b'[' => at_bracket(text, i),
        b'\\' => only(text, i, b"\\/", 3),
        b']' => only(text, i, b"]", 47),
        b'r' => only(text, i, b"returns$", 38),
        b'u' => only(text, i, b"u#", 10),
        b'{' => at_brace(text, i),
        b'|' => at_bar(text, i),
        b'}' => only(text, i, b"}", 52),
        b'~' => at_tilde(text, i),
        _ => nothing(i),
    }
}
