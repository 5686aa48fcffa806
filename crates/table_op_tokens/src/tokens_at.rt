// The operator tokens by their first bytes, for the bytes with which several begin. Each is tried by itself: a short word that is
// written where it is compared costs nothing.
//
// Proved: each function answers what trying those of the definition's operator tokens that begin with the byte gives. That the
// words in the code are the definition's is computed from its table.
// Assumed: nothing.
ghost use Rattle.std.specs.Prelude.{◌≡◌};
ghost use Rattle.definition.specs.Basics.{ch};
ghost use Rattle.definition.specs.Matchers.{match_lit};
ghost use Rattle.definition.specs.Select.{none_at};
ghost use Rattle.table_words.specs.Rows.{tokens_at, try_rows};

use choice::attempts::try_word;
use choice::nothing;
use definition::Choice;

// The tokens that begin with `$`.
pub fn at_dollar(text: &[u8], i: usize) -> Choice
    ensures { result ≡ try_rows i 36 (λ w. match_lit text.now w i) (tokens_at (ch "$")) (none_at i) }
{
    let best = try_word(nothing(i), text, i, 36, b"$:", 5);
    try_word(best, text, i, 36, b"$", 29)
}

// The tokens that begin with `(`.
pub fn at_paren(text: &[u8], i: usize) -> Choice
    ensures { result ≡ try_rows i 36 (λ w. match_lit text.now w i) (tokens_at (ch "(")) (none_at i) }
{
    let mut best = try_word(nothing(i), text, i, 36, b"(|", 7);
    best = try_word(best, text, i, 36, b"()", 12);
    try_word(best, text, i, 36, b"(", 13)
}

// The tokens that begin with `-`.
pub fn at_minus(text: &[u8], i: usize) -> Choice
    ensures { result ≡ try_rows i 36 (λ w. match_lit text.now w i) (tokens_at (ch "-")) (none_at i) }
{
    let best = try_word(nothing(i), text, i, 36, b"-", 1);
    try_word(best, text, i, 36, b"->", 17)
}

// The tokens that begin with `.`.
pub fn at_point(text: &[u8], i: usize) -> Choice
    ensures { result ≡ try_rows i 36 (λ w. match_lit text.now w i) (tokens_at (ch ".")) (none_at i) }
{
    let mut best = try_word(nothing(i), text, i, 36, b".", 22);
    best = try_word(best, text, i, 36, b".[|", 25);
    best = try_word(best, text, i, 36, b".[", 26);
    best = try_word(best, text, i, 36, b".(|", 27);
    try_word(best, text, i, 36, b".(", 28)
}

// The tokens that begin with `:`.
pub fn at_colon(text: &[u8], i: usize) -> Choice
    ensures { result ≡ try_rows i 36 (λ w. match_lit text.now w i) (tokens_at (ch ":")) (none_at i) }
{
    let mut best = try_word(nothing(i), text, i, 36, b":", 32);
    best = try_word(best, text, i, 36, b"::", 33);
    try_word(best, text, i, 36, b":=", 34)
}

// The tokens that begin with `<`.
pub fn at_less(text: &[u8], i: usize) -> Choice
    ensures { result ≡ try_rows i 36 (λ w. match_lit text.now w i) (tokens_at (ch "<")) (none_at i) }
{
    let mut best = try_word(nothing(i), text, i, 36, b"<:", 4);
    best = try_word(best, text, i, 36, b"<@", 6);
    best = try_word(best, text, i, 36, b"<--", 18);
    best = try_word(best, text, i, 36, b"<-", 19);
    try_word(best, text, i, 36, b"<==>", 20)
}

// The tokens that begin with `=`.
pub fn at_equals(text: &[u8], i: usize) -> Choice
    ensures { result ≡ try_rows i 36 (λ w. match_lit text.now w i) (tokens_at (ch "=")) (none_at i) }
{
    let best = try_word(nothing(i), text, i, 36, b"==>", 21);
    try_word(best, text, i, 36, b"=", 36)
}

// The tokens that begin with `?`.
pub fn at_question(text: &[u8], i: usize) -> Choice
    ensures { result ≡ try_rows i 36 (λ w. match_lit text.now w i) (tokens_at (ch "?")) (none_at i) }
{
    let best = try_word(nothing(i), text, i, 36, b"?.", 23);
    try_word(best, text, i, 36, b"?", 24)
}

// The tokens that begin with `[`.
pub fn at_bracket(text: &[u8], i: usize) -> Choice
    ensures { result ≡ try_rows i 36 (λ w. match_lit text.now w i) (tokens_at (ch "[")) (none_at i) }
{
    let mut best = try_word(nothing(i), text, i, 36, b"[@@@", 40);
    best = try_word(best, text, i, 36, b"[@@", 41);
    best = try_word(best, text, i, 36, b"[@", 42);
    best = try_word(best, text, i, 36, b"[|", 43);
    try_word(best, text, i, 36, b"[", 45)
}

// The tokens that begin with `{`.
pub fn at_brace(text: &[u8], i: usize) -> Choice
    ensures { result ≡ try_rows i 36 (λ w. match_lit text.now w i) (tokens_at (ch "{")) (none_at i) }
{
    let mut best = try_word(nothing(i), text, i, 36, b"{:pattern", 30);
    best = try_word(best, text, i, 36, b"{:well-founded", 31);
    best = try_word(best, text, i, 36, b"{|", 44);
    try_word(best, text, i, 36, b"{", 50)
}

// The tokens that begin with `|`.
pub fn at_bar(text: &[u8], i: usize) -> Choice
    ensures { result ≡ try_rows i 36 (λ w. match_lit text.now w i) (tokens_at (ch "|")) (none_at i) }
{
    let mut best = try_word(nothing(i), text, i, 36, b"|)", 8);
    best = try_word(best, text, i, 36, b"|>", 46);
    best = try_word(best, text, i, 36, b"|]", 48);
    best = try_word(best, text, i, 36, b"|}", 49);
    try_word(best, text, i, 36, b"|", 51)
}

// The tokens that begin with `~`.
pub fn at_tilde(text: &[u8], i: usize) -> Choice
    ensures { result ≡ try_rows i 36 (λ w. match_lit text.now w i) (tokens_at (ch "~")) (none_at i) }
{
    let best = try_word(nothing(i), text, i, 36, b"~", 0);
    try_word(best, text, i, 36, b"~>", 16)
}
