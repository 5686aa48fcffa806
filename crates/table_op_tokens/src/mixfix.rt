// The mixfix words, searched at an offset: one of the definition's tables of words that `select` tries. Each is tried by
// itself: a short word that is written where it is compared costs nothing.
//
// Proved: the search answers what trying every word of the definition's table in turn gives. That the words in the code are the
// definition's is computed from its table.
// Assumed: nothing.
ghost use Rattle.std.specs.Prelude.{◌≡◌};
ghost use Rattle.definition.specs.Tables.{mixfix_rules, words_of};
ghost use Rattle.definition.specs.Matchers.{match_lit};
ghost use Rattle.definition.specs.Select.{none_at, try_words};
ghost use Rattle.table_words.specs.Rows.{numbered, try_rows};

use choice::attempts::try_word;
use choice::nothing;
use definition::Choice;
use match_lit::byte_is;

// The mixfix words, which all begin with a point.
fn mixfix(text: &[u8], i: usize) -> Choice
    ensures { result ≡ try_rows i 50 (λ w. match_lit text.now w i) (numbered 0 (words_of mixfix_rules)) (none_at i) }
{
    let mut best = try_word(nothing(i), text, i, 50, b".[]<-", 0);
    best = try_word(best, text, i, 50, b".()<-", 1);
    best = try_word(best, text, i, 50, b".(||)<-", 2);
    best = try_word(best, text, i, 50, b".[||]<-", 3);
    best = try_word(best, text, i, 50, b".[]", 4);
    best = try_word(best, text, i, 50, b".()", 5);
    best = try_word(best, text, i, 50, b".(||)", 6);
    try_word(best, text, i, 50, b".[||]", 7)
}

// The longest of the mixfix words at i.
pub fn mixfix_word(text: &[u8], i: usize) -> Choice
    ensures { result ≡ try_words i 50 (λ w. match_lit text.now w i) 0 (words_of mixfix_rules) (none_at i) }
{
    if byte_is(text, i, b'.') {
        return mixfix(text, i);
    }
    nothing(i)
}
