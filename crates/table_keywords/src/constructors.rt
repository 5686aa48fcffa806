// Whole lexemes looked up in the source's table `constructors`: its three words are compared one by one (crate `table_words`).
//
// Proved: `constructor` gives the place at which the definition's table has the lexeme, or says that it has it nowhere.
// Assumed: nothing.
ghost use Rattle.std.specs.Prelude.{◌≡◌};
ghost use Rattle.definition.specs.Tables.{constructors};
ghost use Rattle.table_words.specs.Words.{spelled};
ghost use Rattle.table_keywords.specs.Places.{place};

use table_words::spellings::is_word;

// The place of a constructor, after the keywords.
pub fn constructor(id: &[u8]) -> Option<usize>
    ensures { result ≡ place 86 id.now (spelled constructors) }
{
    if is_word(id, 86) {
        return Some(86);
    }
    if is_word(id, 87) {
        return Some(87);
    }
    if is_word(id, 88) {
        return Some(88);
    }
    None
}
