// The words of the source's tables `keywords`, `constructors` and `uoperators`, one table after the other and each in its
// order: whether word k is a lexeme.
// Proved: `is_word` is the definition's test of the lexeme against the word that its tables have at k; that the words are the
// definition's is computed from its tables. Assumed: nothing but what `is_word`'s `requires` says.
ghost use Rattle.std.specs.Prelude.{◌≡◌, ◌<◌, [], get_or};
ghost use Rattle.definition.specs.Basics.{same};
ghost use Rattle.table_words.specs.Words.{words};

static WORDS: [&[u8]; 119] = [
    b"noeq",
    b"unopteq",
    b"and",
    b"assert",
    b"assume",
    b"begin",
    b"by",
    b"calc",
    b"class",
    b"decreases",
    b"effect",
    b"eliminate",
    b"else",
    b"end",
    b"ensures",
    b"exception",
    b"exists",
    b"false",
    b"friend",
    b"forall",
    b"fun",
    b"\xCE\xBB",
    b"function",
    b"if",
    b"in",
    b"include",
    b"inline",
    b"inline_for_extraction",
    b"instance",
    b"introduce",
    b"irreducible",
    b"let",
    b"logic",
    b"match",
    b"returns",
    b"as",
    b"module",
    b"new",
    b"new_effect",
    b"noextract",
    b"of",
    b"open",
    b"opaque",
    b"private",
    b"quote",
    b"range_of",
    b"rec",
    b"reifiable",
    b"reify",
    b"reflectable",
    b"requires",
    b"set_range_of",
    b"sub_effect",
    b"synth",
    b"then",
    b"total",
    b"true",
    b"try",
    b"type",
    b"unfold",
    b"unfoldable",
    b"val",
    b"when",
    b"with",
    b"_",
    b"\xCE\xB1",
    b"\xCE\xB2",
    b"\xCE\xB3",
    b"\xCE\xB4",
    b"\xCE\xB5",
    b"\xCF\x86",
    b"\xCF\x87",
    b"\xCE\xB7",
    b"\xCE\xB9",
    b"\xCE\xBA",
    b"\xCE\xBC",
    b"\xCE\xBD",
    b"\xCF\x80",
    b"\xCE\xB8",
    b"\xCF\x81",
    b"\xCF\x83",
    b"\xCF\x84",
    b"\xCF\x88",
    b"\xCF\x89",
    b"\xCE\xBE",
    b"\xCE\xB6",
    b"\xE2\x84\x95",
    b"\xE2\x84\xA4",
    b"\xF0\x9D\x94\xB9",
    b"\xE2\x88\x80",
    b"\xE2\x88\x83",
    b"\xE2\x8A\xA4",
    b"\xE2\x8A\xA5",
    b"\xE2\x9F\xB9",
    b"\xE2\x9F\xBA",
    b"\xE2\x86\x92",
    b"\xE2\x86\x90",
    b"\xE2\x9F\xB5",
    b"\xE2\x86\x9D",
    b"\xE2\x89\x94",
    b"\xE2\x88\xA7",
    b"\xE2\x88\xA8",
    b"\xC2\xAC",
    b"\xE2\xB8\xAC",
    b"\xE2\x96\xB9",
    b"\xC3\xB7",
    b"\xE2\x80\x96",
    b"\xC3\x97",
    b"\xE2\x88\x97",
    b"\xE2\x87\x92",
    b"\xE2\x89\xA5",
    b"\xE2\x89\xA4",
    b"\xE2\x89\xA0",
    b"\xE2\x89\xAA",
    b"\xE2\x97\x83",
    b"\xC2\xB1",
    b"\xE2\x88\x81",
    b"\xE2\x88\x82",
    b"\xE2\x88\x9A",
];

// Word k.
fn word(k: usize) -> &'static [u8]
    requires { k < 119 }
    ensures { result.now ≡ get_or words k [] }
{
    WORDS[k]
}

// Whether a lexeme is this word.
pub fn spells(id: &[u8], word: &[u8]) -> bool
    ensures { result ≡ same word.now id.now }
{
    id == word
}

// Whether word k is the lexeme.
pub fn is_word(id: &[u8], k: usize) -> bool
    requires { k < 119 }
    ensures { result ≡ same (get_or words k []) id.now }
{
    spells(id, word(k))
}
