// The kinds' names by number, as the listing shows them: `-` for 0, the number of a comment, then the names of the
// definition's list.
// Proved: each name is that of the definition's `names`, which is computed from it. Assumed: nothing but what `name_into`'s
// `requires` says.
ghost use Rattle.std.specs.Prelude.{◌≡◌, [], ◌<◌, ◌≤◌, length, get_or};
ghost use Rattle.lemmas.specs.Over.{Wrote};
ghost use Rattle.listing_lines.specs.Line.{names, name_of};

// A comment's, and those of the keywords. (All 174 in one table are more than the checker takes.)
static KEYWORD_NAMES: [&[u8]; 66] = [
    b"-",
    b"NOEQUALITY",
    b"UNOPTEQUALITY",
    b"AND",
    b"ASSERT",
    b"ASSUME",
    b"BEGIN",
    b"BY",
    b"CALC",
    b"CLASS",
    b"DECREASES",
    b"EFFECT",
    b"ELIM",
    b"ELSE",
    b"END",
    b"ENSURES",
    b"EXCEPTION",
    b"EXISTS",
    b"FALSE",
    b"FRIEND",
    b"FORALL",
    b"FUN",
    b"FUNCTION",
    b"IF",
    b"IN",
    b"INCLUDE",
    b"INLINE",
    b"INLINE_FOR_EXTRACTION",
    b"INSTANCE",
    b"INTRO",
    b"IRREDUCIBLE",
    b"LET",
    b"LOGIC",
    b"MATCH",
    b"RETURNS",
    b"AS",
    b"MODULE",
    b"NEW",
    b"NEW_EFFECT",
    b"NOEXTRACT",
    b"OF",
    b"OPEN",
    b"OPAQUE",
    b"PRIVATE",
    b"QUOTE",
    b"RANGE_OF",
    b"REC",
    b"REIFIABLE",
    b"REIFY",
    b"REFLECTABLE",
    b"REQUIRES",
    b"SET_RANGE_OF",
    b"SUB_EFFECT",
    b"SYNTH",
    b"THEN",
    b"TOTAL",
    b"TRUE",
    b"TRY",
    b"TYPE",
    b"UNFOLD",
    b"UNFOLDABLE",
    b"VAL",
    b"WHEN",
    b"WITH",
    b"UNDERSCORE",
    b"IDENT",
];

// Those of the other tokens.
static OTHER_NAMES: [&[u8]; 108] = [
    b"TILDE",
    b"MINUS",
    b"CONJUNCTION",
    b"DISJUNCTION",
    b"SUBTYPE",
    b"EQUALTYPE",
    b"SUBKIND",
    b"LENS_PAREN_LEFT",
    b"LENS_PAREN_RIGHT",
    b"HASH",
    b"UNIV_HASH",
    b"AMP",
    b"LPAREN_RPAREN",
    b"LPAREN",
    b"RPAREN",
    b"COMMA",
    b"SQUIGGLY_RARROW",
    b"RARROW",
    b"LONG_LEFT_ARROW",
    b"LARROW",
    b"IFF",
    b"IMPLIES",
    b"DOT",
    b"QMARK_DOT",
    b"QMARK",
    b"DOT_LBRACK_BAR",
    b"DOT_LBRACK",
    b"DOT_LENS_PAREN_LEFT",
    b"DOT_LPAREN",
    b"DOLLAR",
    b"LBRACE_COLON_PATTERN",
    b"LBRACE_COLON_WELL_FOUNDED",
    b"COLON",
    b"COLON_COLON",
    b"COLON_EQUALS",
    b"SEMICOLON",
    b"EQUALS",
    b"PERCENT_LBRACK",
    b"RETURNS_EQ",
    b"BANG_LBRACE",
    b"LBRACK_AT_AT_AT",
    b"LBRACK_AT_AT",
    b"LBRACK_AT",
    b"LBRACK_BAR",
    b"LBRACE_BAR",
    b"LBRACK",
    b"PIPE_RIGHT",
    b"RBRACK",
    b"BAR_RBRACK",
    b"BAR_RBRACE",
    b"LBRACE",
    b"BAR",
    b"RBRACE",
    b"NAME",
    b"OPINFIX3L",
    b"OPINFIX0a",
    b"OPINFIX0c",
    b"OPPREFIX",
    b"SPLICE",
    b"SPLICET",
    b"BACKTICK_PERC",
    b"BACKTICK_HASH",
    b"BACKTICK_AT",
    b"SEQ_BANG_LBRACK",
    b"PRAGMA_SHOW_OPTIONS",
    b"PRAGMA_SET_OPTIONS",
    b"PRAGMA_RESET_OPTIONS",
    b"PRAGMA_PUSH_OPTIONS",
    b"PRAGMA_POP_OPTIONS",
    b"PRAGMA_RESTART_SOLVER",
    b"PRAGMA_PRINT_EFFECTS_GRAPH",
    b"PRAGMA_CHECK",
    b"PRAGMA_EVAL",
    b"MATCH_OP",
    b"IF_OP",
    b"LET_OP",
    b"EXISTS_OP",
    b"FORALL_OP",
    b"AND_OP",
    b"SEMICOLON_OP",
    b"OP_MIXFIX_ASSIGNMENT",
    b"OP_MIXFIX_ACCESS",
    b"STRING",
    b"BLOB",
    b"USE_LANG_BLOB",
    b"INT8",
    b"UINT16",
    b"INT16",
    b"UINT32",
    b"INT32",
    b"UINT64",
    b"INT64",
    b"SIZET",
    b"OPINFIX3R",
    b"OPINFIX4",
    b"OPINFIX0b",
    b"OPINFIX0d",
    b"OPINFIX1",
    b"OPINFIX2",
    b"EOF",
    b"INT",
    b"CHAR",
    b"BACKTICK",
    b"UINT8",
    b"REAL",
    b"PIPE_LEFT",
    b"DOT_DOT",
    b"ERROR",
];

// Name k.
fn name_at(k: usize) -> &'static [u8]
    requires { k < 174 }
    ensures { result.now ≡ get_or names k [] }
{
    if k < 66 {
        return KEYWORD_NAMES[k];
    }
    OTHER_NAMES[k - 66]
}

// The name of a kind. A number that is no kind's, which no item has, counts as 0.
fn name(kind: u32) -> &'static [u8]
    ensures { result.now ≡ name_of kind }
{
    if kind < 174 {
        return name_at(kind as usize);
    }
    name_at(0)
}

// Writes a kind's name to the front of the buffer, and answers its length.
pub fn name_into(kind: u32, out: &mut [u8]) -> usize
    requires { length (name_of kind) ≤ length out.old }
    ensures { Wrote (name_of kind) out.old out.new result }
{
    let bytes = name(kind);
    out[..bytes.len()].copy_from_slice(bytes);
    bytes.len()
}
