// The kinds and texts of the tables' entries: `keywords`, `constructors`, `uoperators`, the operator tokens and the mixfix
// words, one table after the other and each in its order; after them the text of the token `<`, which is in no table.
// Nearly all kinds run along with the places, so that they are given by a rule for a range of entries, and only what no rule gives is
// in a table. Proved: each kind and text is that of the definition's entry; that the rules and the tables give what the
// definition's tables do is computed from them. Assumed: nothing but what each function's `requires` says.
#![tactic(auto)]

ghost use Rattle.std.specs.Prelude.{◌≡◌, [], ◌<◌, ◌≤◌, length, get_or};
ghost use Rattle.definition.specs.Kinds.{kind};
ghost use Rattle.definition.specs.Tables.{entry};
ghost use Rattle.lemmas.specs.Over.{over};
ghost use Rattle.table_entries.specs.Entries.{entries, texts};

// The kinds of the operators in Unicode, entries 89 to 118.
static UOPERATOR_KINDS: [u32; 30] = [
    definition::kinds::FORALL,
    definition::kinds::EXISTS,
    definition::kinds::NAME,
    definition::kinds::NAME,
    definition::kinds::IMPLIES,
    definition::kinds::IFF,
    definition::kinds::RARROW,
    definition::kinds::LARROW,
    definition::kinds::LONG_LEFT_ARROW,
    definition::kinds::SQUIGGLY_RARROW,
    definition::kinds::COLON_EQUALS,
    definition::kinds::CONJUNCTION,
    definition::kinds::DISJUNCTION,
    definition::kinds::TILDE,
    definition::kinds::COLON_COLON,
    definition::kinds::PIPE_RIGHT,
    definition::kinds::OPINFIX3L,
    definition::kinds::OPINFIX0A,
    definition::kinds::IDENT,
    definition::kinds::OPINFIX3L,
    definition::kinds::OPINFIX0C,
    definition::kinds::OPINFIX0C,
    definition::kinds::OPINFIX0C,
    definition::kinds::OPINFIX0C,
    definition::kinds::OPINFIX0C,
    definition::kinds::OPINFIX0C,
    definition::kinds::OPPREFIX,
    definition::kinds::OPPREFIX,
    definition::kinds::OPPREFIX,
    definition::kinds::OPPREFIX,
];

// The texts of the entries 65 to 119, the variables' names, the constructors, and the operators in Unicode with the first operator
// token.
static TEXTS: [&[u8]; 55] = [
    b"'a",
    b"'b",
    b"'c",
    b"'d",
    b"'e",
    b"'f",
    b"'g",
    b"'h",
    b"'i",
    b"'k",
    b"'m",
    b"'n",
    b"'p",
    b"'q",
    b"'r",
    b"'s",
    b"'t",
    b"'u",
    b"'w",
    b"'x",
    b"'z",
    b"nat",
    b"int",
    b"bool",
    b"",
    b"",
    b"True",
    b"False",
    b"",
    b"",
    b"",
    b"",
    b"",
    b"",
    b"",
    b"",
    b"",
    b"~",
    b"",
    b"",
    b"\xc3\xb7",
    b"||",
    b"op_Star",
    b"*",
    b"=>",
    b">=",
    b"<=",
    b"<>",
    b"<<",
    b"<|",
    b"\xc2\xb1",
    b"\xe2\x88\x81",
    b"\xe2\x88\x82",
    b"\xe2\x88\x9a",
    b"~",
];

// The first of the entries that are names of variables.
const FIRST_VARIABLE: usize = 66;

// The kind of entry k: nearly all kinds run along with the places.
pub fn kind_at(k: usize) -> u32
    requires { k < 180 }
    ensures { result ≡ kind (entry entries k).kind }
{
    if k < 21 {
        return k as u32 + 1;
    }
    if k < FIRST_VARIABLE {
        return k as u32;
    }
    if k < 89 {
        return definition::kinds::IDENT;
    }
    if k < 119 {
        return UOPERATOR_KINDS[k - 89];
    }
    if k < 172 {
        return k as u32 - 119 + definition::kinds::TILDE;
    }
    if k < 176 {
        return definition::kinds::OP_MIXFIX_ASSIGNMENT;
    }
    definition::kinds::OP_MIXFIX_ACCESS
}

// Text k: most tokens have none.
fn text(k: usize) -> &'static [u8]
    requires { k < 181 }
    ensures { result.now ≡ get_or texts k [] }
{
    match k {
        65..=119 => TEXTS[k - 65],
        180 => b"<",
        _ => b"",
    }
}

// How long text k is.
pub fn text_length(k: usize) -> usize
    requires { k < 181 }
    ensures { result ≡ length (get_or texts k []) }
{
    text(k).len()
}

// Writes text k to the front of the buffer.
pub fn text_into(k: usize, out: &mut [u8])
    requires { (k < 181) × (length (get_or texts k []) ≤ length out.old) }
    ensures { out.new ≡ over (get_or texts k []) out.old }
{
    let bytes = text(k);
    out[..bytes.len()].copy_from_slice(bytes);
}
