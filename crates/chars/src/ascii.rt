// The two tables of 128 yes-or-no entries, filled once from the source's strings of operator characters, and the two
// tests that read them. Proved: a table is the definition's, entry by entry, and so is each test, given its table.
// Assumed: nothing but what each function's `requires` says.
ghost use Rattle.std.specs.Prelude.{◌≡◌};
ghost use Rattle.definition.specs.Chars.{ascii_table, in_table, op_char_cps, symbolchar_cps, is_op_char, is_symbolchar};

const ASCII_LIMIT: u32 = 128;

// Entry c says whether the character c is among `chars`; one of 128 or more has no entry.
pub fn ascii_table(chars: &[u8]) -> [bool; 128]
    ensures { result ≡ ascii_table chars.now }
{
    let mut table = [false; 128];
    for &c in chars {
        if c.is_ascii() {
            table[usize::from(c)] = true;
        }
    }
    table
}

pub fn op_char_table() -> [bool; 128]
    ensures { result ≡ ascii_table op_char_cps }
{
    ascii_table(b"!$%&*+-.<>=?^|~:@#\\/")
}

pub fn symbolchar_table() -> [bool; 128]
    ensures { result ≡ ascii_table symbolchar_cps }
{
    ascii_table(b"!~?|&=<>$@^+-*/%.:")
}

// What the table says of c; one of 128 or more has no entry.
#[tactic(auto, unfolding(definition::specs::Chars::in_table), using(lemmas::proofs::Cases::all_tests))]
fn in_table(table: &[bool; 128], c: u32) -> bool
    ensures { result ≡ in_table table.now c }
{
    c < ASCII_LIMIT && table[c as usize]
}

#[tactic(auto, unfolding(definition::specs::Chars::is_op_char))]
pub fn is_op_char(ops: &[bool; 128], c: u32) -> bool
    requires { ops.now ≡ ascii_table op_char_cps }
    ensures { result ≡ is_op_char c }
{
    in_table(ops, c)
}

#[tactic(auto, unfolding(definition::specs::Chars::is_symbolchar))]
pub fn is_symbolchar(symbols: &[bool; 128], c: u32) -> bool
    requires { symbols.now ≡ ascii_table symbolchar_cps }
    ensures { result ≡ is_symbolchar c }
{
    in_table(symbols, c)
}
