// The tests that a run goes by: of a byte, where only ASCII passes, and of a character.
//
// Proved: each test answers what the definition's does.
// Assumed: nothing but what the ghost fields say: a table that a test holds is the definition's, and a class file is one that
// `class_check` accepts. Who makes such a test shows it.
ghost use Rattle.std.specs.Prelude.{◌≡◌, ℕ, Bool, ◌||◌, ◌<◌, eqb};
ghost use Rattle.definition.specs.Basics.{between, ch};
ghost use Rattle.definition.specs.ClassFile.{class_check};
ghost use Rattle.definition.specs.Chars.{ascii_table, op_char_cps, symbolchar_cps, is_digit, is_hex, is_op_char, is_symbolchar, is_ident_char, is_anywhite};
ghost use Rattle.chars.specs.Parts.{ascii_ident_char};
ghost use Rattle.laws_progress.proofs.Matches.{Small, small_digit, small_hex};
ghost use Rattle.star.specs.Blanks.{is_blank};
ghost use Rattle.star.specs.TestLaws.{small_octal, small_binary, small_op_char, small_symbolchar, small_ident, ascii_ident, small_blank, ascii_white};

use chars::ascii::{is_op_char, is_symbolchar};
use chars::fixed::{is_ascii_ident_char, is_digit, is_hex};
use chars::{is_anywhite, is_ident_char};

// A test of a byte that only ASCII passes: a run over it goes by bytes.
pub trait AsciiTest: Copy {
    ghost test: { Self → ℕ → Bool };

    fn passes(self, b: u8) -> bool
        ensures { result ≡ test self b };

    ghost small: { (t : Self) → Small (test t) };
}

// A test of a character, which of ASCII passes what its test of a byte does: a run over it decodes only what is beyond ASCII.
pub trait CharTest: AsciiTest {
    ghost char_test: { Self → ℕ → Bool };

    fn passes_char(self, c: u32) -> bool
        ensures { result ≡ char_test self c };

    ghost agrees: { (t : Self) (c : ℕ) → c < 0x80 → char_test t c ≡ Self.test t c };
}

// ---- numbers

#[derive(Clone, Copy)]
pub struct Digit;

impl AsciiTest for Digit {
    ghost test = { λ _. is_digit };

    ghost small = { λ _. small_digit };

    fn passes(self, b: u8) -> bool {
        is_digit(b as u32)
    }
}

#[derive(Clone, Copy)]
pub struct Hex;

impl AsciiTest for Hex {
    ghost test = { λ _. is_hex };

    ghost small = { λ _. small_hex };

    fn passes(self, b: u8) -> bool {
        is_hex(b as u32)
    }
}

#[derive(Clone, Copy)]
pub struct Octal;

impl AsciiTest for Octal {
    ghost test = { λ _. between (ch "0") (ch "7") };

    ghost small = { λ _. small_octal };

    fn passes(self, b: u8) -> bool {
        matches!(b, b'0'..=b'7')
    }
}

#[derive(Clone, Copy)]
pub struct Binary;

impl AsciiTest for Binary {
    ghost test = { λ _ c. eqb c (ch "0") || eqb c (ch "1") };

    ghost small = { λ _. small_binary };

    fn passes(self, b: u8) -> bool {
        matches!(b, b'0' | b'1')
    }
}

// ---- operators

#[derive(Clone, Copy)]
pub struct OpChar<'a> {
    pub table: &'a [bool; 128],
    ghost filled: { table.now ≡ ascii_table op_char_cps },
}

impl<'a> AsciiTest for OpChar<'a> {
    ghost test = { λ _. is_op_char };

    ghost small = { λ _. small_op_char };

    fn passes(self, b: u8) -> bool {
        is_op_char(self.table, b as u32)
    }
}

#[derive(Clone, Copy)]
pub struct SymbolChar<'a> {
    pub table: &'a [bool; 128],
    ghost filled: { table.now ≡ ascii_table symbolchar_cps },
}

impl<'a> AsciiTest for SymbolChar<'a> {
    ghost test = { λ _. is_symbolchar };

    ghost small = { λ _. small_symbolchar };

    fn passes(self, b: u8) -> bool {
        is_symbolchar(self.table, b as u32)
    }
}

// ---- identifiers

#[derive(Clone, Copy)]
pub struct IdentChar<'a> {
    pub file: &'a [u8],
    ghost accepted: { class_check file.now ≡ 0 },
}

impl<'a> AsciiTest for IdentChar<'a> {
    ghost test = { λ _. ascii_ident_char };

    ghost small = { λ _. small_ident };

    fn passes(self, b: u8) -> bool {
        is_ascii_ident_char(b as u32)
    }
}

impl<'a> CharTest for IdentChar<'a> {
    ghost char_test = { λ t. is_ident_char t.file.now };

    ghost agrees = { λ t. ascii_ident t.file.now };

    fn passes_char(self, c: u32) -> bool {
        is_ident_char(self.file, c)
    }
}

// ---- white space, which in ASCII is space, tab, vertical tab and form feed

// The white space of ASCII, for which no class file is asked.
#[derive(Clone, Copy)]
pub struct Blank;

impl AsciiTest for Blank {
    ghost test = { λ _. is_blank };

    ghost small = { λ _. small_blank };

    // Of comparisons the compiler makes one test by a mask of bits, of a `matches!` four jumps.
    fn passes(self, b: u8) -> bool {
        b == b' ' || b == b'\t' || b == 11 || b == 12
    }
}

#[derive(Clone, Copy)]
pub struct White<'a> {
    pub file: &'a [u8],
    ghost accepted: { class_check file.now ≡ 0 },
}

impl<'a> AsciiTest for White<'a> {
    ghost test = { λ _. is_blank };

    ghost small = { λ _. small_blank };

    fn passes(self, b: u8) -> bool {
        Blank.passes(b)
    }
}

impl<'a> CharTest for White<'a> {
    ghost char_test = { λ t. is_anywhite t.file.now };

    ghost agrees = { λ t. ascii_white t.file.now };

    fn passes_char(self, c: u32) -> bool {
        is_anywhite(self.file, c)
    }
}
