// Document 01's errors, with their numbers: "1 unterminated string, 2 unterminated extension syntax, 3 reserved prefix, 4 out-of-range
// character literal, 5 not a valid numeric literal (payload: the part), 6 unexpected char, 7 surrogate"; after document 02, K1, an unpaired
// one. (What makes or carries out an error takes any number, as the definition's `lex_error` does: an enum there would ask more of callers.)
#[derive(Clone, Copy, PartialEq, Eq)]
pub enum LexicalError {
    UnterminatedString = 1,
    UnterminatedExtensionSyntax = 2,
    ReservedPrefix = 3,
    OutOfRangeCharacter = 4,
    InvalidNumber = 5,
    UnexpectedChar = 6,
    Surrogate = 7,
}
