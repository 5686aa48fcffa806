// The columns of a token's ends, without a count where the bytes before them are known to be ASCII. Proved: the columns are
// the definition's, whatever run of ASCII is given, and each that is handed back is one. Assumed: nothing but
// what each function's `requires` says.

// A part of the text that is known to be ASCII.
#[derive(Clone, Copy)]
pub struct AsciiRun {
    pub from: usize,
    pub to: usize,
}

// The columns of a token's ends.
#[derive(Clone, Copy)]
pub struct Columns {
    pub start: u32,
    pub end: u32,
}
