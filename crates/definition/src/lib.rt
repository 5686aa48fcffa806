// The types that all layers share, and the methods of the lexing state. What they mean stands in specs/, which is the
// definition of the whole lexer. Proved: each method is the definition's change of the state, and (in proofs/) the
// definition computes document 01's cases. Assumed: nothing but what each method's `requires` says.
#![tactic(auto)]

pub mod answers; // answers.rt: refusals, stops, and what a run gives
pub mod errors; // errors.rt: the errors, and their numbers
pub mod kinds; // kinds.rt: the numbers of kinds by name

ghost use Rattle.std.specs.Prelude.{◌≡◌, ◌<◌, ◌≤◌};
ghost use Rattle.definition.specs.State.{advance, new_line, deeper, open_comment, one_more_comment, close_level, close_last, close_comment, ended};

// How many numbers a record has.
pub const RECORD: usize = 18;

// What stands at an offset of some bytes: a legal UTF-8 sequence, as its code point and its width in bytes;
// bytes that no legal sequence starts; or the end.
#[derive(Clone, Copy)]
pub enum Sequence {
    Char(u32, usize),
    Bad,
    End,
}

// What `select` chose at an offset: one of its 50 places, or 0 for none; the end of the part; and, where the place
// is a table, which of its words (else 0). A place is a number, since it is one in the definition: that of a row of its list
// `places`, whose order decides ties.
#[derive(Clone, Copy)]
pub struct Choice {
    pub place: u32,
    pub end: usize,
    pub word: usize,
}

// A line and a column.
#[derive(Clone, Copy, Default)]
pub struct Pos {
    pub line: u32,
    pub col: u32,
}

// The saved state: document 01's nine numbers, in its order. `bol` and `column` are the line-start offset and column
// (the source's `bol` and `bol_col`), `comment` is the comment start. The mode is 0 between items, 1 in a comment,
// 2 ended: a number, since any nine numbers may be handed in, and a mode that is none of the three is refused with 9.
#[derive(Clone, Copy, Default)]
pub struct State {
    pub offset: u32,
    pub line: u32,
    pub bol: u32,
    pub column: u32,
    pub comments: u32,
    pub mode: u32,
    pub depth: u32,
    pub comment: Pos,
}

impl State {
    // The state that has read up to byte i. It is built field by field: a struct that is only handed on whole is copied as
    // bytes, and this is where nearly all states come from.
    pub fn advance(self, i: u32) -> State
        ensures { result ≡ advance self i }
    {
        let comment = self.comment;
        State {
            offset: i,
            line: self.line,
            bol: self.bol,
            column: self.column,
            comments: self.comments,
            mode: self.mode,
            depth: self.depth,
            comment,
        }
    }

    // A line end was read: the next line begins here.
    pub fn new_line(mut self) -> State
        requires { self.line < 4294967295 }
        ensures { result ≡ new_line self }
    {
        self.line += 1;
        self.bol = self.offset;
        self.column = 0;
        self
    }

    // A comment that began at p was opened.
    pub fn open_comment(mut self, p: Pos) -> State
        ensures { result ≡ open_comment self p }
    {
        self.mode = 1;
        self.depth = 1;
        self.comment = p;
        self
    }

    // A comment inside the comment was opened.
    pub fn deeper(mut self) -> State
        requires { self.depth < 4294967295 }
        ensures { result ≡ deeper self }
    {
        self.depth += 1;
        self
    }

    // A comment was read.
    pub fn one_more_comment(mut self) -> State
        requires { self.comments < 4294967295 }
        ensures { result ≡ one_more_comment self }
    {
        self.comments += 1;
        self
    }

    // A level of the comment was closed, and others are open.
    fn close_level(mut self) -> State
        requires { (self.comments < 4294967295) × (1 ≤ self.depth) }
        ensures { result ≡ close_level self }
    {
        self.comments += 1;
        self.mode = 1;
        self.depth -= 1;
        self
    }

    // A level of the comment was closed: with more than one open the comment goes on, else it is over.
    pub fn close_comment(self) -> State
        requires { self.comments < 4294967295 }
        ensures { result ≡ close_comment self }
    {
        if 1 < self.depth {
            return self.close_level();
        }
        self.close_last()
    }

    // The reading has ended, with EOF or ERROR.
    pub fn ended(mut self) -> State
        ensures { result ≡ ended self }
    {
        self.mode = 2;
        self
    }

    // The last level of the comment was closed: the comment is over.
    fn close_last(mut self) -> State
        requires { self.comments < 4294967295 }
        ensures { result ≡ close_last self }
    {
        let nowhere = Pos { line: 0, col: 0 };
        self.comments += 1;
        self.mode = 0;
        self.depth = 0;
        self.comment = nowhere;
        self
    }
}

// What an item holds besides its kind, its range and its payload: the source's `extra`, and a comment's mark.
#[derive(Clone, Copy)]
pub enum Extra {
    NoExtra,
    CharLit(u32),
    Blob { contents: u32, pos: Pos, snap: Pos },
    LexError { number: u32, p1: Pos, p2: Pos },
    Comment(bool),
}

// An item without its payload's bytes. `length` is the payload's (of a blob: its name's), `comments` the comments so
// far (of a comment: its own number). `from` and `to` are the start and end offset of the bytes that it was read from.
#[derive(Clone, Copy)]
pub struct Item {
    pub kind: u32,
    pub sp: Pos,
    pub ep: Pos,
    pub length: u32,
    pub comments: u32,
    pub extra: Extra,
    pub from: u32,
    pub to: u32,
}

// The second run's saved state (document 02, K2): document 01's nine numbers, whose columns count characters, and then the second columns,
// in UTF-16 units, of the line start and of the comment start.
#[derive(Clone, Copy, Default)]
pub struct Utf16State {
    pub first: State,
    pub column: u32,
    pub comment: u32,
}
