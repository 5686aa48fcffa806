// What the operations answer: the refusals, why a run stopped, and what a run that isn't refused gives. specs/Answers.antt has document
// 01's numbers of them.
ghost use Rattle.std.specs.Prelude.{◌≡◌, Some};
ghost use Rattle.definition.specs.Answers.{start_number, class_number, run_number, run_offset, stop_number, start_words, class_words, run_words};
ghost use Rattle.definition.specs.declared.answers.RunRefusal.TheVariants.{Classes};

use std::error::Error;
use std::fmt;

// Why a start is refused.
#[derive(Clone, Copy, Debug, PartialEq, Eq)]
pub enum StartRefusal {
    Line = 1,
    Column = 2,
}

impl StartRefusal {
    pub fn number(self) -> u32
        ensures { result ≡ start_number self }
    {
        self as u32
    }
}

impl fmt::Display for StartRefusal {
    ghost output = { λ r. Some (start_words r) };

    fn fmt<W: fmt::Write>(&self, f: &mut fmt::Formatter<W>) -> fmt::Result {
        match self {
            StartRefusal::Line => f.write_str("the line is above 1,000,000"),
            StartRefusal::Column => f.write_str("the column is above 1,000,000"),
        }
    }
}

impl Error for StartRefusal {}

// Why a class file is refused.
#[derive(Clone, Copy, Debug, PartialEq, Eq)]
pub enum ClassRefusal {
    Length = 3,
    Layout = 4,
    Ranges = 5,
}

impl ClassRefusal {
    pub fn number(self) -> u32
        ensures { result ≡ class_number self }
    {
        self as u32
    }
}

impl fmt::Display for ClassRefusal {
    ghost output = { λ r. Some (class_words r) };

    fn fmt<W: fmt::Write>(&self, f: &mut fmt::Formatter<W>) -> fmt::Result {
        match self {
            ClassRefusal::Length => f.write_str(
                "the class file has fewer than 48 or more than 65,536 bytes",
            ),
            ClassRefusal::Layout => f.write_str("the class file has a wrong offset or length"),
            ClassRefusal::Ranges => f.write_str(
                "the class file has a range that is out of order or ends above U+10FFFF",
            ),
        }
    }
}

impl Error for ClassRefusal {}

// Why a run is refused, in the order in which it is tested. An unsound state is one that no run hands back; only the second run, whose
// lines count from 0, refuses a line 0 of the lexer's own.
#[derive(Clone, Copy, Debug, PartialEq, Eq)]
pub enum RunRefusal {
    TextLength,
    NameLength,
    Classes(ClassRefusal),
    IllFormed { offset: u32 },
    UnsoundState,
    LineZero,
}

impl RunRefusal {
    pub fn number(self) -> u32
        ensures { result ≡ run_number self }
    {
        match self {
            RunRefusal::TextLength => 6,
            RunRefusal::NameLength => 7,
            RunRefusal::Classes(refusal) => refusal.number(),
            RunRefusal::IllFormed { .. } => 8,
            RunRefusal::UnsoundState => 9,
            RunRefusal::LineZero => 10,
        }
    }

    // The first offset where no legal sequence starts; 0 of any other refusal.
    pub fn offset(self) -> u32
        ensures { result ≡ run_offset self }
    {
        match self {
            RunRefusal::IllFormed { offset } => offset,
            _ => 0,
        }
    }
}

impl From<ClassRefusal> for RunRefusal {
    ghost from_gives = { λ classes e. e ≡ Classes classes };

    fn from(classes: ClassRefusal) -> RunRefusal {
        RunRefusal::Classes(classes)
    }
}

impl fmt::Display for RunRefusal {
    ghost output = { λ r. Some (run_words r) };

    fn fmt<W: fmt::Write>(&self, f: &mut fmt::Formatter<W>) -> fmt::Result {
        match self {
            RunRefusal::TextLength => f.write_str("the text has more than 1,048,576 bytes"),
            RunRefusal::NameLength => f.write_str("the name has more than 4,096 bytes"),
            RunRefusal::Classes(refusal) => write!(f, "{refusal}"),
            RunRefusal::IllFormed { offset } => write!(f, "ill-formed UTF-8 at offset {offset}"),
            RunRefusal::UnsoundState => f.write_str("the saved state is unsound"),
            RunRefusal::LineZero => f.write_str("the saved state has a line 0"),
        }
    }
}

impl Error for RunRefusal {}

// Why a run stopped: it came to the end, or what comes next doesn't fit into what is left of a buffer.
#[derive(Clone, Copy, Debug, PartialEq, Eq)]
pub enum Stop {
    End = 0,
    RecordsFull = 1,
    PayloadFull = 2,
}

impl Stop {
    pub fn number(self) -> u32
        ensures { result ≡ stop_number self }
    {
        self as u32
    }
}

// What a run that isn't refused gives: why it stopped, how many whole items it has written, and the saved state after them.
#[derive(Clone, Copy, Debug, PartialEq, Eq)]
pub struct Ran<S> {
    pub stop: Stop,
    pub count: u32,
    pub state: S,
}
