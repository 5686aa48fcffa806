// The rule and the kind of each place.
ghost use Rattle.std.specs.Prelude.{◌≡◌, ◌<◌};
ghost use Rattle.rule_table.specs.Plain.{kind_of};
ghost use Rattle.rule_table.specs.Rules.{rule_of};

// What a choice leads to.
#[derive(Clone, Copy)]
pub enum Rule {
    // White space, and what is passed like it: the source's RWhite and RInFStar.
    White,
    // A line's end.
    Newline,
    // A rule that gives an action.
    Action(ActionRule),
    // A rule that reads an item for itself.
    Reader(ReaderRule),
}

// The rules that give an action on what was chosen: a token, an error or a line's comment, known without reading on.
#[derive(Clone, Copy)]
pub enum ActionRule {
    // A token that its place and word decide.
    Plain,
    // A keyword before operator characters.
    KwOp,
    // An identifier or a keyword.
    Ident,
    // A name that begins with a capital.
    Constructor,
    // A number: the source's RInt and RNumber.
    Number,
    // A number of a byte.
    UInt8,
    // What begins like a number and is none.
    BadNumber,
    // `>` and symbol characters.
    Gt,
    // An operator.
    Op,
    // An operator beyond ASCII.
    UOperator,
}

// The rules that read on from after the choice, or make a character, or find that no place was chosen.
#[derive(Clone, Copy)]
pub enum ReaderRule {
    // A blob between backticks.
    TripleBacktick,
    // The text of another language.
    Lang,
    // A character: the source's RCharLit and RCharLitB.
    CharLit,
    // A comment.
    CommentStart,
    // A line's comment.
    LineComment,
    // A string literal.
    StringLit,
    // No place was chosen: an unexpected character, or the text's end.
    Any,
}

// The rule of a place. Neighbouring places with one rule stand in two arms: in one arm they would become a range, which takes
// more tests.
pub fn rule_of(place: u32) -> Rule
    requires { place < 51 }
    ensures { result ≡ rule_of place }
{
    match place {
        1 | 5 | 11 | 13 | 33 | 35 | 37 => Rule::Action(ActionRule::Plain),
        4 | 6 | 26 | 32 | 34 | 36 | 50 => Rule::Action(ActionRule::Plain),
        2 => Rule::Reader(ReaderRule::TripleBacktick),
        3 => Rule::Reader(ReaderRule::Lang),
        7 | 29 => Rule::White,
        8 => Rule::Newline,
        9 => Rule::Reader(ReaderRule::CharLit),
        10 => Rule::Reader(ReaderRule::CharLit),
        12 => Rule::Action(ActionRule::KwOp),
        14 => Rule::Action(ActionRule::Ident),
        15 => Rule::Action(ActionRule::Constructor),
        16 | 18 | 20 | 22 | 24 => Rule::Action(ActionRule::Number),
        19 | 21 | 23 | 25 => Rule::Action(ActionRule::Number),
        17 => Rule::Action(ActionRule::UInt8),
        27 => Rule::Action(ActionRule::BadNumber),
        28 => Rule::Reader(ReaderRule::CommentStart),
        30 => Rule::Reader(ReaderRule::LineComment),
        31 => Rule::Reader(ReaderRule::StringLit),
        38 => Rule::Action(ActionRule::Gt),
        39 | 41 | 43 | 45 | 47 => Rule::Action(ActionRule::Op),
        40 | 42 | 44 | 46 | 48 => Rule::Action(ActionRule::Op),
        49 => Rule::Action(ActionRule::UOperator),
        _ => Rule::Reader(ReaderRule::Any),
    }
}

// The kind of a place that decides it by itself; 0 for the others, which nobody asks for: an Option would be taken apart where it is
// never None.
pub fn kind_of(place: u32) -> u32
    requires { place < 51 }
    ensures { result ≡ kind_of place }
{
    match place {
        4 | 6 => definition::kinds::STRING,
        5 | 16 => definition::kinds::INT,
        11 => definition::kinds::BACKTICK,
        13 => definition::kinds::SEMICOLON_OP,
        17 => definition::kinds::UINT8,
        18 => definition::kinds::INT8,
        19 => definition::kinds::UINT16,
        20 => definition::kinds::INT16,
        21 => definition::kinds::UINT32,
        22 => definition::kinds::INT32,
        23 => definition::kinds::UINT64,
        24 => definition::kinds::INT64,
        25 => definition::kinds::SIZET,
        26 => definition::kinds::REAL,
        32 => definition::kinds::IDENT,
        33 => definition::kinds::PIPE_LEFT,
        34 => definition::kinds::PIPE_RIGHT,
        35 => definition::kinds::DOT_DOT,
        37 | 44 => definition::kinds::OPINFIX0C,
        39 => definition::kinds::OPINFIX3R,
        40 => definition::kinds::OPINFIX4,
        41 => definition::kinds::OPPREFIX,
        42 => definition::kinds::OPINFIX0A,
        43 => definition::kinds::OPINFIX0B,
        45 => definition::kinds::OPINFIX0D,
        46 => definition::kinds::OPINFIX1,
        47 => definition::kinds::OPINFIX2,
        48 => definition::kinds::OPINFIX3L,
        _ => 0,
    }
}
