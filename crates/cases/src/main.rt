// Makes the calls that the frames of standard input ask for, `lexer::start`, `lexer::class_check`, `lexer::run`, and the second run's
// `lexer::utf16::start` and `lexer::utf16::run`, and prints what each answers and leaves in its buffers. scripts/pack-cases makes the
// frames of the cases, and what is to be printed; scripts/items and scripts/lint ask for the runs over a file.
//
// A frame is eighteen numbers of 32 bits, the least byte first, and the bytes that they announce:
//
//   0         the call: 1 start, 2 class check, 3 run, 4 the second run's start, 5 the second run
//   1         the case's number, which is printed with the answer
//   2 to 12   the state: document 01's nine numbers, and then the second run's two (either start takes the line and the line-start column)
//   13, 14    how many record numbers and payload bytes are lent
//   15 to 17  how many bytes of the name, of the text and of the class file follow, in this order; 4294967295 as the first says that
//             all three are those of the frame before
//
// The lines of a frame, every number in decimal; a STATE is nine numbers, and the second run's is eleven:
//
//   start CASE REFUSAL STATE
//   classes CASE ANSWER
//   run CASE REFUSAL OFFSET STOP COUNT STATE
//   utf16-start CASE REFUSAL STATE
//   utf16-run CASE REFUSAL OFFSET STOP COUNT STATE
//   record NUMBERS        each eighteen of the record numbers lent, up to the last that isn't 4294967295
//   payload BYTES         the payload bytes lent, in hexadecimal, up to the last that isn't 255
//
// Before a run all that it is lent holds 4294967295 and 255, so these lines say what every number and byte holds after it. A frame
// that is cut short or too large, or asks for none of the calls, gets a line that says so and is the last.
//
// Proved: it ends and breaks nothing; what the calls answer is the definition's (crate `lexer`). What it
// prints for the stored frames is compared with the file stdout. Assumed: nothing. What the system gives to read, and takes of what is
// written, no contract says; a read or a write that fails ends the program with its error.
#![tactic(auto)]

mod print; // print.rt: the lines

ghost use Rattle.std.specs.Prelude.{◌≡◌, None, IfOk, IfSome};
ghost use Rattle.cases.specs.Parts.{Within};

use definition::{Pos, State, Utf16State};
use either_run::{Saved, Started, answer_of, start_of, utf16_start_of};
use inputs::{parts_buffer, payload_buffer, read_full, record_buffer};
use print::{print_numbers, print_payload, print_records, say};
use std::io;
use std::io::{Read, Write};

const START: u32 = 1;

const CLASS_CHECK: u32 = 2;

const RUN: u32 = 3;

const UTF16_START: u32 = 4;

const UTF16_RUN: u32 = 5;

// The length that says that name, text and class file are those of the frame before.
const KEPT: u32 = 4294967295;

// Where the name, the text after it and the class file after that end in the buffer that they are read into.
#[derive(Drop)]
pub struct Parts {
    pub name: usize,
    pub text: usize,
    pub classes: usize,
}

// Prints the last line, which says why there is no other.
fn last<W: Write>(out: &mut W, line: &[u8]) -> io::Result<Option<Parts>>
    ensures { IfOk result (λ after. after ≡ None) }
{
    say(out, line)?;
    Ok(None)
}

// The numbers of a frame.
fn numbers_of(head: &[u8; 72]) -> [u32; 18] {
    let mut numbers = [0u32; 18];
    for k in 0..18usize {
        numbers[k] = class_file::check::number_at(head, 4 * k);
    }
    numbers
}

// The state that a frame's numbers say, of the run that it asks for.
fn state_of(n: [u32; 18]) -> Saved {
    let first = State {
        offset: n[2],
        line: n[3],
        bol: n[4],
        column: n[5],
        comments: n[6],
        mode: n[7],
        depth: n[8],
        comment: Pos {
            line: n[9],
            col: n[10],
        },
    };
    if n[0] == RUN {
        return Saved::Characters(first);
    }
    Saved::Utf16(Utf16State {
        first,
        column: n[11],
        comment: n[12],
    })
}

// Document 01's nine numbers of a state.
fn print_first<W: Write>(out: &mut W, s: State) -> io::Result<()> {
    let p = s.comment;
    print_numbers(out, &[s.offset, s.line, s.bol, s.column])?;
    print_numbers(out, &[s.comments, s.mode, s.depth, p.line, p.col])
}

// A state's numbers, with which a line ends.
fn print_state<W: Write>(out: &mut W, state: Saved) -> io::Result<()> {
    match state {
        Saved::Characters(first) => print_first(out, first)?,
        Saved::Utf16(both) => {
            print_first(out, both.first)?;
            print_numbers(out, &[both.column, both.comment])?;
        }
    }
    say(out, b"\n")
}

// The case and the numbers of a start's answer.
fn print_start<W: Write>(out: &mut W, case: u32, answer: Started) -> io::Result<()> {
    print_numbers(out, &[case, answer.refusal])?;
    print_state(out, answer.state)
}

// Start takes the line and the line-start column of the state.
fn answer_start<W: Write>(out: &mut W, n: [u32; 18]) -> io::Result<()> {
    let answer = start_of(lexer::start(n[3], n[5]));
    say(out, b"start")?;
    print_start(out, n[1], answer)
}

fn answer_utf16_start<W: Write>(out: &mut W, n: [u32; 18]) -> io::Result<()> {
    let answer = utf16_start_of(lexer::utf16::start(n[3], n[5]));
    say(out, b"utf16-start")?;
    print_start(out, n[1], answer)
}

fn answer_class_check<W: Write>(out: &mut W, case: u32, classes: &[u8]) -> io::Result<()> {
    let number = match lexer::class_check(classes) {
        Ok(()) => 0,
        Err(refusal) => refusal.number(),
    };
    say(out, b"classes")?;
    print_numbers(out, &[case, number])?;
    say(out, b"\n")
}

// The word of a run's line.
fn say_run<W: Write>(out: &mut W, state: Saved) -> io::Result<()> {
    match state {
        Saved::Characters(_) => say(out, b"run"),
        Saved::Utf16(_) => say(out, b"utf16-run"),
    }
}

// A run of either kind that is lent these buffers.
fn answer_run<W: Write>(
    out: &mut W,
    n: [u32; 18],
    name: &[u8],
    text: &[u8],
    classes: &[u8],
    records: &mut [u32],
    payload: &mut [u8],
) -> io::Result<()> {
    records.fill(print::FILL_NUMBER);
    payload.fill(print::FILL_BYTE);
    let given = state_of(n);
    let ran = either_run::run(text, name, classes, given, records, payload);
    let answer = answer_of(given, ran);
    say_run(out, answer.state)?;
    print_numbers(out, &[n[1], answer.refusal, answer.offset])?;
    print_numbers(out, &[answer.stop, answer.count])?;
    print_state(out, answer.state)?;
    print_records(out, records)?;
    print_payload(out, payload)
}

// Makes the call that a frame with these numbers and parts asks for, and answers the parts; none after a line that is the last. The
// only error is the writer's own.
fn call<W: Write>(
    out: &mut W,
    n: [u32; 18],
    parts: Parts,
    bytes: &[u8],
    records: &mut [u32],
    payload: &mut [u8],
) -> io::Result<Option<Parts>>
    requires { Within parts bytes.now }
    ensures { IfOk result (λ after. IfSome after (λ parts. Within parts bytes.now)) }
{
    let name = parts.name;
    let text = parts.text;
    let end = parts.classes;
    let numbers = n[13] as usize;
    let room = n[14] as usize;
    if records.len() < numbers || payload.len() < room {
        return last(out, b"a frame is too large\n");
    }
    let asked = n[0];
    match asked {
        START => answer_start(out, n)?,
        UTF16_START => answer_utf16_start(out, n)?,
        CLASS_CHECK => answer_class_check(out, n[1], &bytes[text..end])?,
        RUN | UTF16_RUN => answer_run(
            out,
            n,
            &bytes[..name],
            &bytes[name..text],
            &bytes[text..end],
            &mut records[..numbers],
            &mut payload[..room],
        )?,
        _ => return last(out, b"a frame asks for none of the calls\n"),
    }
    Ok(Some(parts))
}

// Reads a frame and makes its call, and answers its parts; none where no frame may follow. The only errors are those of reading and of writing.
fn answer_next<R: Read, W: Write>(
    input: &mut R,
    out: &mut W,
    before: Parts,
    bytes: &mut [u8],
    records: &mut [u32],
    payload: &mut [u8],
) -> io::Result<Option<Parts>>
    requires { Within before bytes.old }
    ensures { IfOk result (λ after. IfSome after (λ parts. Within parts bytes.new)) }
{
    let mut head = [0u8; 72];
    let got = read_full(input, &mut head)?;
    if got == 0 {
        return last(out, b"");
    }
    if got < 72 {
        return last(out, b"a frame is cut short\n");
    }
    let n = numbers_of(&head);
    if n[15] == KEPT {
        return call(out, n, before, bytes, records, payload);
    }
    let name = n[15] as usize;
    let text = name + n[16] as usize;
    let classes = text + n[17] as usize;
    if bytes.len() < classes {
        return last(out, b"a frame is too large\n");
    }
    if read_full(input, &mut bytes[..classes])? < classes {
        return last(out, b"a frame is cut short\n");
    }
    let parts = Parts {
        name,
        text,
        classes,
    };
    call(out, n, parts, bytes, records, payload)
}

// All frames, one after another. A loop has to end, and nothing says that standard input does: it takes as many turns as no input uses
// up.
fn answer_all<R: Read, W: Write>(
    input: &mut R,
    out: &mut W,
    bytes: &mut [u8],
    records: &mut [u32],
    payload: &mut [u8],
) -> io::Result<()> {
    let mut parts = Parts {
        name: 0,
        text: 0,
        classes: 0,
    };
    for _ in 0..u64::MAX {
        let Some(after) = answer_next(input, out, parts, bytes, records, payload)? else {
            break;
        };
        parts = after;
    }
    Ok(())
}

fn main(rt: HostRuntime) -> io::Result<()> {
    let mut bytes = parts_buffer();
    let mut records = record_buffer();
    let mut payload = payload_buffer();
    let mut input = rt.reader();
    answer_all(
        &mut input,
        &mut io::writer(&rt),
        &mut bytes,
        &mut records,
        &mut payload,
    )
}
