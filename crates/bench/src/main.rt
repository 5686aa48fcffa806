// Runs the lexer over standard input as many times as the first argument says, once where there is none, and writes how
// many items one whole run gives, or `REFUSED with number` and the number; after it a number of the records and a byte of the payload, which
// ones the count decides. Any of them may be read so: the compiler leaves out the writing of what nobody reads, and a lexer
// that writes no records would be timed. With 16 as the second argument the runs are those whose positions count UTF-16 units. With 8
// it only checks the text's UTF-8 so many times, and writes how many of its first bytes are legal: bench/measure sets that time
// beside the lexer's. The classes are those of the file classes.bin in the working directory; a missing one counts as empty.
// Proved: it ends and breaks nothing, and what it runs is `lexer::run` or `lexer::utf16::run` (crate `either_run`).
// Assumed: nothing. What the system gives to read, and takes of what is written, no contract says; a read or a write that fails
// ends the program with its error.
#![tactic(auto)]

use definition::answers::{RunRefusal, Stop};
use either_run::Saved;
use inputs::{
    class_buffer, least, payload_buffer, read_classes, read_full, record_buffer, text_buffer,
};
use std::env::{Env, FillError};
use std::io;

// The second argument: the UTF-8 check, or the second run.
const CHECK: usize = 8;

const UTF16: usize = 16;

// How many items a run over the whole text gives, or what refuses it. It runs on after a full buffer. Each run writes an item at
// least, since every payload fits into an empty buffer, and there are no more items than bytes and the end.
fn whole_run(
    text: &[u8],
    classes: &[u8],
    start: Saved,
    records: &mut [u32],
    payload: &mut [u8],
) -> Result<u64, RunRefusal> {
    let mut state = start;
    let mut items: u64 = 0;
    for _ in 0..1048577usize {
        let ran = either_run::run(text, b"stdin", classes, state, records, payload)?;
        items = std::num::wrapping_add_u64(items, ran.count as u64);
        if ran.stop == Stop::End {
            return Ok(items);
        }
        state = ran.state;
    }
    Ok(items)
}

// As many whole runs as asked for; what the last one gave.
fn runs(
    rounds: usize,
    text: &[u8],
    classes: &[u8],
    start: Saved,
    records: &mut [u32],
    payload: &mut [u8],
) -> Result<u64, RunRefusal> {
    let mut last = Ok(0);
    for _ in 0..rounds {
        last = whole_run(text, classes, start, records, payload);
    }
    last
}

// The UTF-8 check as many times as asked for. Each takes as many bytes as the one before found legal (all of them, for a
// legal text), so that none can be left out as the same as the one before.
fn checks(rounds: usize, text: &[u8]) -> usize {
    let mut legal = text.len();
    for _ in 0..rounds {
        legal = least(legal, utf8::characters::first_bad(&text[..legal]));
    }
    legal
}

// The number that a word's first digits say; a million for one far above it.
fn number(word: &[u8]) -> usize {
    let mut n: usize = 0;
    for &b in word {
        if !b.is_ascii_digit() {
            return n;
        }
        if 100000 < n {
            return 1000000;
        }
        n = n * 10 + usize::from(b - b'0');
    }
    n
}

// The number that the argument k says, or `without` where there is none. One that is longer than any number asked for counts as 0.
fn argument(rt: &impl Env, k: usize, without: usize) -> usize {
    let mut word = [0u8; 20];
    match rt.arg(k, &mut word) {
        Ok(length) => number(&word[..length]),
        Err(FillError::NotPresent) => without,
        Err(FillError::TooLong) => 0,
    }
}

// The start of the run that the second argument asks for.
fn start(mode: usize) -> Saved {
    if mode == UTF16 {
        return Saved::Utf16(lexer::utf16::start(1, 0).unwrap());
    }
    Saved::Characters(lexer::start(1, 0).unwrap())
}

// Writes a number and a line end.
fn say(rt: &impl Print, n: u64) -> io::Result<()> {
    println!(rt; "{n}")
}

fn main(rt: HostRuntime) -> io::Result<()> {
    let mut text = text_buffer();
    let mut records = record_buffer();
    let mut payload = payload_buffer();
    let mut classes = class_buffer();
    let mut input = rt.reader();
    let length = read_full(&mut input, &mut text)?;
    let size = read_classes(&rt, &mut classes)?;
    let rounds = argument(&rt, 1, 1);
    let mode = argument(&rt, 2, 0);
    if mode == CHECK {
        return say(&rt, checks(rounds, &text[..length]) as u64);
    }
    let last = runs(
        rounds,
        &text[..length],
        &classes[..size],
        start(mode),
        &mut records,
        &mut payload,
    );
    let items = match last {
        Ok(items) => items,
        Err(refusal) => {
            // How long this message is decided where the code stood when it was measured: docs/PERFORMANCE.md, "Where the code stands".
            print!(rt; "REFUSED with number ")?;
            return say(&rt, refusal.number() as u64);
        }
    };
    say(&rt, items)?;
    // Both buffers have more than 1,048,576.
    let k = (items % 1048576) as usize;
    say(&rt, u64::from(records[k]))?;
    say(&rt, u64::from(payload[k]))
}
