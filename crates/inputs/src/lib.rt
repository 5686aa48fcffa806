// What the programs read, what they read it into, and what they lend to a run: files, and buffers, those for a text, a name or a
// class file with one byte more than these may have, so that a longer one is refused and not cut.
// Proved: each function is safe and ends; the buffers are as long as they are said to be; no more bytes are counted
// as read than a buffer has, and of a reader whose bytes are known they are its first, up to the buffer's length or the input's end.
// Assumed: nothing. What the system gives to read no contract says; a read that fails is an error, and never the end.
#![tactic(auto)]

ghost use Rattle.std.specs.Prelude.{◌≡◌, ℕ, min, ◌*◌, ◌<◌, List, length, take, Option, Ok, IfOk, OnErr};
ghost use Rattle.std.specs.Io.{ReadsAtMost};
ghost use Rattle.std.specs.Io.KnownBytes.{Consumes, IsAtEnd};
ghost use Rattle.definition.specs.Item.{record_size};

use definition::RECORD;
use std::fs::Files;
use std::io::Read;
use std::{fs, io};

// The bytes of a text.
pub const TEXT: usize = 1048577;

// The bytes of a text of which no more than 60,000 are taken.
pub const SHORT_TEXT: usize = 65536;

// The bytes of a class file.
pub const CLASSES: usize = 65537;

// The bytes of a file's name, a text and a class file one after the other.
pub const PARTS: usize = 1118211;

// The numbers of the records of 65,536 items.
pub const RECORDS: usize = 65536 * RECORD;

// More bytes than the longest payload has, that of a text that is one comment that is never closed.
pub const PAYLOAD: usize = 1052672;

// A buffer of N elements, each of which is `fill`. A large array is made in a function of its own: written where it is used, its
// length would be computed, and take the checker's stack.
pub fn buffer<T: Copy, const N: usize>(fill: T) -> [T; N]
    ensures { N ≡ length result }
{
    [fill; N]
}

// The buffers that the programs read into and lend, each with its length as a number: what a text, a class file or a frame needs hangs on
// it.

pub fn text_buffer() -> [u8; TEXT]
    ensures { 1048577 ≡ length result }
{
    buffer(0)
}

pub fn short_text_buffer() -> [u8; SHORT_TEXT]
    ensures { 65536 ≡ length result }
{
    buffer(0)
}

pub fn class_buffer() -> [u8; CLASSES]
    ensures { 65537 ≡ length result }
{
    buffer(0)
}

pub fn parts_buffer() -> [u8; PARTS]
    ensures { 1118211 ≡ length result }
{
    buffer(0)
}

pub fn record_buffer() -> [u32; RECORDS]
    ensures { 65536 * record_size ≡ length result }
{
    buffer(0)
}

pub fn payload_buffer() -> [u8; PAYLOAD]
    ensures { 1052672 ≡ length result }
{
    buffer(0)
}

// Reads until the buffer is full or the input ends, and answers how many bytes came. The only error is the reader's own; the
// buffer then keeps its length.
pub fn read_full<R: Read>(reader: &mut R, bytes: &mut [u8]) -> io::Result<usize>
    ensures bound { ReadsAtMost result bytes.new }
    ensures bytes { IfOk result (λ n. Consumes (R.remaining reader.old) (R.remaining reader.new) (take n bytes.new)) }
    ensures end { IfOk result (λ n. n < length bytes.new → IsAtEnd (R.remaining reader.new)) }
    ensures err { OnErr result (length bytes.new ≡ length bytes.old) }
{
    let mut done = 0;
    while done < bytes.len() {
        let n = reader.read(&mut bytes[done..])?;
        if n == 0 {
            break;
        }
        done += n;
    }
    Ok(done)
}

// Reads a file that was opened, closes it, and answers how many bytes came; none where it couldn't be opened. The only error
// is that of a read; the buffer then keeps its length.
pub fn read_opened<F: Read + Drop>(opened: io::Result<F>, bytes: &mut [u8]) -> io::Result<usize>
    ensures bound { ReadsAtMost result bytes.new }
    ensures missing { OnErr opened (result ≡ Ok 0) }
    ensures bytes { IfOk opened (λ file. IfOk result (λ n. (left : Option (List ℕ)) × Consumes (F.remaining file) left (take n bytes.new) × (n < length bytes.new → IsAtEnd left))) }
    ensures err { OnErr result (length bytes.new ≡ length bytes.old) }
{
    match opened {
        Ok(mut file) => read_full(&mut file, bytes),
        Err(_) => Ok(0),
    }
}

// Reads the class file of the working directory; a missing one counts as a file of no bytes. The only error is that of a read;
// the buffer then keeps its length.
pub fn read_classes<R: Files>(rt: &R, file: &mut [u8]) -> io::Result<usize>
    ensures bound { ReadsAtMost result file.new }
    ensures err { OnErr result (length file.new ≡ length file.old) }
{
    read_opened(fs::open(rt, "classes.bin"), file)
}

// The lesser of two numbers: a public function, which stays, by the library's `min`.
pub fn least(a: usize, b: usize) -> usize
    ensures { result ≡ min a b }
{
    a.min(b)
}
