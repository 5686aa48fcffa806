// The lines that say what a call answered and left in its buffers.
// Proved: each function is safe and ends. Assumed: nothing. The only errors are the writer's own.
ghost use Rattle.std.specs.Prelude.{◌≡◌, ◌*◌, ◌≤◌, length, take};
ghost use Rattle.definition.specs.Item.{record_size};

use definition::RECORD;
use std::io;
use std::io::Write;

pub const FILL_NUMBER: u32 = 4294967295;

pub const FILL_BYTE: u8 = 255;

pub fn say<W: Write>(out: &mut W, line: &[u8]) -> io::Result<()> {
    out.write_all(line)
}

// Writes a blank and a number for each, and says how many bytes that took.
fn numbers_into(numbers: &[u32], out: &mut [u8]) -> usize
    requires { 11 * length numbers.now ≤ length out.old }
    ensures { (result ≤ length out.new) × (result ≡ length (take result out.new)) }
{
    let mut end = 0;
    for &n in numbers {
        end += listing_lines::number_into(n, &mut out[end..]);
    }
    end
}

// Prints a blank and a number for each, as many at most as a record has.
pub fn print_numbers<W: Write>(out: &mut W, numbers: &[u32]) -> io::Result<()>
    requires { length numbers.now ≤ record_size }
{
    let mut row = [0u8; 11 * RECORD];
    let end = numbers_into(numbers, &mut row);
    say(out, &row[..end])
}

// How many elements there are up to the last that isn't the fill. (Counted down: an `rposition` with a `map_or` would say no more.)
fn used<T: Copy + PartialEq>(elements: &[T], fill: T) -> usize
    ensures { result ≤ length elements.now }
{
    let mut end = elements.len();
    while 0 < end && elements[end - 1] == fill {
        end -= 1;
    }
    end
}

// Prints the record numbers, a record to a line.
pub fn print_records<W: Write>(out: &mut W, records: &[u32]) -> io::Result<()> {
    for record in records[..used(records, FILL_NUMBER)].chunks(RECORD) {
        say(out, b"record")?;
        print_numbers(out, record)?;
        say(out, b"\n")?;
    }
    Ok(())
}

// Prints the payload bytes on one line.
pub fn print_payload<W: Write>(out: &mut W, payload: &[u8]) -> io::Result<()> {
    let end = used(payload, FILL_BYTE);
    say(out, b"payload ")?;
    for byte in &payload[..end] {
        write!(out, "{byte:02x}")?;
    }
    say(out, b"\n")
}
