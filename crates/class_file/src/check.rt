// The class check: a file's length, its layout, and that the ranges of each class ascend.
ghost use Rattle.std.specs.Prelude.{◌≡◌, true, ◌+◌, ◌≤◌, ◌<◌, length, drop, map};
ghost use Rattle.definition.specs.Answers.{check_said};
ghost use Rattle.definition.specs.ClassFile.{little_endian, class_count, class_start, ranges_of, laid_out, ascending, ranges_right, class_check};
ghost use Rattle.class_file.specs.Search.{range_at};

use definition::answers::ClassRefusal;

// A class is named by its place in the header, from 0, as the definition's `class_count` and `ranges_right` count them: an enum
// in its place would be turned back into that number wherever it is used.
const CLASSES: usize = 6;

// The length of the header: a count and an offset for each class, of 4 bytes each.
const HEADER: usize = 48;

const LONGEST_FILE: usize = 65536;

const LAST_CODE_POINT: u32 = 1114111;

// The number that the four bytes from `at` on spell, the least first.
pub fn number_at(file: &[u8], at: usize) -> u32
    requires { at + 4 ≤ length file.now }
    ensures { result ≡ little_endian (drop at file.now) }
{
    u32::from_le_bytes([file[at], file[at + 1], file[at + 2], file[at + 3]])
}

// How many ranges class k has.
pub fn class_count(file: &[u8], k: usize) -> usize
    requires { (laid_out file.now ≡ true) × (k < 6) }
    ensures { result ≡ class_count file.now k }
{
    number_at(file, 8 * k) as usize
}

// Where the ranges of class k begin.
pub fn class_start(file: &[u8], k: usize) -> usize
    requires { (laid_out file.now ≡ true) × (k < 6) }
    ensures { result ≡ class_start file.now k }
{
    number_at(file, 8 * k + 4) as usize
}

// The ranges of class k, eight bytes each.
pub(crate) fn class_ranges(file: &[u8], k: usize) -> &[[u8; 8]]
    requires { (laid_out file.now ≡ true) × (k < 6) }
    ensures { map range_at result.now ≡ ranges_of file.now k }
{
    let start = class_start(file, k);
    let (ranges, _) = file[start..start + 8 * class_count(file, k)].as_chunks();
    ranges
}

// The first and the last code point of a range.
pub(crate) fn range_ends(range: &[u8; 8]) -> (u32, u32)
    ensures { result ≡ range_at range.now }
{
    (number_at(range, 0), number_at(range, 4))
}

// Each class begins where the one before it ends, and the file ends after the last. A place is below 48 + 6 * 2^35.
fn laid_out(file: &[u8]) -> bool
    requires { 48 ≤ length file.now }
    ensures { result ≡ laid_out file.now }
{
    let mut place = HEADER as u64;
    for k in 0..CLASSES {
        if u64::from(number_at(file, 8 * k + 4)) != place {
            return false;
        }
        place += 8 * u64::from(number_at(file, 8 * k));
    }
    file.len() as u64 == place
}

// The ranges of class k ascend and never overlap; `least` is the first code point that the next range may begin with.
fn class_ascends(file: &[u8], k: usize) -> bool
    requires { (laid_out file.now ≡ true) × (k < 6) }
    ensures { result ≡ ascending 0 (ranges_of file.now k) }
{
    let mut least = 0;
    for range in class_ranges(file, k) {
        let (first, last) = range_ends(range);
        if first < least || last < first || LAST_CODE_POINT < last {
            return false;
        }
        least = last + 1;
    }
    true
}

// The ranges of every class ascend.
fn ranges_right(file: &[u8]) -> bool
    requires { laid_out file.now ≡ true }
    ensures { result ≡ ranges_right file.now 6 }
{
    for k in 0..CLASSES {
        if !class_ascends(file, k) {
            return false;
        }
    }
    true
}

// Whether the file's classes can be read (module `members`), or why not.
pub fn class_check(file: &[u8]) -> Result<(), ClassRefusal>
    ensures { check_said result ≡ class_check file.now }
{
    if file.len() < HEADER {
        return Err(ClassRefusal::Length);
    }
    if LONGEST_FILE < file.len() {
        return Err(ClassRefusal::Length);
    }
    if !laid_out(file) {
        return Err(ClassRefusal::Layout);
    }
    if !ranges_right(file) {
        return Err(ClassRefusal::Ranges);
    }
    Ok(())
}
