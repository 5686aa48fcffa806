// Membership in a class of a file that the class check accepted, by binary search.
//
// Proved: each function's answer is what the definition gives, for any class file that `class_check` accepts: the tests by
// the definition's functions of their names, the search by the ranges of the class (specs/Search.antt). It halves the
// ranges at each step, and ends as soon as one of them holds the code point. The built-in table (crate `lowercase`) is
// searched by it too.
// Assumed: nothing but what each function's `requires` says.
ghost use Rattle.std.specs.Prelude.{◌≡◌, ◌<◌, true, map, get_or};
ghost use Rattle.definition.specs.ClassFile.{Range, class_check, ranges_of, ascending, in_ranges, is_lu, is_lt, is_lo, is_lm, is_zs, is_sm};
ghost use Rattle.class_file.specs.Search.{range_at, range_of, side};

use crate::check::{class_ranges, range_ends};
use std::cmp::Ordering;

// A range as it is stored: eight bytes of a class file, or two numbers of a table.
pub trait Stored {
    ghost range: { Self → Range };

    // Its first and its last code point.
    fn ends(&self) -> (u32, u32)
        ensures { result ≡ range self.now };
}

impl Stored for [u8; 8] {
    ghost range = { range_at };

    fn ends(&self) -> (u32, u32) {
        range_ends(self)
    }
}

impl Stored for [u32; 2] {
    ghost range = { λ l. (get_or l 0 0, get_or l 1 0) };

    fn ends(&self) -> (u32, u32) {
        (self[0], self[1])
    }
}

// Where a range stands to c: after it, before it or around it.
pub fn side(range: (u32, u32), c: u32) -> Ordering
    ensures { result ≡ side range c }
{
    let (first, last) = range;
    if c < first {
        Ordering::Greater
    } else if last < c {
        Ordering::Less
    } else {
        Ordering::Equal
    }
}

// The number of the range that holds c. The ranges are halved until one does, or none is left. By two `if`s and no `match`, since
// the compiled loop then branches on the two comparisons of `side`, with no `Ordering` between.
pub fn search<R: Stored>(ranges: &[R], c: u32) -> Option<usize>
    requires { ascending 0 (map R.range ranges.now) ≡ true }
    ensures { result ≡ range_of (map R.range ranges.now) c }
{
    let mut low = 0;
    let mut high = ranges.len();
    while low < high {
        let mid = low + (high - low) / 2;
        let place = side(ranges[mid].ends(), c);
        if place.is_gt() {
            high = mid;
        } else if place.is_lt() {
            low = mid + 1;
        } else {
            return Some(mid);
        }
    }
    None
}

// The number of the range of class k that holds c.
pub fn find_range(file: &[u8], k: usize, c: u32) -> Option<usize>
    requires { (class_check file.now ≡ 0) × (k < 6) }
    ensures { result ≡ range_of (ranges_of file.now k) c }
{
    search(class_ranges(file, k), c)
}

// Whether a range of class k holds c.
pub fn in_class(file: &[u8], k: usize, c: u32) -> bool
    requires { (class_check file.now ≡ 0) × (k < 6) }
    ensures { result ≡ in_ranges (ranges_of file.now k) c }
{
    find_range(file, k, c).is_some()
}

// The six classes, in the file's order: the source's functions by name, a line each. One function over an enum of classes would need
// a definition of its own that says which of the source's tests each case is.

#[tactic(auto, unfolding(definition::specs::ClassFile::is_lu))]
pub fn is_lu(file: &[u8], c: u32) -> bool
    requires { class_check file.now ≡ 0 }
    ensures { result ≡ is_lu file.now c }
{
    in_class(file, 0, c)
}

#[tactic(auto, unfolding(definition::specs::ClassFile::is_lt))]
pub fn is_lt(file: &[u8], c: u32) -> bool
    requires { class_check file.now ≡ 0 }
    ensures { result ≡ is_lt file.now c }
{
    in_class(file, 1, c)
}

#[tactic(auto, unfolding(definition::specs::ClassFile::is_lo))]
pub fn is_lo(file: &[u8], c: u32) -> bool
    requires { class_check file.now ≡ 0 }
    ensures { result ≡ is_lo file.now c }
{
    in_class(file, 2, c)
}

#[tactic(auto, unfolding(definition::specs::ClassFile::is_lm))]
pub fn is_lm(file: &[u8], c: u32) -> bool
    requires { class_check file.now ≡ 0 }
    ensures { result ≡ is_lm file.now c }
{
    in_class(file, 3, c)
}

#[tactic(auto, unfolding(definition::specs::ClassFile::is_zs))]
pub fn is_zs(file: &[u8], c: u32) -> bool
    requires { class_check file.now ≡ 0 }
    ensures { result ≡ is_zs file.now c }
{
    in_class(file, 4, c)
}

#[tactic(auto, unfolding(definition::specs::ClassFile::is_sm))]
pub fn is_sm(file: &[u8], c: u32) -> bool
    requires { class_check file.now ≡ 0 }
    ensures { result ≡ is_sm file.now c }
{
    in_class(file, 5, c)
}
