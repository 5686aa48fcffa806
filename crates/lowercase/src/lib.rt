// The built-in lowercase letters: a constant table of the source's ranges, searched by halves where the letters of a code
// point's block are not told by bits. Proved: the table is the one that the source's text spells, what is told of a block are
// the letters that the table has in it, and a code point is found exactly where one of its ranges holds it.
// Assumed: nothing.
#![tactic(auto)]

mod blocks; // blocks.rt: the letters of some blocks of code points
mod ll_table; // ll_table.rt: the ranges

ghost use Rattle.std.specs.Prelude.{◌≡◌};
ghost use Rattle.definition.specs.Lowercase.{ll_tbl, is_ll};
ghost use Rattle.class_file.specs.Search.{range_of};

use crate::blocks::block_letters;
use crate::ll_table::LL;
use class_file::members::search;

// The range of the table that holds c.
pub fn find_ll(c: u32) -> Option<usize>
    ensures { result ≡ range_of ll_tbl c }
{
    let (ranges, _) = LL.as_chunks::<2>();
    search(ranges, c)
}

// Whether c is a letter: where its block tells, the table is not searched.
pub fn is_ll(c: u32) -> bool
    ensures { result ≡ is_ll c }
{
    let Some(letters) = block_letters(c / 64) else {
        return find_ll(c).is_some();
    };
    (letters >> (c % 64)) % 2 == 1
}
