// The letters of a block of 64 code points, a bit for each, for the blocks in which most texts are written: the bits are a
// shortcut, which saves the search of the table of ranges.
ghost use Rattle.lowercase.specs.Blocks.{Tells};

// The blocks of some scripts that have no small letters, of punctuation, and of mathematical operators.
#[tactic(auto, using(crate::proofs::WithoutLetters::empty_23, crate::proofs::WithoutLetters::empty_128, crate::proofs::WithoutLetters::empty_135, crate::proofs::WithoutLetters::empty_181, crate::proofs::WithoutLetters::empty_687))]
fn without_letters(k: u32) -> Option<u64>
    ensures { Tells k result }
{
    match k {
        23..=66 => Some(0),
        128..=131 => Some(0),
        135..=175 => Some(0),
        181..=664 => Some(0),
        687..=1003 => Some(0),
        _ => None,
    }
}

// What is told of the code points from 64 * k on. The arms up to 22 are Latin, Greek, Cyrillic and Armenian, those from 132 on
// letterlike symbols, number forms and arrows.
pub fn block_letters(k: u32) -> Option<u64>
    ensures { Tells k result }
{
    match k {
        0 => Some(0),
        1 => Some(0x07fffffe00000000),
        2 => Some(0x0020000000000000),
        3 => Some(0xff7fffff80000000),
        4 => Some(0x55aaaaaaaaaaaaaa),
        5 => Some(0xd4aaaaaaaaaaab55),
        6 => Some(0xe6512d2a4e243129),
        7 => Some(0xaa29aaaab5555240),
        8 => Some(0x93faaaaaaaaaaaaa),
        9 => Some(0xffffffffffffaa85),
        10 => Some(0x0000ffffffcfffff),
        11 => Some(0),
        12 => Some(0),
        13 => Some(0x388a000000000000),
        14 => Some(0xfffff00000010000),
        15 => Some(0x192faaaaaae37fff),
        16 => Some(0xffff000000000000),
        17 => Some(0xaaaaaaaaffffffff),
        18 => Some(0xaaaaaaaaaaaaa802),
        19 => Some(0xaaaaaaaaaaaad554),
        20 => Some(0x0000aaaaaaaaaaaa),
        21 => Some(0xffffffff00000000),
        22 => Some(0x00000000000001ff),
        132 => Some(0x321080000008c400),
        133 => Some(0x00000000000043c0),
        134 => Some(0x0000000000000010),
        _ => without_letters(k),
    }
}
