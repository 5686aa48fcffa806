// Decoding: which UTF-8 sequence stands at an offset of a text.
// Proved: `sequence_in_place` and `sequence_at` are the definition's `sequence_at`, at any bytes and any offset, so no caller owes
// anything. proofs/Laws.antt has the laws of reading a text: decoding against encoding, legal texts, boundaries.
// Assumed: nothing.
#![tactic(auto)]

pub mod characters; // characters.rt: `byte`, and the UTF-8 check
pub mod encoding; // encoding.rt: the bytes of a character

ghost use Rattle.std.specs.Prelude.{◌≡◌, ◌<◌, get_or};
ghost use Rattle.definition.specs.Utf8.{tail_bits, two, three, three_bytes, four, four_bytes, sequence_at};

use definition::Sequence;

// The six bits of a byte 80 to BF at i, which continues a sequence; 64 for any other, and past the end, as the definition's
// `tail_bits` has it.
#[tactic(auto, unfolding(definition::specs::Utf8::tail_bits), using(lemmas::proofs::Cases::tests))]
fn tail_bits_at(text: &[u8], i: usize) -> u32
    ensures { result ≡ tail_bits (get_or text.now i 0) }
{
    match text.get(i) {
        Some(byte @ 0x80..=0xBF) => u32::from(byte - 0x80),
        _ => 64,
    }
}

// A sequence of two bytes, from the bits of each.
#[tactic(auto, unfolding(definition::specs::Utf8::two), using(lemmas::proofs::Cases::tests))]
fn two(x: u32, y: u32) -> Sequence
    requires { x < 32 }
    ensures { result ≡ two x y }
{
    if y < 64 {
        return Sequence::Char(x * 64 + y, 2);
    }
    Sequence::Bad
}

// What three bytes with the bits of c are: no code point that fewer bytes have, and no surrogate. An arm for each range stays a branch;
// without branches the width is worked out from the bits, and the next character waits for it.
#[tactic(auto, unfolding(definition::specs::Utf8::three_bytes), using(lemmas::proofs::Cases::tests))]
fn three_bytes(c: u32) -> Sequence
    ensures { result ≡ three_bytes c }
{
    match c {
        0..=0x7FF => Sequence::Bad,
        0x800..=0xD7FF => Sequence::Char(c, 3),
        0xD800..=0xDFFF => Sequence::Bad,
        0xE000.. => Sequence::Char(c, 3),
    }
}

// A sequence of three bytes, from the bits of each.
#[tactic(auto, unfolding(definition::specs::Utf8::three), using(lemmas::proofs::Cases::tests))]
fn three(x: u32, y: u32, z: u32) -> Sequence
    requires { x < 16 }
    ensures { result ≡ three x y z }
{
    if 64 <= y || 64 <= z {
        return Sequence::Bad;
    }
    three_bytes(x * 4096 + y * 64 + z)
}

// What four bytes with the bits of c are: no code point that fewer bytes have, and none above 10FFFF.
#[tactic(auto, unfolding(definition::specs::Utf8::four_bytes), using(lemmas::proofs::Cases::tests))]
fn four_bytes(c: u32) -> Sequence
    ensures { result ≡ four_bytes c }
{
    match c {
        0x10000..=0x10FFFF => Sequence::Char(c, 4),
        _ => Sequence::Bad,
    }
}

// A sequence of four bytes, from the bits of each.
#[tactic(auto, unfolding(definition::specs::Utf8::four), using(lemmas::proofs::Cases::tests))]
fn four(x: u32, y: u32, z: u32, t: u32) -> Sequence
    requires { x < 8 }
    ensures { result ≡ four x y z t }
{
    if 64 <= y || 64 <= z || 64 <= t {
        return Sequence::Bad;
    }
    four_bytes(x * 262144 + y * 4096 + z * 64 + t)
}

// What stands at i: a character and its width, bytes that no legal sequence starts, or the end. In place at its call, for a loop over
// characters that has nothing else to do: it saves a call for each, and an answer that goes through memory.
#[inline(always)]
#[tactic(auto, unfolding(definition::specs::Utf8::sequence), using(lemmas::proofs::Cases::tests, crate::proofs::Reading::read_within, crate::proofs::Reading::read_end))]
pub fn sequence_in_place(text: &[u8], i: usize) -> Sequence
    ensures { result ≡ sequence_at text.now i }
{
    if text.len() <= i {
        return Sequence::End;
    }
    let first = text[i];
    if first < 0x80 {
        return Sequence::Char(first as u32, 1);
    }
    if first < 0xC2 {
        return Sequence::Bad;
    }
    let second = tail_bits_at(text, i + 1);
    if first < 0xE0 {
        return two((first - 0xC0) as u32, second);
    }
    let third = tail_bits_at(text, i + 2);
    if first < 0xF0 {
        return three((first - 0xE0) as u32, second, third);
    }
    if first < 0xF5 {
        let fourth = tail_bits_at(text, i + 3);
        return four((first - 0xF0) as u32, second, third, fourth);
    }
    Sequence::Bad
}

// The same as a function by itself, whose code stands once.
pub fn sequence_at(text: &[u8], i: usize) -> Sequence
    ensures { result ≡ sequence_at text.now i }
{
    sequence_in_place(text, i)
}
