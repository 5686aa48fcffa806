// The bytes of a character in UTF-8.
// Proved: the bytes and their number are what the definition's `encode` says; the writer changes nothing after the bytes
// that it writes.
// Assumed: of `encode_into` that the number is at most 10FFFF and that its bytes fit.
ghost use Rattle.std.specs.Prelude.{◌≡◌, length};
ghost use Rattle.definition.specs.Utf8.{encode};
ghost use Rattle.lemmas.specs.Over.{Wrote};
ghost use Rattle.utf8.specs.Asks.{Encodes};

// How many bytes a character has in UTF-8.
#[tactic(auto, unfolding(definition::specs::Utf8::encode), using(lemmas::proofs::Cases::all_tests))]
pub fn encode_length(c: u32) -> usize
    ensures { result ≡ length (encode c) }
{
    match c {
        0..=0x7F => 1,
        0x80..=0x7FF => 2,
        0x800..=0xFFFF => 3,
        _ => 4,
    }
}

// Writes the bytes of a character to the front of the buffer, and says how many they are.
pub fn encode_into(c: u32, out: &mut [u8]) -> usize
    requires { Encodes c out.old }
    ensures { Wrote (encode c) out.old out.new result }
{
    if c < 0x80 {
        out[0] = c as u8;
        return 1;
    }
    if c < 0x800 {
        out[0] = (0xC0 + c / 64) as u8;
        out[1] = (0x80 + c % 64) as u8;
        return 2;
    }
    if c < 0x10000 {
        out[0] = (0xE0 + c / 4096) as u8;
        out[1] = (0x80 + c / 64 % 64) as u8;
        out[2] = (0x80 + c % 64) as u8;
        return 3;
    }
    out[0] = (0xF0 + c / 262144) as u8;
    out[1] = (0x80 + c / 4096 % 64) as u8;
    out[2] = (0x80 + c / 64 % 64) as u8;
    out[3] = (0x80 + c % 64) as u8;
    4
}
