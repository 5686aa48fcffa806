// The decimal digits of a number.
// Proved: the digits and their number are what the definition's `show` says; the writer changes nothing after the digits
// that it writes.
// Assumed: of `show_into` that the digits fit.
ghost use Rattle.std.specs.Prelude.{◌≡◌, ◌≤◌, length};
ghost use Rattle.definition.specs.Numbers.{show};
ghost use Rattle.lemmas.specs.Over.{Wrote};

// How many digits the source's `show` gives. It goes by what is left of the number and counts no index; the library's `ilog10`
// would have to leave out 0, which has a digit too.
pub fn show_length(n: u32) -> usize
    ensures { result ≡ length (show n) }
{
    let mut left = n;
    let mut count: usize = 1;
    while 10 <= left {
        left /= 10;
        count += 1;
    }
    count
}

// Writes the digits of `show` to the front of the buffer, from the last to the first, and says how many they are.
pub fn show_into(n: u32, out: &mut [u8]) -> usize
    requires { length (show n) ≤ length out.old }
    ensures { Wrote (show n) out.old out.new result }
{
    let count = show_length(n);
    let mut left = n;
    for at in (1..count).rev() {
        out[at] = b'0' + (left % 10) as u8;
        left /= 10;
    }
    out[0] = b'0' + left as u8;
    count
}
