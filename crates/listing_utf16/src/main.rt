// The listing with an editor's positions (document 02, K2): the lines of document 01's listing program (crate `listing_rounds`), but lines
// count from 0, and columns count UTF-16 units.
//
// Proved: what that crate says, of the second run. What it writes for a text with characters above U+FFFF is compared with the file stdout.
#![tactic(auto)]

use either_run::Saved;
use std::io;

fn main(rt: HostRuntime) -> io::Result<()> {
    let state = lexer::utf16::start(1, 0).unwrap();
    listing_rounds::list_input(&rt, Saved::Utf16(state))
}
