// Document 01's listing program: a line for each item of standard input, and then END and the count of items; or REFUSED and the number of
// what refuses the text (crate `listing_rounds`). The start is 1:0; lines count from 1, and columns count characters from 0.
//
// Proved: what that crate says. What it writes for document 01's text is compared with the file stdout.
#![tactic(auto)]

use either_run::Saved;
use std::io;

fn main(rt: HostRuntime) -> io::Result<()> {
    let state = lexer::start(1, 0).unwrap();
    listing_rounds::list_input(&rt, Saved::Characters(state))
}
