// The class file that is lent: the class check, and where an accepted file has its classes. (Which class a code point is in
// is the module `members`.)
//
// Proved: each function's answer is what the definition gives. `class_check` is so for any bytes, and in it no number
// wraps.
// Assumed: nothing but what each function's `requires` says.
#![tactic(auto)]

pub mod members; // members.rt: which class of an accepted class file a code point is in, by binary search
pub mod check; // check.rt: the class check
