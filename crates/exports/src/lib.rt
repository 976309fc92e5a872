// The outward calls for Rust and C: a slice is passed as its address and its count, and an answer comes back as a C struct whose fields are
// the number, the place and the values that the rules tell of it, since C has no type for one of several cases. Each call is that of its own
// crate, with its parameters; nothing is computed here.
#![tactic(auto)]

mod finders;
mod scripts;
mod sweeps;
