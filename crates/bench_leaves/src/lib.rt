// What the benchmark links: the leaves as C functions, thin, a slice passed as its address and its count.
#![tactic(auto)]

pub mod bits;
pub mod slide;
pub mod sort;
