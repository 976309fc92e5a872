// The candidate ranges of runs of neighbouring hits; and a range as both finders hold, join and write it.
#![tactic(auto)]

pub mod candidates;
pub mod runs;
