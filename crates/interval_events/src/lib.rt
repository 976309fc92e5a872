// The events of a part of the intervals, and the spans between them, for one range of an interval sweep.
#![tactic(auto)]

pub mod events;
pub mod intervals;
pub mod spans;
