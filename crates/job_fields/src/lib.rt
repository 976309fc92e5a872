// The fields of a job: the fixed table of their kinds, and the first pass over them, which judges the whole file and writes nothing.
// Both passes meet the fields by one reader, which holds the job's bytes and the offset at which it stands.
#![tactic(auto)]

pub mod judge;
pub mod mode;
pub mod reader;
pub mod table;
