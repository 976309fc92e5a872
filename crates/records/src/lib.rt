// What the replays of stored vectors share: records read from a file, a record's words as numbers and lists, and the lists that are lent to
// a call. The files are described in oracle/README.md, "Stored vectors". Nothing is asked of a caller: what is not there is a fault.
#![tactic(auto)]

pub mod file;
pub mod floats;
pub mod lists;
pub mod record;

pub use record::{Fault, Record};
