// The log of winding runs, read and written: 02, N6. It knows nothing of the store, whose value it is.
#![tactic(auto)]

mod reader;
mod writer;

pub use reader::{LogEntry, read, read_entry, validate};
pub use writer::write;

// The size that a log has at most.
const MOST: usize = 4096;
