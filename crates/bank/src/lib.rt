// The v3 bank: its header and records, read from 65,536 bytes and written back.
#![tactic(auto)]

mod header;
mod number;
mod partition;
mod variable;

pub use header::{HeaderFault, StoreHeader};
pub use number::u32_at;
pub use partition::{Partition, Slot, Stop, Walked, read_records};
pub use variable::{VarHeader, VarType, Variable};
