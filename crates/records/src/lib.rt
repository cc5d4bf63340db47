// The records of one bank in the work area: checked and counted, and edited.
#![tactic(auto)]

mod check;
mod edit;
mod figures;

pub use check::check_records;
pub use edit::{Found, append, delete_all, find};
pub use figures::Figures;
