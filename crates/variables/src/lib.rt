// Inserts, removes and lookups: 01, 'Edits and lookups'.
#![tactic(auto)]

mod edit;
mod lookup;

pub use edit::{Manner, insert_variable, remove_variable};
pub use lookup::{get_variable, value};
