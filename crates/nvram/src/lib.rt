// The state of a store beside its work area, and what every call on it asks first: 01, 'Opening', 'Refusals from the state'.
#![tactic(auto)]

mod ready;
mod sound;
mod state;
mod summary;

pub use sound::{check, is_sound};
pub use state::{Entry, Kind, Nvram, UnknownKind, no_banks, no_state};
pub use summary::Summary;
