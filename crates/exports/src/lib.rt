// Entry points for C and Rust. A slice crosses as a pointer and a length, an array as a pointer.
#![tactic(auto)]

mod causes;
mod checksum;
mod log;
mod partition;
mod rates;
mod same;
mod store;
mod tallies;
