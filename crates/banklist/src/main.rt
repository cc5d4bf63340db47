// Lists the bank in the first 65,536 bytes of standard input: 01, 'Bench cases'.
#![tactic(auto)]

mod lines;
mod listing;

use bank::Partition;
use listing::{OUT, listing};

// Two programs, banklist and bankcause: what they share is `streams::run`.
fn main(rt: HostRuntime) {
    streams::run(
        &rt,
        "banklist",
        "usage: banklist <BANK\nlists the bank in the first 65,536 bytes of standard input\n",
        &mut [0; Partition::SIZE],
        &mut [0; OUT],
        listing,
    );
}
