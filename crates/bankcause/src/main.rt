// Says why reading the bank in the first 65,536 bytes of standard input stopped: request N2.
#![tactic(auto)]

mod line;

use bank::Partition;
use line::{OUT, cause_line};

// Two programs, banklist and bankcause: what they share is `streams::run`.
fn main(rt: HostRuntime) {
    streams::run(
        &rt,
        "bankcause",
        "usage: bankcause <BANK\nsays why reading the bank in the first 65,536 bytes of standard input stopped\n",
        &mut [0; Partition::SIZE],
        &mut [0; OUT],
        cause_line,
    );
}
