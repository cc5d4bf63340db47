// The log of winding runs.
ghost use Rattle.std.specs.Prelude.{◌≡◌, [], ◌∷◌, length};
ghost use Rattle.refusal.specs.Refusal.{number_of};
ghost use Rattle.run_log.specs.Output.{count_of};
ghost use Rattle.run_log.specs.RunLog.{reading, writing};
ghost use Rattle.exports.specs.Numbers.{Counts, IsLog};

use refusal::{Refusal, number_of};

// Puts how many a call counts, 0 where it refuses, and answers its number.
fn count(answer: Result<usize, Refusal>, out: &mut [u64; 1]) -> u32
    ensures { (result ≡ number_of answer) × (out.new ≡ count_of answer ∷ []) }
{
    *out = [answer.unwrap_or(0) as u64];
    number_of(answer)
}

// The entries of a log, and how many there are.
#[unsafe(no_mangle)]
pub extern "C" fn feqyondil_run_log_read(log: &[u8], entries: &mut [u32], out: &mut [u64; 1]) -> u32
    ensures counts { Counts 3 (reading log.now (length entries.old)) entries.old result out.new entries.new }
    ensures log { IsLog log.now result out.new entries.new }
{
    let read = run_log::read(log, entries);
    count(read, out)
}

// The log of entries, and how many bytes it takes.
#[unsafe(no_mangle)]
pub extern "C" fn feqyondil_run_log_write(
    entries: &[u32],
    log: &mut [u8],
    out: &mut [u64; 1],
) -> u32
    ensures { Counts 1 (writing entries.now (length log.old)) log.old result out.new log.new }
{
    let written = run_log::write(entries, log);
    count(written, out)
}
