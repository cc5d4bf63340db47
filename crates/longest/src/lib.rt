// The longest run of each full window of a log: 02, N9. It stands on the log's reader, and takes as long whatever the window is.
#![tactic(auto)]

mod ring;
mod slide;

ghost use Rattle.std.specs.Prelude.{length};
ghost use Rattle.run_log.specs.Output.{Answered};
ghost use Rattle.longest.specs.Longest.{sliding};

use leb128::encoded_len;
use refusal::Refusal;
use ring::ROOM;
use run_log::validate;
use slide::slide;

// Entries of a log at most.
const ENTRIES_MOST: usize = 1024;

// Two numbers for each full window: its largest length, and the index of its first entry that has it; and how many windows there are.
pub fn longest_runs(log: &[u8], window: u32, out: &mut [u32]) -> Result<usize, Refusal>
    ensures { Answered 2 (sliding window log.now (length out.old)) out.old result out.new }
{
    let window = window as usize;
    if window < 1 || ROOM < window {
        return Err(Refusal::LogWindow);
    }
    let count = validate(log)?;
    if ENTRIES_MOST < count {
        return Err(Refusal::LogWindow);
    }
    let windows = (count + 1).saturating_sub(window);
    if out.len() < 2 * windows {
        return Err(Refusal::LogWindow);
    }
    let from = encoded_len(count as u32);
    slide(&log[from..], count, window, out);
    Ok(windows)
}
