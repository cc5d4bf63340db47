// The writer: threes, entries, the log's size, the output.
ghost use Rattle.std.specs.Prelude.{◌≡◌, length};
ghost use Rattle.run_log.specs.Output.{Answered};
ghost use Rattle.run_log.specs.RunLog.{falls as falls_from, writing};

use super::MOST;
use leb128::{encode, encode_all, encoded_len, encoded_len_all};
use refusal::Refusal;

// Whether a start is below the one before.
fn falls(ns: &[u32]) -> bool
    ensures { result ≡ falls_from 0 ns.now }
{
    let (entries, _) = ns.as_chunks::<3>();
    let mut last = 0;
    for &[start, _, _] in entries {
        if start < last {
            return true;
        }
        last = start;
    }
    false
}

// The log of entries, three numbers in a row for each, and how many bytes it takes.
pub fn write(ns: &[u32], out: &mut [u8]) -> Result<usize, Refusal>
    ensures { Answered 1 (writing ns.now (length out.old)) out.old result out.new }
{
    if ns.len() % 3 != 0 {
        return Err(Refusal::LogLength);
    }
    if falls(ns) {
        return Err(Refusal::LogOrder);
    }
    if MOST < ns.len() {
        return Err(Refusal::LogLength);
    }
    let count = (ns.len() / 3) as u32;
    let size = encoded_len(count) + encoded_len_all(ns);
    if MOST < size {
        return Err(Refusal::LogLength);
    }
    if out.len() < size {
        return Err(Refusal::LogLength);
    }
    let at = encode(count, out, 0);
    encode_all(ns, out, at);
    Ok(size)
}
