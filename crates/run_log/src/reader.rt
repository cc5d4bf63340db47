// The reader: the log's size, the count and the entries from the front, what is left over, the output.
ghost use Rattle.std.specs.Prelude.{◌≡◌, length, ok_or};
ghost use Rattle.leb128.specs.Leb128.{decoded};
ghost use Rattle.refusal.specs.declared.Refusal.TheVariants.{LogNumber};
ghost use Rattle.run_log.specs.Output.{answer_of, Answered};
ghost use Rattle.run_log.specs.RunLog.{read_entry, read_entries, read_log, reading};

use super::MOST;
use leb128::{decode, decode_all, encoded_len};
use refusal::Refusal;

// A run's start minute, length in seconds and weight turns.
#[derive(Clone, Copy)]
pub struct LogEntry {
    pub start: u32,
    pub seconds: u32,
    pub turns: u32,
}

// The number in front of `s`, and how many bytes it takes.
fn number(s: &[u8]) -> Result<(u32, usize), Refusal>
    ensures { result ≡ ok_or (decoded s.now) LogNumber }
{
    decode(s).ok_or(Refusal::LogNumber)
}

// The entry in front of `s`, whose start is not to be below `last`, and how many bytes it takes.
pub fn read_entry(s: &[u8], last: u32) -> Result<(LogEntry, usize), Refusal>
    ensures { result ≡ read_entry last s.now }
{
    let (start, i) = number(s)?;
    if start < last {
        return Err(Refusal::LogOrder);
    }
    let (seconds, j) = number(&s[i..])?;
    let at = i + j;
    let (turns, k) = number(&s[at..])?;
    let entry = LogEntry {
        start,
        seconds,
        turns,
    };
    Ok((entry, at + k))
}

// Of so many entries, and what is left over behind them. The invariant counts by i.
fn validate_entries(s: &[u8], count: usize) -> Result<usize, Refusal>
    ensures { result ≡ answer_of 3 (read_entries count 0 s.now) }
{
    let mut last = 0;
    let mut rest = s;
    for i in 0..count {
        let (entry, size) = read_entry(rest, last)?;
        last = entry.start;
        rest = &rest[size..];
    }
    if !rest.is_empty() {
        return Err(Refusal::LogLength);
    }
    Ok(count)
}

// All that the reader judges but its output, and how many entries there are.
pub fn validate(s: &[u8]) -> Result<usize, Refusal>
    ensures { result ≡ answer_of 3 (read_log s.now) }
{
    if MOST < s.len() {
        return Err(Refusal::LogLength);
    }
    let (count, k) = number(s)?;
    validate_entries(&s[k..], count as usize)
}

// The entries of a log, three numbers in a row for each, and how many there are.
pub fn read(s: &[u8], out: &mut [u32]) -> Result<usize, Refusal>
    ensures { Answered 3 (reading s.now (length out.old)) out.old result out.new }
{
    let count = validate(s)?;
    let numbers = 3 * count;
    if out.len() < numbers {
        return Err(Refusal::LogLength);
    }
    let from = encoded_len(count as u32);
    decode_all(&s[from..], &mut out[..numbers]);
    Ok(count)
}
