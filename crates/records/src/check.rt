// Whether records are as they would be written: the walk of the check for refusal 6 (01, 'Refusals from the state'), which adds up what they
// come to where a commit or the figures ask (02, N3).
ghost use Rattle.std.specs.Prelude.{◌≡◌, ◌≤◌, length, option_map};
ghost use Rattle.records.specs.View.{view_records};
ghost use Rattle.records.specs.Figures.{records_figures};
ghost use Rattle.records.specs.Records.{next_after};

use super::figures::Figures;
use bank::{VarHeader, Variable};
use crc32::Tables;

// Where the record at a place of s ends, if one stands there as it would be written; t has the checksum's tables. A place, as the answer is one.
fn next_record(t: &Tables, s: &[u8], at: usize) -> Option<usize>
    requires { at ≤ length s.now }
    ensures { result ≡ next_after at s.now }
{
    let rest = &s[at..];
    if rest.len() < Variable::HEADER_SIZE {
        return None;
    }
    // Start number and reserved byte in one test.
    if u32::from_le_bytes([rest[0], rest[1], 0, rest[3]]) != Variable::DATA as u32 {
        return None;
    }
    let header = VarHeader::parse(rest);
    if header.name_size < 1 {
        return None;
    }
    let value = at + Variable::size(header.name_size, 0);
    let end = value + header.data_size as usize;
    if s.len() < end {
        return None;
    }
    if s[value - 1] != 0 {
        return None;
    }
    let sum = t.crc32(&s[value..end]);
    // Read after the sum: before, it would be put on the stack and taken from there for the test.
    let stored = VarHeader::parse(rest);
    if stored.crc == sum { Some(end) } else { None }
}

// What such records come to, if s is made of them to its last byte; nothing is counted unless that is asked for. By hand, from each record's end; a
// flag, since a counter handed in would be a closure with clauses of its own for an addition.
// Not inlined: beside the check of a slot the walk lacks registers, 6 % slower with short values.
#[inline(never)]
pub fn check_records(t: &Tables, s: &[u8], counting: bool) -> Option<Figures>
    ensures { result ≡ option_map (records_figures counting) (view_records s.now) }
{
    let mut used = Figures::none();
    let mut at: usize = 0;
    while at < s.len() {
        // No `?`: by it the next place waits for this record's sum, a third slower with short values.
        let Some(end) = next_record(t, s, at) else {
            return None;
        };
        used = used.add(counting, &s[at..], end - at);
        at = end;
    }
    Some(used)
}
