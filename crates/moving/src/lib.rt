// The move of a bank to another part of the work area, or onto itself: 01, 'A commit, from the entry down'.
#![tactic(auto)]

ghost use Rattle.std.specs.Prelude.{◌≡◌, List, ◌+◌, ◌-◌, ◌≤◌, length, take, drop};
ghost use Rattle.buffers.specs.Bytes.{over};
ghost use Rattle.bank.specs.Record.{Record, live, sizes, records_bytes};
ghost use Rattle.bank.specs.Bank.{valid, part_of, bank_of};
ghost use Rattle.bank.specs.Totals.{select};
ghost use Rattle.records.specs.Records.{Holds};
ghost use Rattle.book.specs.Book.{part_size};
ghost use Rattle.moving.specs.Move.{ReadFirst, live_bytes, Movable};

use bank::{StoreHeader, VarHeader, Variable};
use nvram::Nvram;
use std::ops::Range;

// n bytes from one place of w to another, the lowest first. std's copy_within calls memmove, as copy_from_slice of parts does, and the library
// calls memcpy and memset alone.
fn copy(w: &mut [u8], from: usize, to: usize, n: usize)
    requires { (from + n ≤ length w.old) × (to + n ≤ length w.old) × ReadFirst to from (from + n) }
    ensures { w.new ≡ over to (take n (drop from w.old)) w.old }
{
    for i in 0..n {
        w[to + i] = w[from + i];
    }
}

// A record of n bytes, to another place if it is live; the place after what was put there.
fn copy_live(w: &mut [u8], at: usize, to: usize, n: usize) -> usize
    requires { (36 ≤ n) × (at + n ≤ length w.old) × (to + n ≤ length w.old) × ReadFirst to at (at + n) }
    ensures { (result ≡ to + length (live_bytes (take n (drop at w.old)))) × (w.new ≡ over to (live_bytes (take n (drop at w.old))) w.old) }
{
    if w[at + 2] != Variable::ADDED {
        return to;
    }
    // A record that stays where it is; a copy onto itself is slow.
    if at != to {
        copy(w, at, to, n);
    }
    to + n
}

// The live records of a range, to a place on; the place after them. By hand: the copies change the bytes that it walks by.
fn copy_all_live(w: &mut [u8], records: Range<usize>, to: usize) -> usize
    requires { ((rs : List Record) × Holds w.old records.start records.end rs) × (to + (records.end - records.start) ≤ length w.old) × ReadFirst to records.start records.end }
    ensures { (rs : List Record) → Holds w.old records.start records.end rs → (result ≡ to + sizes (select live rs)) × (w.new ≡ over to (records_bytes (select live rs)) w.old) }
{
    let mut at = records.start;
    let mut p = to;
    while at < records.end {
        let header = VarHeader::parse(&w[at..]);
        let n = Variable::size(header.name_size, header.data_size);
        p = copy_live(w, at, p, n);
        at += n;
    }
    p
}

// The live records of a range, under a header, as the bank of the part at a place; its total.
pub fn move_bank(work: &mut [u8], records: Range<usize>, part: usize, header: StoreHeader) -> usize
    requires { Movable work.old records.start records.end part }
    ensures { (rs : List Record) → Holds work.old records.start records.end rs → (result ≡ 24 + sizes (select live rs)) × (work.new ≡ over part (part_of part_size (valid (bank_of header (select live rs) header.size))) work.old) }
{
    let to = part + Variable::STORE_HEADER_SIZE;
    work[part..to].copy_from_slice(&header.serialize());
    let p = copy_all_live(work, records, to);
    work[p..part + Nvram::PART_SIZE].fill(0xFF);
    p - part
}
