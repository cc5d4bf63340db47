// A bank of 65,536 bytes: 01, 'Bank and record'.
ghost use Rattle.std.specs.Prelude.{Ok, ◌≡◌, ◌+◌, ◌-◌, ◌≤◌, ◌<◌, List, length, take, drop, set};
ghost use Rattle.buffers.specs.Bytes.{over};
ghost use Rattle.bank.specs.Header.{read_header};
ghost use Rattle.bank.specs.Record.{Record, name_at, size_at, records_bytes};
ghost use Rattle.bank.specs.Bank.{Bank, valid, part_of};
ghost use Rattle.bank.specs.Read.{read_bank, walk_from, usable_at, spoils};
ghost use Rattle.bank.specs.Totals.{total as total_of};
ghost use Rattle.bank.specs.Raw.{Raw};
ghost use Rattle.bank.specs.Answer.{parsed, answer, walked, serialized_slot, serialized_part};

use super::header::{HeaderFault, StoreHeader};
use super::variable::{VarHeader, Variable};
use crc32::Tables;

// Why reading a bank's records stopped: a blank, a wrong start number, a record over what remains, the end of size; or a name length of 0
// or an unequal CRC, which make the bank Invalid.
#[derive(Clone, Copy, PartialEq, Eq)]
pub enum Stop {
    Blank,
    Start,
    Length,
    End,
    Name,
    Crc,
}

impl Stop {
    // Whether the bank is Invalid for it.
    pub fn spoils(self) -> bool
        ensures { result ≡ spoils self }
    {
        matches!(self, Stop::Name | Stop::Crc)
    }
}

// What a bank is known by: its header, and the figures of its records.
#[derive(Clone, Copy)]
pub struct Partition {
    pub header: StoreHeader,
    pub total_used: usize,
    pub usable_size: usize,
}

// What 65,536 bytes are as a bank.
#[derive(Clone, Copy)]
pub enum Slot {
    Empty,
    Invalid,
    Valid(Partition),
}

// The offset at which reading stopped, why, and how many records it had read.
#[derive(Clone, Copy)]
pub struct Walked {
    pub at: usize,
    pub stop: Stop,
    pub count: usize,
}

// The records behind the header, one after the other, of a bank of this size, which is a header's: see `StoreHeader`. By hand: that a record fits, where reading
// stops and why are facts of the walked bytes, and an iterator would say no less of them in its contract than this loop in its invariant.
pub fn read_records(nvr: &[u8; Partition::SIZE], size: usize) -> Walked
    requires { size ≤ 65536 }
    ensures { result ≡ walked 0 (walk_from nvr.now size 24) }
{
    let t = Tables::new();
    let mut at = Variable::STORE_HEADER_SIZE;
    let mut count: usize = 0;
    while at + Variable::HEADER_SIZE < size {
        match Variable::parse(&t, &nvr[at..]) {
            Ok(n) => {
                at += n;
                count += 1;
            }
            Err(stop) => {
                return Walked { at, stop, count };
            }
        }
    }
    Walked {
        at,
        stop: Stop::End,
        count,
    }
}

// One past the free bytes behind the records: 01, 'Bank and record'.
fn usable(stop: Stop, nvr: &[u8; Partition::SIZE], size: usize, at: usize) -> usize
    requires { (size ≤ 65536) × (at ≤ 65536) × (stop ≡ Stop.Blank → at + 36 < size) }
    ensures { result ≡ usable_at stop nvr.now size at }
{
    match stop {
        Stop::Blank => {
            let from = at + Variable::HEADER_SIZE;
            from + buffers::lead_ff(&nvr[from..size])
        }
        Stop::Start | Stop::Length => at,
        Stop::End | Stop::Name | Stop::Crc => size,
    }
}

// A bank whose header was read.
fn read_partition(nvr: &[u8; Partition::SIZE], header: StoreHeader) -> Slot
    requires { read_header nvr.now ≡ Ok header }
    ensures { result ≡ answer (read_bank nvr.now) }
{
    let size = header.size as usize;
    let walked = read_records(nvr, size);
    let at = walked.at;
    let stop = walked.stop;
    if stop.spoils() {
        return Slot::Invalid;
    }
    Slot::Valid(Partition {
        header,
        total_used: at,
        usable_size: usable(stop, nvr, size, at),
    })
}

// Zeros the reserved and closing bytes of the record that begins s, and answers its size.
fn normalize(s: &mut [u8]) -> usize
    requires { (0 < name_at s.old) × (size_at s.old ≤ length s.old) }
    ensures { (result ≡ size_at s.old) × (s.new ≡ set (set s.old 3 0) (35 + name_at s.old) 0) }
{
    let header = VarHeader::parse(s);
    let closing = Variable::size(header.name_size, 0) - 1;
    s[3] = 0;
    s[closing] = 0;
    Variable::size(header.name_size, header.data_size)
}

// The same for each record from the header's end up to total; by hand, since it changes the bytes that it walks along, and a record's size says
// where the next begins.
fn normalize_all(s: &mut [u8], total: usize)
    requires { (24 ≤ total) × (total ≤ length s.old) × ((rs : List Record) × Raw (take (total - 24) (drop 24 s.old)) rs) }
    ensures { (rs : List Record) → Raw (take (total - 24) (drop 24 s.old)) rs → s.new ≡ over 24 (records_bytes rs) s.old }
{
    let mut at = Variable::STORE_HEADER_SIZE;
    while at < total {
        at += normalize(&mut s[at..]);
    }
}

// The first total bytes of a bank as they would be written, and 0xFF after them, to an output that may be longer than a bank. That the bank was read with this total is `read`'s answer; a type that
// said so would hold the bank beside it.
fn write(nvr: &[u8; Partition::SIZE], total: usize, out: &mut [u8])
    requires { (65536 ≤ length out.old) × ((b : Bank) × (read_bank nvr.now ≡ valid b) × (total ≡ total_of b)) }
    ensures { out.new ≡ part_of (length out.old) (read_bank nvr.now) }
{
    buffers::copy(&nvr[0..total], out);
    out[15] = 0;
    normalize_all(out, total);
    buffers::fill_ff(&mut out[total..]);
}

impl Partition {
    // A bank's bytes in an image.
    pub const SIZE: usize = 65536;

    pub fn read(nvr: &[u8; Partition::SIZE]) -> Slot
        ensures { result ≡ answer (read_bank nvr.now) }
    {
        match StoreHeader::parse(nvr) {
            Ok(header) => read_partition(nvr, header),
            Err(fault) if fault != HeaderFault::Size && buffers::all_ff(nvr) => Slot::Empty,
            Err(_) => Slot::Invalid,
        }
    }

    // The bank in the first 65,536 bytes lent.
    pub fn parse(nvr: &[u8]) -> Option<Slot>
        ensures { result ≡ parsed nvr.now }
    {
        let bank = nvr.first_chunk::<{ Partition::SIZE }>()?;
        Some(Partition::read(bank))
    }

    // The same, and the bank as it would be written, with 0xFF up to the end of the part lent; a slot that isn't Valid is all 0xFF. Where
    // fewer than 65,536 bytes of either are lent there is no slot, and the part is left.
    pub fn serialize(nvr: &[u8], out: &mut [u8]) -> Option<Slot>
        ensures { (result ≡ serialized_slot nvr.now out.old) × (out.new ≡ serialized_part nvr.now out.old) }
    {
        let bank = nvr.first_chunk::<{ Partition::SIZE }>()?;
        if out.len() < Partition::SIZE {
            return None;
        }
        let slot = Partition::read(bank);
        match slot {
            Slot::Valid(p) => write(bank, p.total_used, out),
            _ => buffers::fill_ff(out),
        }
        Some(slot)
    }
}
