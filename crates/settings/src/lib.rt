// Whether two banks hold the same settings, whatever bytes reading ignores: request N1.
#![tactic(auto)]

ghost use Rattle.std.specs.Prelude.{◌≡◌, ◌≤◌, Bool, false, ◌&&◌, ℕ, eqb, length, get_or};
ghost use Rattle.crc32.specs.Crc32.{crc32_of};
ghost use Rattle.bank.specs.Record.{Record};
ghost use Rattle.bank.specs.Read.{got, found, walk_from, read_bank};
ghost use Rattle.settings.specs.Same.{alike_at, ends_at, size_here, same_walks, same_settings, compared};

use bank::{Partition, StoreHeader, VarHeader, Variable};
use crc32::Tables;
use refusal::Refusal;

// Whether the other begins with a record that has the fields of the record that begins the one, the states apart: those are the caller's to
// compare. All bytes are compared but the state, the reserved and the closing one, the stored checksum too: so the other's is right as well.
fn same_fields(one: &[u8], other: &[u8]) -> bool
    requires { (length one.now ≡ length other.now) × ((r : Record) × (found one.now ≡ got r)) }
    ensures { (states : ℕ → ℕ → Bool) (r : Record) → found one.now ≡ got r → (states r.state (get_or other.now 2 0) && result) ≡ alike_at states r (found other.now) }
{
    let header = VarHeader::parse(one);
    let state = 2;
    let fields = 4;
    let value = Variable::size(header.name_size, 0);
    let closing = value - 1;
    let end = Variable::size(header.name_size, header.data_size);
    buffers::same(&one[..state], &other[..state])
        & buffers::same(&one[fields..closing], &other[fields..closing])
        & buffers::same(&one[value..end], &other[value..end])
}

fn same_record(one: &[u8], other: &[u8]) -> bool
    requires { (length one.now ≡ length other.now) × ((r : Record) × (found one.now ≡ got r)) }
    ensures { (r : Record) → found one.now ≡ got r → result ≡ alike_at eqb r (found other.now) }
{
    (one[2] == other[2]) & same_fields(one, other)
}

// Whether reading stops at nvr, what remains of a bank's 65,536 bytes, and the bank is not Invalid for it: by a wrong start number, as a blank has, or
// a record over what remains. Not by `Variable::parse`: with a second caller it is not inlined, and banks of small records are read 28 % slower.
fn ends(nvr: &[u8]) -> bool
    requires { 36 ≤ length nvr.now }
    ensures { result ≡ ends_at (found nvr.now) }
{
    if u16::from_le_bytes([nvr[0], nvr[1]]) != Variable::DATA {
        return true;
    }
    let header = VarHeader::parse(nvr);
    nvr.len() < Variable::size(header.name_size, header.data_size)
}

// A value's checksum. Of no bytes it is 0, without a call, which in banks of empty values is felt.
fn checksum(t: &Tables, value: &[u8]) -> u32
    ensures { result ≡ crc32_of value.now }
{
    if value.len() == 0 {
        return 0;
    }
    t.crc32(value)
}

// The size of the record that begins nvr, where reading does not end; none where its name length is 0 or its CRC unequal.
fn record_size(t: &Tables, nvr: &[u8]) -> Option<usize>
    requires { (36 ≤ length nvr.now) × (ends_at (found nvr.now) ≡ false) }
    ensures { result ≡ size_here (found nvr.now) }
{
    let header = VarHeader::parse(nvr);
    let value = Variable::size(header.name_size, 0);
    let end = Variable::size(header.name_size, header.data_size);
    if header.name_size == 0 || header.crc != checksum(t, &nvr[value..end]) {
        return None;
    }
    Some(end)
}

// Both banks' records side by side, up to the first difference or where reading stops; by hand, as `bank` walks them.
fn same_records(one: &[u8; Partition::SIZE], other: &[u8; Partition::SIZE], size: usize) -> bool
    requires { size ≤ 65536 }
    ensures { result ≡ same_walks (walk_from one.now size 24) (walk_from other.now size 24) }
{
    let t = Tables::new();
    let mut at = Variable::STORE_HEADER_SIZE;
    while at + Variable::HEADER_SIZE < size {
        if ends(&one[at..]) {
            return ends(&other[at..]);
        }
        let Some(n) = record_size(&t, &one[at..]) else {
            return false;
        };
        if !same_record(&one[at..], &other[at..]) {
            return false;
        }
        at += n;
    }
    true
}

fn same_slots(one: &[u8; Partition::SIZE], other: &[u8; Partition::SIZE]) -> bool
    ensures { result ≡ same_settings (read_bank one.now) (read_bank other.now) }
{
    let Ok(header) = StoreHeader::parse(one) else {
        return false;
    };
    let Ok(other_header) = StoreHeader::parse(other) else {
        return false;
    };
    if header != other_header {
        return false;
    }
    same_records(one, other, header.size as usize)
}

// Whether two banks of 65,536 bytes are both Valid, with equal header fields and equal records in order. That is yes just where both are Valid
// and would be written with equal bytes: proofs/Written.antt, `same_written`.
pub fn same_settings(one: &[u8], other: &[u8]) -> Result<bool, Refusal>
    ensures { result ≡ compared one.now other.now }
{
    let one = one
        .as_array::<{ Partition::SIZE }>()
        .ok_or(Refusal::BankLength)?;
    let other = other
        .as_array::<{ Partition::SIZE }>()
        .ok_or(Refusal::BankLength)?;
    Ok(same_slots(one, other))
}
