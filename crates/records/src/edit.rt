// Records in the work area, found, deleted and appended: 01, 'Edits and lookups'.
ghost use Rattle.std.specs.Prelude.{◌≡◌, true, List, ◌+◌, ◌≤◌, length};
ghost use Rattle.buffers.specs.Bytes.{over};
ghost use Rattle.bank.specs.Record.{Record, record_of, size_at, record_bytes, records_bytes};
ghost use Rattle.records.specs.Match.{matches, removed, fresh, found_in};
ghost use Rattle.records.specs.View.{is_record};
ghost use Rattle.records.specs.Records.{Holds, deleted_at};

use bank::{VarHeader, VarType, Variable};
use std::ops::Range;

// A value's place in the work area, and its length.
#[derive(Clone, Copy)]
pub struct Found {
    pub place: usize,
    pub long: usize,
}

// Whether the record that begins s is live, of this key and of this type.
fn is_match(s: &[u8], key: &[u8], typ: VarType) -> bool
    requires { is_record s.now ≡ true }
    ensures { result ≡ matches key.now typ (record_of s.now) }
{
    if s[2] != Variable::ADDED {
        return false;
    }
    let header = VarHeader::parse(s);
    let closing = Variable::size(header.name_size, 0) - 1;
    if !buffers::same(&s[Variable::HEADER_SIZE..closing], key) {
        return false;
    }
    Variable::typ(&s[16..32]) == typ
}

// Marks the record that begins s as deleted if it matches, and answers its size.
fn delete(s: &mut [u8], key: &[u8], typ: VarType) -> usize
    requires { is_record s.old ≡ true }
    ensures { (result ≡ size_at s.old) × (s.new ≡ deleted_at key.now typ s.old) }
{
    let header = VarHeader::parse(s);
    if is_match(s, key, typ) {
        s[2] = Variable::deleted(header.state);
    }
    Variable::size(header.name_size, header.data_size)
}

// The same for each record of a range of the work area. By hand: a record's size says where the next begins.
pub fn delete_all(work: &mut [u8], records: Range<usize>, key: &[u8], typ: VarType)
    requires { (rs : List Record) × Holds work.old records.start records.end rs }
    ensures { (rs : List Record) → Holds work.old records.start records.end rs → work.new ≡ over records.start (records_bytes (removed key.now typ rs)) work.old }
{
    let mut at = records.start;
    while at < records.end {
        at += delete(&mut work[at..], key, typ);
    }
}

// The value of the first match in a range of the work area; by hand, in the same way. Key and type are two arguments everywhere: a struct of both
// would hold a reference, and each clause would say `name.entry.key.now`.
pub fn find(work: &[u8], records: Range<usize>, key: &[u8], typ: VarType) -> Option<Found>
    requires { (rs : List Record) × Holds work.now records.start records.end rs }
    ensures { (rs : List Record) → Holds work.now records.start records.end rs → result ≡ found_in key.now typ records.start rs }
{
    let mut at = records.start;
    while at < records.end {
        let rest = &work[at..];
        let header = VarHeader::parse(rest);
        if is_match(rest, key, typ) {
            return Some(Found {
                place: at + Variable::size(header.name_size, 0),
                long: header.data_size as usize,
            });
        }
        at += Variable::size(header.name_size, header.data_size);
    }
    None
}

// Writes a live record over the work area from a place on: of a part of it the clause would say no less, and its caller's more.
pub fn append(work: &mut [u8], at: usize, attrs: u32, key: &[u8], value: &[u8], typ: VarType)
    requires { (length key.now ≤ 131072) × (length value.now ≤ 131072) × (at + (37 + length key.now + length value.now) ≤ length work.old) }
    ensures { work.new ≡ over at (record_bytes (fresh attrs key.now value.now typ)) work.old }
{
    let name_size = (key.len() + 1) as u32;
    let data_size = value.len() as u32;
    let header = Variable::fresh(typ, attrs, name_size, data_size, crc32::crc32(value)).serialize();
    let name = at + Variable::HEADER_SIZE;
    let closing = name + key.len();
    let data = closing + 1;
    buffers::copy(&header, &mut work[at..]);
    buffers::copy(key, &mut work[name..]);
    work[closing] = 0;
    buffers::copy(value, &mut work[data..]);
}
