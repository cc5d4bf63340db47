// A line's call on the store, and whether it answers what the line says.
ghost use Rattle.std.specs.Prelude.{◌<◌, ◌≤◌, length};

use super::fields::{decimal, field, hex, put_bytes};
use bank::VarType;
use commit::Way;
use crc32::crc32;
use nvram::{Entry, Nvram};
use records::{Figures, Found};
use refusal::number_of;
use requests::{Applied, Written};
use tally::Caller;
use variables::{Manner, get_variable, insert_variable, remove_variable};

// Whether the fields from k on are these numbers. A line is its bytes: as a struct it would only be unwrapped here.
pub(crate) fn told<const N: usize>(line: &[u8], k: usize, numbers: &[u64; N]) -> bool
    requires { k < 64 }
{
    let mut right = true;
    for i in 0..N {
        right &= decimal(line, k + i) == numbers[i];
    }
    right
}

// The bytes of a key, in `room`.
fn key<'a>(line: &[u8], room: &'a mut [u8; 64]) -> &'a [u8] {
    let n = put_bytes(room, 0, field(line, 2));
    &room[..n]
}

fn typ(line: &[u8]) -> VarType {
    match decimal(line, 1) {
        0 => VarType::Common,
        _ => VarType::System,
    }
}

// The value of an insert: its bytes, COUNT times.
fn put_value(line: &[u8], out: &mut [u8]) -> usize
    ensures { result ≤ length out.new }
{
    let mut at: usize = 0;
    for _ in 0..decimal(line, 3) {
        at = put_bytes(out, at, field(line, 4));
    }
    at
}

pub(crate) fn insert_right(
    state: &mut Nvram,
    work: &mut [u8],
    line: &[u8],
    manner: Manner,
) -> bool {
    let mut room = [0u8; 64];
    let key = key(line, &mut room);
    let mut value = [0u8; 131072];
    let n = put_value(line, &mut value);
    let edited = insert_variable(state, work, key, &value[..n], typ(line), manner);
    told(line, 5, &[u64::from(number_of(edited))])
}

pub(crate) fn remove_right(state: Nvram, work: &mut [u8], line: &[u8]) -> bool {
    let mut room = [0u8; 64];
    let key = key(line, &mut room);
    let edited = remove_variable(state, work, key, typ(line));
    told(line, 3, &[u64::from(number_of(edited))])
}

pub(crate) fn lookup_right(state: Nvram, work: &[u8], line: &[u8]) -> bool {
    let mut room = [0u8; 64];
    let key = key(line, &mut room);
    let found = get_variable(state, work, key, typ(line));
    let answer = match found {
        Ok(Some(Found { place, long })) => [1, place as u64, long as u64],
        _ => [0; 3],
    };
    told(line, 3, &[u64::from(number_of(found))]) & told(line, 4, &answer)
}

pub(crate) fn value_right(state: Nvram, work: &[u8], line: &[u8]) -> bool {
    let mut room = [0u8; 64];
    let key = key(line, &mut room);
    let value = variables::value(state, work, key, typ(line));
    bytes_right(line, 3, value)
}

pub(crate) fn figures_right(state: Nvram, work: &[u8], line: &[u8]) -> bool {
    let figures = figures::of_active(state, work);
    let number = u64::from(number_of(figures));
    let used = figures.unwrap_or_default();
    let Figures {
        system,
        common,
        count,
        ..
    } = used;
    told(
        line,
        1,
        &[number, system as u64, common as u64, count as u64],
    )
}

// Whether field k is the length of these bytes, and field k + 1 their checksum.
fn bytes_right(line: &[u8], k: usize, bytes: &[u8]) -> bool
    requires { k < 16 }
{
    told(line, k, &[bytes.len() as u64]) & (hex(line, k + 1) == u64::from(crc32(bytes)))
}

// The same of what the output begins with.
fn output_right(line: &[u8], k: usize, output: &[u8], length: usize) -> bool
    requires { k < 16 }
{
    let Some(bytes) = output.get(..length) else {
        return false;
    };
    bytes_right(line, k, bytes)
}

fn caller(line: &[u8]) -> Caller {
    match decimal(line, 1) {
        0 => Caller::Clock,
        _ => Caller::Barrel,
    }
}

// The output has room for three banks, the most that a run of the list has.
pub(crate) fn commit_right(state: &mut Nvram, work: &mut [u8], line: &[u8], way: Way) -> bool {
    let mut output = [0u8; 196608];
    let applied = commit::apply(state, work, &mut output, way, caller(line));
    let Applied { erase, written } = applied;
    let Written { offset, length } = written.unwrap_or_default();
    let answer = [
        u64::from(number_of(written)),
        u64::from(erase.is_some()),
        erase.unwrap_or(0) as u64,
        offset as u64,
    ];
    told(line, 2, &answer) & output_right(line, 6, &output, length)
}

pub(crate) fn whole_right(state: Nvram, work: &[u8], line: &[u8]) -> bool {
    let mut output = [0u8; 196608];
    let length = whole_image::serialize(state, work, &mut output);
    told(line, 1, &[u64::from(number_of(length))])
        & output_right(line, 2, &output, length.unwrap_or(0))
}

// Those of banks that the line does not have are 0.
pub(crate) fn state_right(state: Nvram, line: &[u8]) -> bool {
    let tally = state.tally;
    let head = [
        u64::from(state.n),
        u64::from(state.active),
        u64::from(tally.clock),
        u64::from(tally.barrel),
        u64::from(tally.total()),
    ];
    let mut right = told(line, 1, &head);
    for i in 0..16 {
        let Entry {
            kind,
            total,
            usable,
        } = state.banks[i];
        let entry = [
            u64::from(u32::from(kind)),
            u64::from(total),
            u64::from(usable),
        ];
        right &= told(line, 6 + 3 * i, &entry);
    }
    right
}

pub(crate) fn work_right(state: Nvram, work: &[u8], line: &[u8]) -> bool {
    (work.len() == state.n as usize * Nvram::PART_SIZE) & (hex(line, 1) == u64::from(crc32(work)))
}
