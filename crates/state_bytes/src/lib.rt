// The state as bytes; specs/State has the layout.
#![tactic(auto)]

ghost use Rattle.std.specs.Prelude.{◌≡◌, ◌+◌, ◌*◌, ◌≤◌, length};
ghost use Rattle.buffers.specs.Bytes.{over};
ghost use Rattle.state_bytes.specs.State.{entry_size, state_size, all_le32, stored, known_entry, read_state};

use bank::u32_at;
use nvram::{Entry, Kind, Nvram};
use tally::Tally;

// n, active, and the two tallies.
const HEAD: usize = 16;

// Kind, total and usable.
const ENTRY: usize = 12;

pub const STATE: usize = HEAD + 16 * ENTRY;

fn entry_at(bytes: &[u8]) -> Option<Entry>
    requires { entry_size ≤ length bytes.now }
    ensures { result ≡ known_entry bytes.now }
{
    let Ok(kind) = Kind::try_from(u32_at(bytes, 0)) else {
        return None;
    };
    let total = u32_at(bytes, 4);
    let usable = u32_at(bytes, 8);
    Some(Entry {
        kind,
        total,
        usable,
    })
}

// Inlined: a tally takes 11 nanoseconds for 19, and no call more stack.
#[inline(always)]
pub fn load(bytes: &[u8]) -> Option<Nvram>
    ensures { result ≡ read_state bytes.now }
{
    if bytes.len() < STATE {
        return None;
    }
    let mut banks = nvram::no_banks();
    for i in 0..16 {
        banks[i] = entry_at(&bytes[HEAD + ENTRY * i..])?;
    }
    let tally = Tally {
        clock: u32_at(bytes, 8),
        barrel: u32_at(bytes, 12),
    };
    Some(Nvram {
        n: u32_at(bytes, 0),
        active: u32_at(bytes, 4),
        tally,
        banks,
    })
}

// Numbers from a place on, one behind the other; a place, since the layout is said in places.
fn put<const N: usize>(bytes: &mut [u8], at: usize, numbers: &[u32; N])
    requires { at + 4 * N ≤ length bytes.old }
    ensures { bytes.new ≡ over at (all_le32 numbers.now) bytes.old }
{
    for i in 0..N {
        let p = at + 4 * i;
        bytes[p..p + 4].copy_from_slice(&numbers[i].to_le_bytes());
    }
}

pub fn store(state: Nvram, bytes: &mut [u8])
    requires { state_size ≤ length bytes.old }
    ensures { bytes.new ≡ stored state bytes.old }
{
    let tally = state.tally;
    let head = [state.n, state.active, tally.clock, tally.barrel];
    put(bytes, 0, &head);
    for i in 0..16 {
        let entry = state.banks[i];
        let numbers = [u32::from(entry.kind), entry.total, entry.usable];
        put(bytes, HEAD + ENTRY * i, &numbers);
    }
}
