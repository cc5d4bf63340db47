// What a commit asks of the flash, and the state after it: 01, 'A commit, from the entry down'.
#![tactic(auto)]

ghost use Rattle.std.specs.Prelude.{◌≡◌, ◌++◌, ◌+◌, ◌*◌, ◌≤◌, ◌<◌, length, take, drop};
ghost use Rattle.bank.specs.Bank.{Slot};
ghost use Rattle.book.specs.Commit.{request as request_of};
ghost use Rattle.nvram.specs.Part.{entry_of};
ghost use Rattle.requests.specs.Applied.{moved_state};

use bank::Partition;
use nvram::{Entry, Kind, Nvram};
use refusal::Refusal;
use tally::Caller;

// A write's offset in the flash, and how many bytes of the output it is to write.
#[derive(Clone, Copy, Default)]
pub struct Written {
    pub offset: usize,
    pub length: usize,
}

// The offset of an erase request, and the write or why there is none: a move that is refused afterwards asks for its erase all the same.
#[derive(Clone, Copy)]
pub struct Applied {
    pub erase: Option<usize>,
    pub written: Result<Written, Refusal>,
}

// Bank i is to be erased unless its slot is Empty.
pub fn request(kind: Kind, i: usize) -> Option<usize>
    requires { i < 16 }
    ensures { (k : Slot) → kind ≡ (entry_of k).kind → result ≡ request_of k i }
{
    match kind {
        Kind::Empty => None,
        Kind::Invalid | Kind::Valid => Some(i * Partition::SIZE),
    }
}

// A bank of this total and size in slot i, which becomes active; the erase request counts for the caller.
pub fn moved(
    state: &mut Nvram,
    i: usize,
    total: usize,
    size: u32,
    caller: Caller,
    erase: Option<usize>,
)
    requires { (i < 16) × (total ≤ 131072) }
    ensures { state.new ≡ moved_state state.old i total size caller erase }
{
    if erase.is_some() {
        state.tally = state.tally.count(caller);
    }
    state.active = i as u32;
    state.banks[i] = Entry {
        kind: Kind::Valid,
        total: total as u32,
        usable: size,
    };
}

// The first bytes of bank i, as many as its size, to the output, which may be longer than a bank and so is no array.
pub fn write(i: usize, work: &[u8], output: &mut [u8], size: usize) -> Written
    requires { (i < 16) × (size ≤ 65536) × (i * 131072 + 131072 ≤ length work.now) × (65536 ≤ length output.old) }
    ensures { (result.offset ≡ i * 65536) × (result.length ≡ size) × (output.new ≡ take size (drop (i * 131072) work.now) ++ drop size output.old) }
{
    let part = i * Nvram::PART_SIZE;
    let end = part + size;
    // copy_from_slice would call memmove, and the library calls memcpy and memset alone.
    buffers::copy(&work[part..end], output);
    Written {
        offset: i * Partition::SIZE,
        length: size,
    }
}
