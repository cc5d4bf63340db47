// The whole image: 01, 'Edits and lookups'.
#![tactic(auto)]

ghost use Rattle.std.specs.Prelude.{◌≡◌, false, List, ◌++◌, ◌*◌, ◌≤◌, length, take, drop};
ghost use Rattle.std.specs.Result.{result_unwrap_or};
ghost use Rattle.refusal.specs.Refusal.{number_of};
ghost use Rattle.bank.specs.Bank.{Slot, part_of};
ghost use Rattle.book.specs.Book.{part_size, FineSlot, slot_size};
ghost use Rattle.book.specs.Commit.{image_output, any_overfull};
ghost use Rattle.book.specs.Call.{whole_image, joined};
ghost use Rattle.nvram.specs.Part.{entry_of};
ghost use Rattle.nvram.specs.Contract.{Does};
ghost use Rattle.whole_image.specs.Slots.{Slots};

use bank::{Partition, StoreHeader};
use nvram::{Entry, Kind, Nvram, is_sound};
use refusal::Refusal;

// How many bytes a slot has in the image: a Valid bank's size, else none.
fn slot_size(entry: &Entry, part: &[u8; Nvram::PART_SIZE]) -> usize
    ensures { (k : Slot) → FineSlot k → entry.now ≡ entry_of k → part.now ≡ part_of part_size k → result ≡ slot_size k }
{
    match entry.kind {
        Kind::Valid => match StoreHeader::parse(part) {
            Ok(header) => header.size as usize,
            Err(_) => 0,
        },
        _ => 0,
    }
}

// Whether a Valid bank's total is over its size.
fn overfull(entries: &[Entry], parts: &[[u8; Nvram::PART_SIZE]]) -> bool
    ensures { (ss : List Slot) → Slots entries.now parts.now ss → result ≡ any_overfull ss }
{
    for (entry, part) in entries.iter().zip(parts) {
        if slot_size(entry, part) < entry.total as usize {
            return true;
        }
    }
    false
}

// The Valid banks, each at its own size, to the output; their length.
fn join(entries: &[Entry], parts: &[[u8; Nvram::PART_SIZE]], output: &mut [u8]) -> usize
    requires { ((ss : List Slot) × Slots entries.now parts.now ss) × (length entries.now * 65536 ≤ length output.old) }
    ensures { (ss : List Slot) → Slots entries.now parts.now ss → any_overfull ss ≡ false → (result ≡ length (image_output ss)) × (output.new ≡ image_output ss ++ drop result output.old) }
{
    let mut at = 0;
    for (entry, part) in entries.iter().zip(parts) {
        let size = slot_size(entry, part);
        // Not copy_from_slice, which calls memmove.
        buffers::copy(&part[..size], &mut output[at..at + size]);
        at += size;
    }
    at
}

// The image's length in the output.
pub fn serialize(state: Nvram, work: &[u8], output: &mut [u8]) -> Result<usize, Refusal>
    ensures { let n = result_unwrap_or result 0 in Does (whole_image (length output.old)) state work.now (joined (number_of result) n) (take n output.new) state work.now × (drop n output.new ≡ drop n output.old) }
{
    if !is_sound(state, work) {
        return Err(Refusal::NotSound);
    }
    let n = state.n as usize;
    if output.len() < n * Partition::SIZE {
        return Err(Refusal::OutputShort);
    }
    let (parts, _) = work.as_chunks::<{ Nvram::PART_SIZE }>();
    let entries = &state.banks[..n];
    let parts = &parts[..n];
    if overfull(entries, parts) {
        return Err(Refusal::BankOver);
    }
    Ok(join(entries, parts, output))
}
