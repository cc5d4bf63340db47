// Opening an image: 01, 'Opening'.
#![tactic(auto)]

ghost use Rattle.std.specs.Prelude.{◌≡◌, List, ◌∷◌, suc, ◌*◌, ◌≤◌, ◌<◌, map, length};
ghost use Rattle.std.specs.Result.{result_unwrap_or};
ghost use Rattle.refusal.specs.Refusal.{number_of};
ghost use Rattle.tally.specs.Tally.{no_tally};
ghost use Rattle.bank.specs.Bank.{Slot as Read, part_of};
ghost use Rattle.bank.specs.Read.{read_bank};
ghost use Rattle.bank.specs.Answer.{answer};
ghost use Rattle.book.specs.Book.{part_size, FineSlot};
ghost use Rattle.book.specs.Opening.{active_from, is_valid, any_valid, book_of, opening};
ghost use Rattle.nvram.specs.Part.{entry_of};
ghost use Rattle.nvram.specs.Layout.{lay_state, lay_work};
ghost use Rattle.nvram.specs.Contract.{no_state, begun};

use bank::{Partition, Slot};
use nvram::{Entry, Kind, Nvram, no_banks};
use refusal::Refusal;
use tally::Tally;

// The active bank among those read so far, and the best generation.
#[derive(Clone, Copy)]
struct Best {
    active: u32,
    generation: u32,
}

impl Best {
    // With bank i, which was read as this slot: only a strictly greater generation takes over. A bank's index is a plain number: see `Nvram`.
    fn after(self, i: usize, slot: Slot) -> Best
        requires { i < 16 }
        ensures { (k : Read) (rest : List Read) → slot ≡ answer k → active_from i self.generation self.active (k ∷ rest) ≡ active_from (suc i) result.generation result.active rest }
    {
        match slot {
            Slot::Valid(p) => {
                if self.generation < p.header.generation {
                    Best {
                        active: i as u32,
                        generation: p.header.generation,
                    }
                } else {
                    self
                }
            }
            _ => self,
        }
    }
}

fn is_valid(bank: &[u8; Partition::SIZE]) -> bool
    ensures { result ≡ is_valid (read_bank bank.now) }
{
    matches!(Partition::read(bank), Slot::Valid(_))
}

fn any_valid(banks: &[[u8; Partition::SIZE]]) -> bool
    ensures { result ≡ any_valid (map read_bank banks.now) }
{
    banks.iter().any(is_valid)
}

fn entry_of(slot: Slot) -> Entry
    requires { (k : Read) × (slot ≡ answer k) × FineSlot k }
    ensures { (k : Read) → slot ≡ answer k → result ≡ entry_of k }
{
    let (kind, total, usable) = match slot {
        Slot::Valid(p) => (Kind::Valid, p.total_used as u32, p.usable_size as u32),
        Slot::Empty => (Kind::Empty, 0, 0),
        Slot::Invalid => (Kind::Invalid, 0, 0),
    };
    Entry {
        kind,
        total,
        usable,
    }
}

// A bank of the image, to its part of the work area.
fn load_bank(bank: &[u8; Partition::SIZE], part: &mut [u8]) -> Slot
    requires { length part.old ≡ 131072 }
    ensures { (result ≡ answer (read_bank bank.now)) × FineSlot (read_bank bank.now) × (part.new ≡ part_of part_size (read_bank bank.now)) }
{
    Partition::serialize(bank, part).unwrap()
}

// The banks' parts, their entries, and which is active.
fn load(banks: &[[u8; Partition::SIZE]], work: &mut [u8]) -> Nvram
    requires { (length banks.now ≤ 16) × (length banks.now * 131072 ≤ length work.old) }
    ensures { let b = book_of (map read_bank banks.now) (length banks.now) in (result ≡ lay_state b no_tally) × (work.new ≡ lay_work b work.old) }
{
    let mut entries = no_banks();
    let mut best = Best {
        active: 0,
        generation: 0,
    };
    // The parts by offsets: `as_chunks_mut` says nothing of what the work area ends as.
    for (i, bank) in banks.iter().enumerate() {
        let part = i * Nvram::PART_SIZE;
        let slot = load_bank(bank, &mut work[part..part + Nvram::PART_SIZE]);
        entries[i] = entry_of(slot);
        best = best.after(i, slot);
    }
    Nvram {
        n: banks.len() as u32,
        active: best.active,
        tally: Tally::none(),
        banks: entries,
    }
}

// A refused opening leaves the work area, so all refusals come before the first byte is written.
pub fn parse(image: &[u8], work: &mut [u8]) -> Result<Nvram, Refusal>
    ensures { let x = begun (opening image.now (length work.old)) work.old in (number_of result ≡ x.number) × (result_unwrap_or result no_state ≡ x.state) × (work.new ≡ x.work) }
{
    if image.len() < Partition::SIZE {
        return Err(Refusal::ImageShort);
    }
    if 17 * Partition::SIZE <= image.len() {
        return Err(Refusal::ImageLong);
    }
    let (banks, _) = image.as_chunks::<{ Partition::SIZE }>();
    if work.len() < banks.len() * Nvram::PART_SIZE {
        return Err(Refusal::WorkShort);
    }
    if !any_valid(banks) {
        return Err(Refusal::NoValid);
    }
    Ok(load(banks, work))
}
