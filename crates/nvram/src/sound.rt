// Refusal 6: whether a state and a work area are those of some book. The check hands on the active bank's header and what its records come to,
// added up as it passes them, for a commit and for the figures, which would else read them again.
ghost use Rattle.std.specs.Prelude.{◌≡◌, true, Ok, ◌*◌, ◌≤◌, length, is_some};
ghost use Rattle.nvram.specs.Part.{is_blank, fits, view_head, view_slot};
ghost use Rattle.nvram.specs.Soundness.{slot_summary, summary_at, active_summary, soundness};
ghost use Rattle.nvram.specs.Layout.{is_free, all_free, in_range, view_slots, view};

use super::state::{Entry, Kind, Nvram};
use super::summary::Summary;
use bank::{StoreHeader, Variable};
use crc32::Tables;
use records::check_records;
use refusal::Refusal;

impl Entry {
    // Whether this is Empty, with both numbers 0.
    fn is_free(self) -> bool
        ensures { result ≡ is_free self }
    {
        self.kind == Kind::Empty && self.total == 0 && self.usable == 0
    }

    // Whether this entry and its part hold nothing.
    fn is_blank(self, part: &[u8]) -> bool
        ensures { result ≡ is_blank self part.now }
    {
        self.total == 0 && self.usable == 0 && buffers::all_ff(part)
    }

    // Whether this entry and its part go with a header, the records aside.
    fn fits(self, header: StoreHeader, part: &[u8; Nvram::PART_SIZE]) -> bool
        ensures { result ≡ fits header self part.now }
    {
        let total = self.total as usize;
        part[15] == 0
            && Variable::STORE_HEADER_SIZE <= total
            && total <= Nvram::PART_SIZE
            && Variable::STORE_HEADER_SIZE <= self.usable as usize
            && self.usable <= header.size
            && buffers::all_ff(&part[total..])
    }
}

// Whether each of these is.
fn all_free(entries: &[Entry]) -> bool
    ensures { result ≡ all_free entries.now }
{
    entries.iter().all(|entry| entry.is_free())
}

// The check of a Valid entry and its part, whose header is known; `counting` as `check_records` has it.
fn check_bank(
    t: &Tables,
    header: StoreHeader,
    entry: Entry,
    part: &[u8; Nvram::PART_SIZE],
    counting: bool,
) -> Result<Option<Summary>, Refusal>
    ensures { result ≡ soundness (slot_summary counting) (view_head (Ok header) entry part.now) }
{
    if !entry.fits(header, part) {
        return Err(Refusal::NotSound);
    }
    let records = &part[Variable::STORE_HEADER_SIZE..entry.total as usize];
    let Some(used) = check_records(t, records, counting) else {
        return Err(Refusal::NotSound);
    };
    Ok(Some(Summary { header, used }))
}

// Of an entry and its part.
fn check_slot(
    t: &Tables,
    entry: Entry,
    part: &[u8; Nvram::PART_SIZE],
    counting: bool,
) -> Result<Option<Summary>, Refusal>
    ensures { result ≡ soundness (slot_summary counting) (view_slot entry part.now) }
{
    if entry.kind != Kind::Valid {
        return if entry.is_blank(part) {
            Ok(None)
        } else {
            Err(Refusal::NotSound)
        };
    }
    let Ok(header) = StoreHeader::parse(part) else {
        return Err(Refusal::NotSound);
    };
    check_bank(t, header, entry, part, counting)
}

impl Nvram {
    // Whether the numbers are those of a table, and the work area has a part for each of its banks.
    fn is_in_range(self, work: &[u8]) -> bool
        ensures { result ≡ in_range self work.now }
    {
        1 <= self.n
            && self.n <= 16
            && self.active < self.n
            && self.n as usize * Nvram::PART_SIZE <= work.len()
    }
}

// Of the first n entries and their parts, and of the others, which are to be free. It counts in the active bank alone.
fn check_slots(state: Nvram, work: &[u8], counting: bool) -> Result<Option<Summary>, Refusal>
    requires { (state.n ≤ 16) × (state.n * 131072 ≤ length work.now) }
    ensures { result ≡ soundness (summary_at counting state.active) (view_slots state.n state.banks work.now) }
{
    let t = Tables::new();
    let banks = state.banks;
    let n = state.n as usize;
    let active = state.active as usize;
    let (parts, _) = work.as_chunks::<{ Nvram::PART_SIZE }>();
    let mut summary = None;
    for i in 0..n {
        let is_active = i == active;
        let here = check_slot(&t, banks[i], &parts[i], counting & is_active)?;
        if is_active {
            summary = here;
        }
    }
    if !all_free(&banks[n..]) {
        return Err(Refusal::NotSound);
    }
    Ok(summary)
}

// Of the whole.
fn check_all(state: Nvram, work: &[u8], counting: bool) -> Result<Option<Summary>, Refusal>
    ensures { result ≡ soundness (active_summary counting) (view state work.now) }
{
    if !state.is_in_range(work) {
        return Err(Refusal::NotSound);
    }
    check_slots(state, work, counting)
}

// Refused where state and work area are not sound; else the active bank's summary, if it is Valid.
pub fn check(state: Nvram, work: &[u8]) -> Result<Option<Summary>, Refusal>
    ensures { result ≡ soundness (active_summary true) (view state work.now) }
{
    check_all(state, work, true)
}

// Whether state and work area are sound.
pub fn is_sound(state: Nvram, work: &[u8]) -> bool
    ensures { result ≡ is_some (view state work.now) }
{
    check_all(state, work, false).is_ok()
}
