// Why reading a bank stopped: request N2.
#![tactic(auto)]

ghost use Rattle.std.specs.Prelude.{◌≡◌, ◌≤◌, take};
ghost use Rattle.bank.specs.Bank.{bank_size};
ghost use Rattle.cause.specs.Cause.{walk_cause, bank_cause, cause_of, spot_of};
ghost use Rattle.cause.specs.Named.{Named};

use bank::{HeaderFault, Partition, Stop, StoreHeader, Walked};

// A byte of a bank, and the record that it belongs to, counted from 0.
#[derive(Clone, Copy)]
pub struct Spot {
    pub place: usize,
    pub index: usize,
}

// Too few bytes; all 0xFF; five that make a bank Invalid; four that leave it Valid.
#[derive(Clone, Copy)]
pub enum Cause {
    Short,
    Empty,
    Signature,
    Version,
    Size,
    Name(Spot),
    Crc(Spot),
    Blank,
    Start,
    Length,
    End,
}

impl Cause {
    // Where a record's name length and its CRC stand.
    const NAME_AT: usize = 8;

    const CRC_AT: usize = 32;

    // Place and index, 0 where the cause has none, as C is told.
    pub fn spot(self) -> Spot
        ensures { result ≡ spot_of self }
    {
        match self {
            Cause::Name(spot) | Cause::Crc(spot) => spot,
            Cause::Version => Spot {
                place: 14,
                index: 0,
            },
            Cause::Size => Spot { place: 4, index: 0 },
            _ => Spot { place: 0, index: 0 },
        }
    }
}

// Of a walk over the records.
fn of_walk(walked: Walked) -> Cause
    requires { walked.at ≤ 65536 }
    ensures { result ≡ walk_cause walked }
{
    let at = walked.at;
    let index = walked.count;
    match walked.stop {
        Stop::Blank => Cause::Blank,
        Stop::Start => Cause::Start,
        Stop::Length => Cause::Length,
        Stop::End => Cause::End,
        Stop::Name => Cause::Name(Spot {
            place: at + Cause::NAME_AT,
            index,
        }),
        Stop::Crc => Cause::Crc(Spot {
            place: at + Cause::CRC_AT,
            index,
        }),
    }
}

fn of_bank(nvr: &[u8; Partition::SIZE]) -> Cause
    ensures { result ≡ bank_cause nvr.now }
{
    match StoreHeader::parse(nvr) {
        Ok(header) => of_walk(bank::read_records(nvr, header.size as usize)),
        Err(HeaderFault::Size) => Cause::Size,
        Err(HeaderFault::Version) => Cause::Version,
        Err(HeaderFault::Signature) if buffers::all_ff(nvr) => Cause::Empty,
        Err(HeaderFault::Signature) => Cause::Signature,
    }
}

// The cause in the first 65,536 bytes lent.
pub fn bank_cause(nvr: &[u8]) -> Cause
    ensures value { result ≡ cause_of nvr.now }
    ensures named { Named (take bank_size nvr.now) result }
{
    let Some(bank) = nvr.first_chunk::<{ Partition::SIZE }>() else {
        return Cause::Short;
    };
    of_bank(bank)
}
