// The state of a store: 01, 'Opening'; 02, N7.
ghost use Rattle.std.specs.Prelude.{◌≡◌, replicate};
ghost use Rattle.nvram.specs.Kind.{kind_number, Names};
ghost use Rattle.nvram.specs.Part.{entry};
ghost use Rattle.nvram.specs.Contract.{no_state};

use tally::Tally;

// What a slot is.
#[derive(Clone, Copy, PartialEq, Eq)]
pub enum Kind {
    Empty,
    Invalid,
    Valid,
}

// A number that stands for no kind.
#[derive(Clone, Copy, PartialEq, Eq)]
pub struct UnknownKind(pub u32);

impl TryFrom<u32> for Kind {
    type Error = UnknownKind;

    ghost try_from_gives = { Names };

    fn try_from(number: u32) -> Result<Self, UnknownKind> {
        match number {
            0 => Ok(Kind::Empty),
            1 => Ok(Kind::Invalid),
            2 => Ok(Kind::Valid),
            _ => Err(UnknownKind(number)),
        }
    }
}

impl From<Kind> for u32 {
    ghost from_gives = { λ kind n. n ≡ kind_number kind };

    fn from(kind: Kind) -> u32 {
        kind as u32
    }
}

// A bank's entry; total and usable are 0 unless it is Valid.
#[derive(Clone, Copy)]
pub struct Entry {
    pub kind: Kind,
    pub total: u32,
    pub usable: u32,
}

// n banks, of which one is active, and the erase requests since opening. Its work area is an argument beside it: a look-up shares that, an edit does
// not, and a struct of both would be one of the two. A bank's index is a plain number below 16, for arrays and products alike.
#[derive(Clone, Copy)]
pub struct Nvram {
    pub n: u32,
    pub active: u32,
    pub tally: Tally,
    pub banks: [Entry; 16],
}

impl Nvram {
    // Work area for each bank.
    pub const PART_SIZE: usize = 131072;
}

// A table of Empty slots.
pub fn no_banks() -> [Entry; 16]
    ensures { result ≡ replicate 16 (entry Kind.Empty 0 0) }
{
    let none = Entry {
        kind: Kind::Empty,
        total: 0,
        usable: 0,
    };
    [none; 16]
}

// What a refused opening gives.
pub fn no_state() -> Nvram
    ensures { result ≡ no_state }
{
    Nvram {
        n: 0,
        active: 0,
        tally: Tally::none(),
        banks: no_banks(),
    }
}
