// Daily rates in sixtieths: 02, N8. What they mean is whole thirds; sums and differences are carried through the places.
#![tactic(auto)]

mod places;
mod signed;

ghost use Rattle.std.specs.Prelude.{◌≡◌};
ghost use Rattle.rate.specs.Rate.{thirds as thirds_of, is_rate};
ghost use Rattle.rate.specs.Answer.{from_thirds, operation_of, on_thirds, order_of, to_thirds};

use places::{in_range, magnitude, places_of};
use refusal::Refusal;
use signed::Signed;
use std::cmp::Ordering;

// Hours, minutes, seconds, thirds, and whether there is a minus before them.
#[derive(Clone, Copy)]
pub struct Rate {
    pub minus: bool,
    pub places: [u32; 4],
}

impl Rate {
    // Whether it is one: its places are in range, and it is not minus zero.
    fn is_rate(self) -> bool
        ensures { result ≡ is_rate self }
    {
        let places = self.places;
        in_range(places) & !(self.minus & (magnitude(places) == 0))
    }

    fn thirds(self) -> i64
        ensures { result ≡ thirds_of self }
    {
        let n = magnitude(self.places) as i64;
        if self.minus { -n } else { n }
    }
}

// A parameter of one function: with a function each, the compiler leaves what both call out of line.
#[derive(Clone, Copy)]
pub enum Operation {
    Add,
    Subtract,
}

// The thirds of 24 hours.
const DAY: u64 = 5184000;

// The sum or the difference of two rates.
pub fn combine(operation: Operation, a: Rate, b: Rate) -> Result<Rate, Refusal>
    ensures { result ≡ on_thirds (operation_of operation) a b }
{
    let a = Signed::new(a)?;
    let b = Signed::new(b)?;
    a.plus(match operation {
        Operation::Add => b,
        Operation::Subtract => b.negated(),
    })
}

// Whether the first rate is less than the second, equal to it or greater.
pub fn compare(a: Rate, b: Rate) -> Result<Ordering, Refusal>
    ensures { result ≡ order_of a b }
{
    let a = to_thirds(a)?;
    let b = to_thirds(b)?;
    Ok(a.cmp(&b))
}

// The whole thirds of a rate.
pub fn to_thirds(r: Rate) -> Result<i64, Refusal>
    ensures { result ≡ to_thirds r }
{
    if !r.is_rate() {
        return Err(Refusal::RateRange);
    }
    Ok(r.thirds())
}

// The rate of so many thirds.
pub fn from_thirds(z: i64) -> Result<Rate, Refusal>
    ensures { result ≡ from_thirds z }
{
    let n = z.unsigned_abs();
    if DAY <= n {
        return Err(Refusal::RateRange);
    }
    Ok(Rate {
        minus: z < 0,
        places: places_of(n as u32),
    })
}
