// Places with a sign before them.
ghost use Rattle.std.specs.Prelude.{◌≡◌, ◌+ℤ◌, true, false, not, ◌<◌, MatchResult};
ghost use Rattle.refusal.specs.declared.Refusal.TheVariants.{RateRange};
ghost use Rattle.rate.specs.Rate.{is_rate, magnitude as magnitude_of, signed as signed_by};
ghost use Rattle.rate.specs.Answer.{from_thirds};

use super::Rate;
use super::places::{Places, magnitude};
use refusal::Refusal;
use std::cmp::Ordering;

fn rate(minus: bool, p: Places) -> Rate
    ensures { (result.minus ≡ minus) × (result.places ≡ p.numbers) }
{
    let places = p.numbers;
    Rate { minus, places }
}

// Minus zero may be one.
#[derive(Clone, Copy)]
pub struct Signed {
    pub minus: bool,
    pub places: Places,
}

impl Signed {
    // What was lent, where it is a rate.
    pub fn new(rate: Rate) -> Result<Signed, Refusal>
        ensures { MatchResult result (λ s. (is_rate rate ≡ true) × ((s.minus ≡ rate.minus) × (s.places.numbers ≡ rate.places))) (λ r. (is_rate rate ≡ false) × (r ≡ RateRange)) }
    {
        if !rate.is_rate() {
            return Err(Refusal::RateRange);
        }
        let minus = rate.minus;
        let numbers = rate.places;
        Ok(Signed {
            minus,
            places: Places { numbers },
        })
    }

    pub fn negated(self) -> Signed
        ensures { (result.minus ≡ not self.minus) × (result.places.numbers ≡ self.places.numbers) }
    {
        Signed {
            minus: !self.minus,
            places: self.places,
        }
    }

    // The sum: of two signs the lesser is taken from the greater.
    pub fn plus(self, other: Signed) -> Result<Rate, Refusal>
        requires { self.minus ≡ true → 0 < magnitude_of self.places.numbers }
        ensures { result ≡ from_thirds (signed_by self.minus (magnitude_of self.places.numbers) +ℤ signed_by other.minus (magnitude_of other.places.numbers)) }
    {
        let (p, q) = (self.places, other.places);
        if self.minus == other.minus {
            let (sum, over) = p.carrying_add(q, false);
            return if over {
                Err(Refusal::RateRange)
            } else {
                Ok(rate(self.minus, sum))
            };
        }
        match magnitude(p.numbers).cmp(&magnitude(q.numbers)) {
            Ordering::Less => Ok(rate(other.minus, q.difference(p))),
            Ordering::Equal => Ok(Rate {
                minus: false,
                places: [0; 4],
            }),
            Ordering::Greater => Ok(rate(self.minus, p.difference(q))),
        }
    }
}
