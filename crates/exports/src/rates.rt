// Daily rates in sixtieths. A rate crosses as five numbers: its sign and its places.
ghost use Rattle.std.specs.Prelude.{◌≡◌, ◌+ℤ◌, ◌-ℤ◌};
ghost use Rattle.rate.specs.Answer.{from_thirds, operation_of, on_thirds, order_of, to_thirds};
ghost use Rattle.exports.specs.Rates.{rate_in, rate_numbers, TellsRate, order_field, TellsOrder, TellsThirds};

use rate::{Operation, Rate};
use refusal::{Refusal, number_of};
use std::cmp::Ordering;

fn rate_in(numbers: &[u32; 5]) -> Rate
    ensures { result ≡ rate_in numbers.now }
{
    let [sign, hours, minutes, seconds, thirds] = *numbers;
    Rate {
        minus: sign != 0,
        places: [hours, minutes, seconds, thirds],
    }
}

fn numbers(rate: Rate) -> [u32; 5]
    ensures { result ≡ rate_numbers rate }
{
    let [hours, minutes, seconds, thirds] = rate.places;
    [u32::from(rate.minus), hours, minutes, seconds, thirds]
}

fn tell(answer: Result<Rate, Refusal>, out: &mut [u32; 5]) -> u32
    ensures { TellsRate answer result out.new }
{
    *out = match answer {
        Ok(rate) => numbers(rate),
        Err(_) => [0; 5],
    };
    number_of(answer)
}

fn combine(operation: Operation, a: &[u32; 5], b: &[u32; 5], out: &mut [u32; 5]) -> u32
    ensures { TellsRate (on_thirds (operation_of operation) (rate_in a.now) (rate_in b.now)) result out.new }
{
    tell(rate::combine(operation, rate_in(a), rate_in(b)), out)
}

// The sum of two rates.
#[unsafe(no_mangle)]
pub extern "C" fn feqyondil_rate_add(a: &[u32; 5], b: &[u32; 5], out: &mut [u32; 5]) -> u32
    ensures { TellsRate (on_thirds ◌+ℤ◌ (rate_in a.now) (rate_in b.now)) result out.new }
{
    combine(Operation::Add, a, b, out)
}

// The first rate less the second.
#[unsafe(no_mangle)]
pub extern "C" fn feqyondil_rate_subtract(a: &[u32; 5], b: &[u32; 5], out: &mut [u32; 5]) -> u32
    ensures { TellsRate (on_thirds ◌-ℤ◌ (rate_in a.now) (rate_in b.now)) result out.new }
{
    combine(Operation::Subtract, a, b, out)
}

fn order_field(order: Result<Ordering, Refusal>) -> [u64; 1]
    ensures { result ≡ order_field order }
{
    match order {
        Err(_) => [0],
        Ok(Ordering::Less) => [1],
        Ok(Ordering::Equal) => [2],
        Ok(Ordering::Greater) => [3],
    }
}

// Whether the first rate is less than the second, equal to it or greater.
#[unsafe(no_mangle)]
pub extern "C" fn feqyondil_rate_compare(a: &[u32; 5], b: &[u32; 5], out: &mut [u64; 1]) -> u32
    ensures { TellsOrder (order_of (rate_in a.now) (rate_in b.now)) result out.new }
{
    let order = rate::compare(rate_in(a), rate_in(b));
    *out = order_field(order);
    number_of(order)
}

// The whole thirds of a rate.
#[unsafe(no_mangle)]
pub extern "C" fn feqyondil_rate_to_thirds(numbers: &[u32; 5], out: &mut [i64; 1]) -> u32
    ensures { TellsThirds (to_thirds (rate_in numbers.now)) result out.new }
{
    let thirds = rate::to_thirds(rate_in(numbers));
    *out = [thirds.unwrap_or(0)];
    number_of(thirds)
}

// The rate of so many thirds.
#[unsafe(no_mangle)]
pub extern "C" fn feqyondil_rate_from_thirds(thirds: i64, out: &mut [u32; 5]) -> u32
    ensures { TellsRate (from_thirds thirds) result out.new }
{
    tell(rate::from_thirds(thirds), out)
}
