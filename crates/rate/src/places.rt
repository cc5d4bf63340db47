// Four places: hours, minutes, seconds, thirds.
ghost use Rattle.std.specs.Prelude.{◌≡◌, true, ◌+◌, ◌-◌, ◌≤◌, ◌<◌, leb, cond};
ghost use Rattle.rate.specs.Rate.{in_range, places_of, magnitude as magnitude_of};

// How much each place holds.
const LIMITS: [u32; 4] = [24, 60, 60, 60];

// Places of which each is in range.
#[derive(Clone, Copy)]
pub struct Places {
    pub numbers: [u32; 4],
    ghost in_range: { in_range numbers ≡ true },
}

pub fn in_range(numbers: [u32; 4]) -> bool
    ensures { result ≡ in_range numbers }
{
    let [hours, minutes, seconds, thirds] = numbers;
    (hours < 24) & (minutes < 60) & (seconds < 60) & (thirds < 60)
}

// Whole thirds, of any numbers: a method of Places makes a conversion 5 to 8 nanoseconds for 4.
#[tactic(auto, unfolding(crate::specs::Rate::magnitude))]
pub fn magnitude(numbers: [u32; 4]) -> u64
    ensures { (result ≡ magnitude_of numbers) × (result < 9223372036854775808) }
{
    let [hours, minutes, seconds, thirds] = numbers;
    u64::from(hours) * 216000
        + u64::from(minutes) * 3600
        + u64::from(seconds) * 60
        + u64::from(thirds)
}

impl Places {
    // The sum of both, and a third more with a carry in; and whether 24 hours go over. From the last place to the first, what goes over is
    // carried to the next.
    pub fn carrying_add(self, other: Places, carry: bool) -> (Places, bool)
        ensures places { result.0.numbers ≡ places_of (magnitude_of self.numbers + magnitude_of other.numbers + cond carry 1 0) }
        ensures over { result.1 ≡ leb 5184000 (magnitude_of self.numbers + magnitude_of other.numbers + cond carry 1 0) }
    {
        let mut numbers = [0; 4];
        let mut over = carry;
        for i in (0..4).rev() {
            let n = self.numbers[i] + other.numbers[i] + u32::from(over);
            let most = LIMITS[i];
            over = most <= n;
            numbers[i] = if over { n - most } else { n };
        }
        (Places { numbers }, over)
    }

    // What is missing to 23 hours, 59 minutes, 59 seconds and 59 thirds.
    fn complement(self) -> Places
        ensures { magnitude_of result.numbers + magnitude_of self.numbers ≡ 5183999 }
    {
        let [hours, minutes, seconds, thirds] = self.numbers;
        Places {
            numbers: [23 - hours, 59 - minutes, 59 - seconds, 59 - thirds],
        }
    }

    // Less what is not greater. With the complement a borrow is a carry; 24 hours go over.
    pub fn difference(self, other: Places) -> Places
        requires { magnitude_of other.numbers ≤ magnitude_of self.numbers }
        ensures { result.numbers ≡ places_of (magnitude_of self.numbers - magnitude_of other.numbers) }
    {
        let (difference, _) = self.carrying_add(other.complement(), true);
        difference
    }
}

// The places of a number of thirds.
pub fn places_of(n: u32) -> [u32; 4]
    requires { n < 5184000 }
    ensures { result ≡ places_of n }
{
    [n / 60 / 60 / 60, n / 60 / 60 % 60, n / 60 % 60, n % 60]
}
