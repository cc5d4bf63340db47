// What records come to: the live ones in sum, by section (01, 'A commit, from the entry down') and all (02, N4), and how many there are, dead
// ones too (02, N3).
ghost use Rattle.std.specs.Prelude.{◌≡◌, cond, ◌+◌, ◌≤◌, ◌<◌, length};
ghost use Rattle.bank.specs.Record.{record_of};
ghost use Rattle.records.specs.Figures.{no_figures, figures_by, plus};

use bank::Variable;

#[derive(Clone, Copy, Default)]
pub struct Figures {
    pub system: usize,
    pub common: usize,
    pub live: usize,
    pub count: usize,
}

// n where the test holds, else 0.
fn count_if(test: bool, n: usize) -> usize
    ensures { (result ≡ cond test n 0) × (result ≤ n) }
{
    if test { n } else { 0 }
}

impl Figures {
    pub fn none() -> Figures
        ensures { result ≡ no_figures }
    {
        Figures::default()
    }

    // With the record of n bytes that begins s, if it is to be counted.
    pub(crate) fn add(self, counting: bool, s: &[u8], n: usize) -> Figures
        requires { (36 ≤ length s.now) × (self.system + n < 18446744073709551616) × (self.common + n < 18446744073709551616) × (self.live + n < 18446744073709551616) × (self.count + 1 < 18446744073709551616) }
        ensures { result ≡ cond counting (plus self (figures_by (record_of s.now) n)) self }
    {
        if !counting {
            return self;
        }
        if s[2] != Variable::ADDED {
            return Figures {
                count: self.count + 1,
                ..self
            };
        }
        // Copies: a constant that is lent is compared by a call, and the count is 8 % slower.
        let system = Variable::SYSTEM_GUID;
        let common = Variable::COMMON_GUID;
        let guid = &s[16..32];
        Figures {
            system: self.system + count_if(buffers::same(guid, &system), n),
            common: self.common + count_if(buffers::same(guid, &common), n),
            live: self.live + n,
            count: self.count + 1,
        }
    }
}
