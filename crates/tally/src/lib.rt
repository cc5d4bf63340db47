// Erase requests counted by caller: 02, N7.
#![tactic(auto)]

ghost use Rattle.std.specs.Prelude.{◌≡◌, ℕ, Some};
ghost use Rattle.tally.specs.Tally.{no_tally, counted, total_of};

// Who commits.
#[derive(Clone, Copy)]
pub enum Caller {
    Clock,
    Barrel,
}

// Erase requests in each caller's commits since opening.
#[derive(Clone, Copy, Default)]
pub struct Tally {
    pub clock: u32,
    pub barrel: u32,
}

impl Tally {
    pub fn none() -> Tally
        ensures { result ≡ no_tally }
    {
        Tally::default()
    }

    // With one request more, for whatever bank, in a commit of this caller.
    pub fn count(self, caller: Caller) -> Tally
        ensures { (offset : ℕ) → result ≡ counted (Some caller) (Some offset) self }
    {
        match caller {
            Caller::Clock => Tally {
                clock: self.clock.saturating_add(1),
                ..self
            },
            Caller::Barrel => Tally {
                barrel: self.barrel.saturating_add(1),
                ..self
            },
        }
    }

    // Both callers' requests.
    pub fn total(self) -> u32
        ensures { result ≡ total_of self }
    {
        self.clock.saturating_add(self.barrel)
    }
}
