// The candidates of a window: its entries that no later one of it is longer than, the oldest first, which is the longest.
ghost use Rattle.std.specs.Prelude.{◌≡◌, List, [], ◌∷◌, ◌++◌, ◌<◌, ◌≤◌, length, take};
ghost use Rattle.longest.specs.declared.ring.Candidate.{Candidate};
ghost use Rattle.longest.specs.Ring.{held, trimmed, without};

use std::marker::Model;

// As many as a window has entries at most.
pub const ROOM: usize = 64;

#[derive(Clone, Copy)]
pub struct Candidate {
    pub seconds: u32,
    pub index: u32,
}

#[derive(Drop)]
pub struct Ring {
    places: [Candidate; ROOM],
    head: usize,
    len: usize,
}

// Clauses see the candidates.
impl Model for Ring {
    ghost Value = { List Candidate };

    ghost view = { λ r. held r.places r.head r.len };

    ghost invariant = { λ r. (r.head < 64) × (r.len ≤ 64) };
}

// How many are left without the newest that are shorter.
fn not_shorter(places: &[Candidate; ROOM], head: usize, len: usize, seconds: u32) -> usize
    requires { (head < 64) × (len ≤ 64) }
    ensures { (held places.now head result ≡ trimmed seconds (held places.now head len)) × (result ≤ len) }
{
    for i in (0..len).rev() {
        if seconds <= places[(head + i) % ROOM].seconds {
            return i + 1;
        }
    }
    0
}

impl Ring {
    pub fn new() -> Ring
        ensures { result ≡ [] }
    {
        let none = Candidate {
            seconds: 0,
            index: 0,
        };
        Ring {
            places: [none; ROOM],
            head: 0,
            len: 0,
        }
    }

    // Puts one in the place of the newest that are shorter.
    pub fn push(&mut self, candidate: Candidate)
        requires { length self.old < 64 }
        ensures { self.new ≡ trimmed candidate.seconds self.old ++ (candidate ∷ []) }
    {
        let len = not_shorter(&self.places, self.head, self.len, candidate.seconds);
        self.places[(self.head + len) % ROOM] = candidate;
        self.len = len + 1;
    }

    pub fn oldest(&self) -> Candidate
        requires { 0 < length self.now }
        ensures { take 1 self.now ≡ result ∷ [] }
    {
        self.places[self.head]
    }

    // The oldest goes, if it has this index.
    pub fn leave(&mut self, index: usize)
        ensures { self.new ≡ without index self.old }
    {
        if 0 < self.len && self.places[self.head].index as usize == index {
            self.head = (self.head + 1) % ROOM;
            self.len -= 1;
        }
    }
}
