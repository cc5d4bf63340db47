// What a program that checks answers counts, and says last.
#![tactic(auto)]

ghost use Rattle.std.specs.Prelude.{◌≡◌, ◌+◌, ◌%◌, ◌^◌, if◌then◌else◌, ◌++◌, OnOk, decimal, codes};
ghost use Rattle.std.specs.Io.KnownBytes.{Appends};

use std::io;
use std::io::Write;

#[derive(Default, Drop)]
pub struct Score {
    pub right: u64,
    pub wrong: u64,
}

impl Score {
    pub fn add(self, right: bool) -> Score
        ensures right { result.right ≡ (if right then (self.right + 1) % 2 ^ 64 else self.right) }
        ensures wrong { result.wrong ≡ (if right then self.wrong else (self.wrong + 1) % 2 ^ 64) }
    {
        if right {
            Score {
                right: self.right.wrapping_add(1),
                ..self
            }
        } else {
            Score {
                wrong: self.wrong.wrapping_add(1),
                ..self
            }
        }
    }

    pub fn print<W: Write>(self, to: &mut W) -> io::Result<()>
        ensures { OnOk result (Appends (W.contents to.old) (W.contents to.new) (decimal self.right ++ codes " right, " ++ decimal self.wrong ++ codes " wrong\n")) }
    {
        let right = self.right;
        let wrong = self.wrong;
        writeln!(to, "{right} right, {wrong} wrong")
    }
}
