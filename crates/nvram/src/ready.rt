// What every call on the active bank asks first: refusals 6 and 7.
ghost use Rattle.std.specs.Prelude.{◌≡◌};
ghost use Rattle.nvram.specs.Ready.{ready_of};

use super::sound::is_sound;
use super::state::{Entry, Kind, Nvram};
use bank::Variable;
use refusal::Refusal;

impl Nvram {
    // From where to where the active bank's records stand in the work area. Not a range, which cannot be copied.
    pub fn ready(self, work: &[u8]) -> Result<(usize, usize), Refusal>
        ensures { result ≡ ready_of self work.now }
    {
        if !is_sound(self, work) {
            return Err(Refusal::NotSound);
        }
        let i = self.active as usize;
        let Entry { kind, total, .. } = self.banks[i];
        if kind != Kind::Valid {
            return Err(Refusal::NotValid);
        }
        let part = i * Nvram::PART_SIZE;
        Ok((part + Variable::STORE_HEADER_SIZE, part + total as usize))
    }
}
