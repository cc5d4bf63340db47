// What the active bank's records come to: 02, N3. The check for refusal 6 has added it up.
#![tactic(auto)]

ghost use Rattle.std.specs.Prelude.{[]};
ghost use Rattle.std.specs.Result.{result_unwrap_or};
ghost use Rattle.refusal.specs.Refusal.{number_of};
ghost use Rattle.records.specs.Figures.{no_figures};
ghost use Rattle.book.specs.Call.{figures, summed};
ghost use Rattle.nvram.specs.Contract.{Does};

use nvram::{Nvram, check};
use records::Figures;
use refusal::Refusal;

// 6, 7, then the figures.
pub fn of_active(state: Nvram, work: &[u8]) -> Result<Figures, Refusal>
    ensures { Does figures state work.now (summed (number_of result) (result_unwrap_or result no_figures)) [] state work.now }
{
    match check(state, work)? {
        Some(summary) => Ok(summary.used),
        None => Err(Refusal::NotValid),
    }
}
