// Lookups of both kinds: 01, 'Edits and lookups'.
ghost use Rattle.std.specs.Prelude.{[]};
ghost use Rattle.book.specs.Call.{lookup, fetch, handed};
ghost use Rattle.nvram.specs.Contract.{Does};
ghost use Rattle.variables.specs.LookupAnswer.{lookup_answer};

use bank::VarType;
use nvram::Nvram;
use records::{Found, find};
use refusal::Refusal;

pub fn get_variable(
    state: Nvram,
    work: &[u8],
    key: &[u8],
    typ: VarType,
) -> Result<Option<Found>, Refusal>
    ensures { Does (lookup key.now typ) state work.now (lookup_answer result) [] state work.now }
{
    let (from, to) = state.ready(work)?;
    Ok(find(work, from..to, key, typ))
}

// The value itself as a part of the work area, empty where there is none or the lookup is refused.
pub fn value<'a, 'b>(state: Nvram, work: &'a [u8], key: &'b [u8], typ: VarType) -> &'a [u8]
    ensures { Does (fetch key.now typ) state work.now handed result.now state work.now }
{
    match get_variable(state, work, key, typ) {
        Ok(Some(found)) => &work[found.place..found.place + found.long],
        // Two arms: of one for both the proof knows no answer.
        Ok(None) => &[],
        Err(_) => &[],
    }
}
