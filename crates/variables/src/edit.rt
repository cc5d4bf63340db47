// Inserts and removes: 01, 'Edits and lookups'; and the barrels' inserts: 02, N5.
ghost use Rattle.std.specs.Prelude.{◌≡◌, [], ◌+◌, ◌≤◌, ◌<◌, ◌≢◌, IfOk, IfErr};
ghost use Rattle.std.specs.Result.{result_unwrap_or};
ghost use Rattle.refusal.specs.Refusal.{number, number_of};
ghost use Rattle.book.specs.Edit.{insert, remove, over_ceiling, refused_insert};
ghost use Rattle.book.specs.Call.{edit, edited};
ghost use Rattle.nvram.specs.Ready.{active_entry};
ghost use Rattle.nvram.specs.Contract.{Does};
ghost use Rattle.variables.specs.Manner.{manner_of};

use bank::{VarType, Variable};
use nvram::Nvram;
use records::{append, delete_all};
use refusal::Refusal;

// Whose insert it is: the clock's, which is the Rust's, or the chime barrels', whose controller has 512 bytes for a value. An enum and no closure: the
// claims on runs speak of both.
#[derive(Clone, Copy)]
pub enum Manner {
    Plain,
    Barrel,
}

pub fn remove_variable(
    state: Nvram,
    work: &mut [u8],
    key: &[u8],
    typ: VarType,
) -> Result<(), Refusal>
    ensures { Does (edit (remove key.now typ)) state work.old (edited (number_of result)) [] state work.new }
{
    let (from, to) = state.ready(work)?;
    delete_all(work, from..to, key, typ);
    Ok(())
}

pub fn insert_variable(
    state: &mut Nvram,
    work: &mut [u8],
    key: &[u8],
    value: &[u8],
    typ: VarType,
    manner: Manner,
) -> Result<(), Refusal>
    ensures { Does (edit (insert (manner_of manner) key.now value.now typ)) state.old work.old (edited (number_of result)) [] state.new work.new }
{
    *state = inserted(*state, work, key, value, typ, manner)?;
    Ok(())
}

// The state after an insert: the active bank's total grows by the record. By value: the length of a table behind a reference isn't known.
fn inserted(
    mut state: Nvram,
    work: &mut [u8],
    key: &[u8],
    value: &[u8],
    typ: VarType,
    manner: Manner,
) -> Result<Nvram, Refusal>
    ensures { Does (edit (insert (manner_of manner) key.now value.now typ)) state work.old (edited (number_of result)) [] (result_unwrap_or result state) work.new }
{
    let (from, to) = state.ready(work)?;
    let size = fresh_size(state, key.len(), value.len(), manner)?;
    delete_all(work, from..to, key, typ);
    append(work, to, 0, key, value, typ);
    state.banks[state.active as usize].total += size;
    Ok(state)
}

// Whether a value of this length is over the ceiling.
fn over_ceiling(value: usize, manner: Manner) -> bool
    ensures { result ≡ over_ceiling (manner_of manner) value }
{
    match manner {
        Manner::Plain => false,
        Manner::Barrel => 512 < value,
    }
}

// The size of a record with a key and a value of these lengths, if an insert of it isn't refused.
fn fresh_size(state: Nvram, key: usize, value: usize, manner: Manner) -> Result<u32, Refusal>
    requires { (state.active < 16) × ((active_entry state).total ≤ 131072) }
    ensures number { number_of result ≡ refused_insert (manner_of manner) value ((active_entry state).total + (37 + key + value)) }
    ensures refused { IfErr result (λ r. number r ≢ 0) }
    ensures size { IfOk result (λ n. n ≡ 37 + key + value) }
{
    let entry = state.banks[state.active as usize];
    let left = Nvram::PART_SIZE - entry.total as usize;
    if over_ceiling(value, manner) {
        return Err(Refusal::ValueLong);
    }
    let size = Variable::LEAST_SIZE
        .saturating_add(key)
        .saturating_add(value);
    if left < size {
        return Err(Refusal::Full);
    }
    Ok(size as u32)
}
