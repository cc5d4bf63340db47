// The store's calls. The state travels as bytes, of which `state_bytes` has the layout; bytes that hold none are refused as an unsound state is.
ghost use Rattle.std.specs.Prelude.{◌≡◌, [], ◌∷◌, length, ok_or};
ghost use Rattle.state_bytes.specs.State.{read_state};
ghost use Rattle.std.specs.Result.{result_unwrap_or};
ghost use Rattle.refusal.specs.Refusal.{number_of};
ghost use Rattle.records.specs.Figures.{no_figures};
ghost use Rattle.book.specs.Edit.{plain, barrel, insert, remove};
ghost use Rattle.book.specs.Commit.{old, careful};
ghost use Rattle.book.specs.Call.{edit, lookup, fetch, figures, commit, whole_image, summed};
ghost use Rattle.variables.specs.LookupAnswer.{lookup_answer};
ghost use Rattle.variables.specs.Manner.{manner_of};
ghost use Rattle.requests.specs.Applied.{applied};
ghost use Rattle.commit.specs.Active.{way_of};
ghost use Rattle.exports.specs.Store.{var_type_of, caller_of, fields_of, Calls, ExportOpens};

use bank::VarType;
use commit::Way;
use nvram::Nvram;
use records::{Figures, Found};
use refusal::{Refusal, number_of};
use requests::{Applied, Written};
use state_bytes::{STATE, load, store};
use tally::Caller;
use variables::{Manner, get_variable, insert_variable, remove_variable};

// The state that the bytes hold.
fn state_in(bytes: &[u8]) -> Result<Nvram, Refusal>
    ensures { result ≡ ok_or (read_state bytes.now) Refusal.NotSound }
{
    load(bytes).ok_or(Refusal::NotSound)
}

// C's numbers, of which each stands for a type or a caller: no `From`, since the crates below know none.
fn var_type(typ: u32) -> VarType
    ensures { result ≡ var_type_of typ }
{
    match typ {
        0 => VarType::Common,
        _ => VarType::System,
    }
}

// Opens an image into state and work area; state bytes too few are refused before anything is written.
#[unsafe(no_mangle)]
pub extern "C" fn feqyondil_open(image: &[u8], state: &mut [u8], work: &mut [u8]) -> u32
    ensures { ExportOpens image.now state.old work.old result state.new work.new }
{
    if state.len() < STATE {
        return Refusal::NotSound.number();
    }
    let opened = opening::parse(image, work);
    store(opened.unwrap_or(nvram::no_state()), state);
    number_of(opened)
}

// An insert on the state that the bytes hold. Each argument is lent by C on its own, here and below: key, type and value, work area and output.
fn insert_as(
    state: &mut [u8],
    work: &mut [u8],
    key: &[u8],
    value: &[u8],
    typ: u32,
    manner: Manner,
) -> Result<(), Refusal>
    ensures { Calls (edit (insert (manner_of manner) key.now value.now (var_type_of typ))) state.old work.old [] (number_of result) [] state.new work.new [] }
{
    let mut loaded = state_in(state)?;
    let edited = insert_variable(&mut loaded, work, key, value, var_type(typ), manner);
    store(loaded, state);
    edited
}

// Appends a value to the active bank, in place of those of its key and type.
#[unsafe(no_mangle)]
pub extern "C" fn feqyondil_insert(
    state: &mut [u8],
    work: &mut [u8],
    key: &[u8],
    value: &[u8],
    typ: u32,
) -> u32
    ensures { Calls (edit (insert plain key.now value.now (var_type_of typ))) state.old work.old [] result [] state.new work.new [] }
{
    number_of(insert_as(state, work, key, value, typ, Manner::Plain))
}

// The same, but a value over 512 bytes is refused.
#[unsafe(no_mangle)]
pub extern "C" fn feqyondil_barrel_insert(
    state: &mut [u8],
    work: &mut [u8],
    key: &[u8],
    value: &[u8],
    typ: u32,
) -> u32
    ensures { Calls (edit (insert barrel key.now value.now (var_type_of typ))) state.old work.old [] result [] state.new work.new [] }
{
    number_of(insert_as(state, work, key, value, typ, Manner::Barrel))
}

// Deletes the values of a key and type in the active bank, which leaves the state as it was.
#[unsafe(no_mangle)]
pub extern "C" fn feqyondil_remove(state: &[u8], work: &mut [u8], key: &[u8], typ: u32) -> u32
    ensures { Calls (edit (remove key.now (var_type_of typ))) state.now work.old [] result [] state.now work.new [] }
{
    let Some(loaded) = load(state) else {
        return Refusal::NotSound.number();
    };
    number_of(remove_variable(loaded, work, key, var_type(typ)))
}

fn fields(found: Result<Option<Found>, Refusal>) -> [u64; 3]
    ensures { result ≡ fields_of (lookup_answer found) }
{
    match found {
        Ok(Some(Found { place, long })) => [1, place as u64, long as u64],
        _ => [0; 3],
    }
}

// A look-up in the state that the bytes hold.
fn lookup_in(state: &[u8], work: &[u8], key: &[u8], typ: u32) -> Result<Option<Found>, Refusal>
    ensures { Calls (lookup key.now (var_type_of typ)) state.now work.now [] (number_of result) (fields_of (lookup_answer result)) state.now work.now [] }
{
    let loaded = state_in(state)?;
    get_variable(loaded, work, key, var_type(typ))
}

// The value's place in the work area and its length.
#[unsafe(no_mangle)]
pub extern "C" fn feqyondil_lookup(
    state: &[u8],
    work: &[u8],
    key: &[u8],
    typ: u32,
    out: &mut [u64; 3],
) -> u32
    ensures { Calls (lookup key.now (var_type_of typ)) state.now work.now [] result out.new state.now work.now [] }
{
    let found = lookup_in(state, work, key, typ);
    *out = fields(found);
    number_of(found)
}

// The value's length, and the value over the front of out.
#[unsafe(no_mangle)]
pub extern "C" fn feqyondil_value(
    state: &[u8],
    work: &[u8],
    key: &[u8],
    typ: u32,
    out: &mut [u8],
) -> usize
    ensures { Calls (fetch key.now (var_type_of typ)) state.now work.now out.old result [] state.now work.now out.new }
{
    let Some(loaded) = load(state) else {
        return 0;
    };
    let value = variables::value(loaded, work, key, var_type(typ));
    buffers::copy(value, out);
    value.len()
}

// The figures of the state that the bytes hold.
fn figures_in(state: &[u8], work: &[u8]) -> Result<Figures, Refusal>
    ensures { Calls figures state.now work.now [] (number_of result) (fields_of (summed (number_of result) (result_unwrap_or result no_figures))) state.now work.now [] }
{
    let loaded = state_in(state)?;
    figures::of_active(loaded, work)
}

// What the active bank's records come to: the system sum, the common sum, how many there are.
#[unsafe(no_mangle)]
pub extern "C" fn feqyondil_figures(state: &[u8], work: &[u8], out: &mut [u64; 3]) -> u32
    ensures { Calls figures state.now work.now [] result out.new state.now work.now [] }
{
    let figures = figures_in(state, work);
    let used = figures.unwrap_or_default();
    *out = [used.system as u64, used.common as u64, used.count as u64];
    number_of(figures)
}

fn requests(answer: Applied) -> [u64; 4]
    ensures { result ≡ fields_of (applied answer) }
{
    let Written { offset, length } = answer.written.unwrap_or_default();
    [
        u64::from(answer.erase.is_some()),
        answer.erase.unwrap_or(0) as u64,
        offset as u64,
        length as u64,
    ]
}

fn caller_of(caller: u32) -> Caller
    ensures { result ≡ caller_of caller }
{
    match caller {
        0 => Caller::Clock,
        _ => Caller::Barrel,
    }
}

// A commit on the state that the bytes hold.
fn commit_as(
    state: &mut [u8],
    work: &mut [u8],
    output: &mut [u8],
    caller: u32,
    out: &mut [u64; 4],
    way: Way,
) -> u32
    ensures { Calls (commit (way_of way) (caller_of caller) (length output.old)) state.old work.old output.old result out.new state.new work.new output.new }
{
    let Some(mut loaded) = load(state) else {
        *out = [0; 4];
        return Refusal::NotSound.number();
    };
    let answer = commit::apply(&mut loaded, work, output, way, caller_of(caller));
    store(loaded, state);
    *out = requests(answer);
    number_of(answer.written)
}

// Puts what is to be written into the output, and says what to erase and where to write it; the erase request counts for the caller.
#[unsafe(no_mangle)]
pub extern "C" fn feqyondil_commit(
    state: &mut [u8],
    work: &mut [u8],
    output: &mut [u8],
    caller: u32,
    out: &mut [u64; 4],
) -> u32
    ensures { Calls (commit old (caller_of caller) (length output.old)) state.old work.old output.old result out.new state.new work.new output.new }
{
    commit_as(state, work, output, caller, out, Way::Old)
}

// The same, but a refusal asks for nothing and leaves all as it was.
#[unsafe(no_mangle)]
pub extern "C" fn feqyondil_careful_commit(
    state: &mut [u8],
    work: &mut [u8],
    output: &mut [u8],
    caller: u32,
    out: &mut [u64; 4],
) -> u32
    ensures { Calls (commit careful (caller_of caller) (length output.old)) state.old work.old output.old result out.new state.new work.new output.new }
{
    commit_as(state, work, output, caller, out, Way::Careful)
}

// The whole image of the state that the bytes hold.
fn whole_image_in(state: &[u8], work: &[u8], output: &mut [u8]) -> Result<usize, Refusal>
    ensures { Calls (whole_image (length output.old)) state.now work.now output.old (number_of result) (result_unwrap_or result 0 ∷ []) state.now work.now output.new }
{
    let loaded = state_in(state)?;
    whole_image::serialize(loaded, work, output)
}

// Joins the Valid banks in the output, and says how long they are.
#[unsafe(no_mangle)]
pub extern "C" fn feqyondil_whole_image(
    state: &[u8],
    work: &[u8],
    output: &mut [u8],
    out: &mut [u64; 1],
) -> u32
    ensures { Calls (whole_image (length output.old)) state.now work.now output.old result out.new state.now work.now output.new }
{
    let length = whole_image_in(state, work, output);
    *out = [length.unwrap_or(0) as u64];
    number_of(length)
}
