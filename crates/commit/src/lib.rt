// The commit: 01, 'A commit, from the entry down'; the careful one: 02, N4; and who commits: 02, N7.
#![tactic(auto)]

ghost use Rattle.std.specs.Prelude.{◌≡◌, ◌+◌, ◌≤◌, ◌<◌, length, Ok};
ghost use Rattle.book.specs.Commit.{judge as judge_of, carefully as carefully_of, judge_as, raised as raised_of};
ghost use Rattle.commit.specs.Active.{way_of, verdict, ActiveKnown, SomeMoveDue, Judges, Commits, MoveCommits};

use bank::{Partition, StoreHeader, Variable};
use moving::move_bank;
use nvram::{Nvram, Summary, check};
use refusal::Refusal;
use requests::{Applied, moved, request, write};
use tally::Caller;

// As the Rust commits, or with the live total worked out before a move, so that every refusal asks for nothing and changes nothing. An enum and no
// closure: the claims on runs speak of both.
#[derive(Clone, Copy)]
pub enum Way {
    Old,
    Careful,
}

// What a bank that is not refused is: written where it stands, or moved.
#[derive(Clone, Copy)]
enum Due {
    InPlace,
    Move,
}

// By a bank's header and figures, and whether a move is due.
#[tactic(auto, unfolding(book::specs::Commit::judge))]
fn judge(bank: Summary, due: bool) -> Result<Due, Refusal>
    ensures { verdict result ≡ judge_of bank.header bank.used.system bank.used.common due }
{
    let header = bank.header;
    if (header.system_size as usize) < bank.used.system {
        return Err(Refusal::SystemLimit);
    }
    if (header.common_size as usize) < bank.used.common {
        return Err(Refusal::CommonLimit);
    }
    if !due {
        return Ok(Due::InPlace);
    }
    if header.generation == u32::MAX {
        return Err(Refusal::LastMove);
    }
    Ok(Due::Move)
}

// Refused where a move's live records, with the header, would be over the size.
#[tactic(auto, unfolding(book::specs::Commit::carefully))]
fn carefully(due: Due, live: usize, size: usize) -> Result<Due, Refusal>
    ensures { verdict result ≡ carefully_of live size (verdict (Ok due)) }
{
    match due {
        Due::Move if size < live => Err(Refusal::MovedOver),
        _ => Ok(due),
    }
}

// As an old commit or a careful one is judged.
#[tactic(auto, unfolding(book::specs::Commit::judge_as, book::specs::Commit::carefully))]
fn judge_as(bank: Summary, due: bool, way: Way) -> Result<Due, Refusal>
    requires { 24 + bank.used.live < 18446744073709551616 }
    ensures { verdict result ≡ judge_as (way_of way) bank.header bank.used.system bank.used.common (24 + bank.used.live) due }
{
    let due = judge(bank, due)?;
    match way {
        Way::Old => Ok(due),
        Way::Careful => {
            let live = Variable::STORE_HEADER_SIZE + bank.used.live;
            carefully(due, live, bank.header.size as usize)
        }
    }
}

// Not sound, output short, not valid, then the active bank's own refusals; what is due, and that bank's header.
fn judge_active(
    state: Nvram,
    work: &[u8],
    room: usize,
    way: Way,
) -> Result<(Due, StoreHeader), Refusal>
    ensures { (caller : Caller) → Judges (way_of way) caller state work.now room result }
{
    let active = check(state, work)?;
    if room < Partition::SIZE {
        return Err(Refusal::OutputShort);
    }
    let Some(bank) = active else {
        return Err(Refusal::NotValid);
    };
    let entry = state.banks[state.active as usize];
    let due = judge_as(bank, entry.usable < entry.total, way)?;
    Ok((due, bank.header))
}

// The header of a move's new bank.
fn raised(header: StoreHeader) -> StoreHeader
    requires { header.generation < 4294967295 }
    ensures { result ≡ raised_of header }
{
    StoreHeader {
        generation: header.generation + 1,
        ..header
    }
}

// A commit that moves, of either way. The output may be longer than a bank, and so is no array.
fn move_on(
    state: &mut Nvram,
    work: &mut [u8],
    output: &mut [u8],
    header: StoreHeader,
    caller: Caller,
) -> Applied
    requires { ActiveKnown state.old work.old header × SomeMoveDue state.old work.old × (65536 ≤ length output.old) }
    ensures { MoveCommits caller state.old work.old output.old result state.new work.new output.new }
{
    let active = state.active as usize;
    let part = active * Nvram::PART_SIZE;
    let end = part + state.banks[active].total as usize;
    let next = (active + 1) % state.n as usize;
    let erase = request(state.banks[next].kind, next);
    let records = part + Variable::STORE_HEADER_SIZE..end;
    let total = move_bank(work, records, next * Nvram::PART_SIZE, raised(header));
    moved(state, next, total, header.size, caller, erase);
    let size = header.size as usize;
    let written = if size < total {
        Err(Refusal::MovedOver)
    } else {
        Ok(write(next, work, output, size))
    };
    Applied { erase, written }
}

// What a commit asks of the flash. It leaves the state, the work area and the output as the book's commit does.
pub fn apply(
    state: &mut Nvram,
    work: &mut [u8],
    output: &mut [u8],
    way: Way,
    caller: Caller,
) -> Applied
    ensures { Commits (way_of way) caller state.old work.old output.old result state.new work.new output.new }
{
    match judge_active(*state, work, output.len(), way) {
        Err(refusal) => Applied {
            erase: None,
            written: Err(refusal),
        },
        Ok((Due::InPlace, header)) => {
            let written = write(state.active as usize, work, output, header.size as usize);
            Applied {
                erase: None,
                written: Ok(written),
            }
        }
        Ok((Due::Move, header)) => move_on(state, work, output, header, caller),
    }
}
