// Erase requests by caller.
ghost use Rattle.std.specs.Prelude.{◌≡◌};
ghost use Rattle.state_bytes.specs.State.{read_state};
ghost use Rattle.exports.specs.Store.{tally_number, tally_fields};

use nvram::Nvram;
use refusal::Refusal;
use state_bytes::load;

// The tallies of the state that the bytes hold, and their total.
#[unsafe(no_mangle)]
pub extern "C" fn feqyondil_tally(state: &[u8], out: &mut [u64; 3]) -> u32
    ensures { (result ≡ tally_number (read_state state.now)) × (out.new ≡ tally_fields (read_state state.now)) }
{
    let Some(Nvram { tally, .. }) = load(state) else {
        *out = [0; 3];
        return Refusal::NotSound.number();
    };
    *out = [
        u64::from(tally.clock),
        u64::from(tally.barrel),
        u64::from(tally.total()),
    ];
    0
}
