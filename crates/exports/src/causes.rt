// Why reading a bank stopped.
ghost use Rattle.std.specs.Prelude.{◌≡◌};
ghost use Rattle.cause.specs.Cause.{cause_of};
ghost use Rattle.exports.specs.Numbers.{cause_number, cause_fields};

use cause::{Cause, bank_cause};

// Two causes carry a place, so that `as` has no number for them.
fn number(cause: Cause) -> u32
    ensures { result ≡ cause_number cause }
{
    match cause {
        Cause::Short => 0,
        Cause::Empty => 1,
        Cause::Signature => 2,
        Cause::Version => 3,
        Cause::Size => 4,
        Cause::Name(_) => 5,
        Cause::Crc(_) => 6,
        Cause::Blank => 7,
        Cause::Start => 8,
        Cause::Length => 9,
        Cause::End => 10,
    }
}

// The first cause met in a bank, and where.
#[unsafe(no_mangle)]
pub extern "C" fn feqyondil_bank_cause(nvr: &[u8], out: &mut [u64; 2]) -> u32
    ensures { (result ≡ cause_number (cause_of nvr.now)) × (out.new ≡ cause_fields (cause_of nvr.now)) }
{
    let cause = bank_cause(nvr);
    let spot = cause.spot();
    *out = [spot.place as u64, spot.index as u64];
    number(cause)
}
