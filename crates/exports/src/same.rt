// Two banks compared.
ghost use Rattle.std.specs.Prelude.{◌≡◌};
ghost use Rattle.refusal.specs.Refusal.{number_of};
ghost use Rattle.settings.specs.Same.{compared};
ghost use Rattle.exports.specs.Numbers.{same_field};

use refusal::number_of;
use settings::same_settings;

// Whether two banks hold the same settings.
#[unsafe(no_mangle)]
pub extern "C" fn feqyondil_same_settings(one: &[u8], other: &[u8], out: &mut [u64; 1]) -> u32
    ensures { (result ≡ number_of (compared one.now other.now)) × (out.new ≡ same_field (compared one.now other.now)) }
{
    let same = same_settings(one, other);
    *out = [u64::from(same.unwrap_or(false))];
    number_of(same)
}
