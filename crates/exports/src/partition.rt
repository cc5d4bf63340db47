ghost use Rattle.std.specs.Prelude.{◌≡◌};
ghost use Rattle.bank.specs.Answer.{parsed, serialized_slot, serialized_part};
ghost use Rattle.exports.specs.Numbers.{slot_number, slot_fields};

use bank::{Partition, Slot};

// The numbers that C is told.
fn number(slot: Option<Slot>) -> u32
    ensures { result ≡ slot_number slot }
{
    match slot {
        None => 0,
        Some(Slot::Empty) => 1,
        Some(Slot::Invalid) => 2,
        Some(Slot::Valid(_)) => 3,
    }
}

fn fields(slot: Option<Slot>) -> [u64; 8]
    ensures { result ≡ slot_fields slot }
{
    let Some(Slot::Valid(p)) = slot else {
        return [0; 8];
    };
    let header = p.header;
    [
        u64::from(header.size),
        u64::from(header.generation),
        u64::from(header.state),
        u64::from(header.flags),
        u64::from(header.system_size),
        u64::from(header.common_size),
        p.total_used as u64,
        p.usable_size as u64,
    ]
}

// A bank's kind, and its fields.
#[unsafe(no_mangle)]
pub extern "C" fn feqyondil_partition_parse(nvr: &[u8], out: &mut [u64; 8]) -> u32
    ensures { (result ≡ slot_number (parsed nvr.now)) × (out.new ≡ slot_fields (parsed nvr.now)) }
{
    let slot = Partition::parse(nvr);
    *out = fields(slot);
    number(slot)
}

// The same, and the bank as it would be written.
#[unsafe(no_mangle)]
pub extern "C" fn feqyondil_partition_serialize(
    nvr: &[u8],
    part: &mut [u8],
    out: &mut [u64; 8],
) -> u32
    ensures { (result ≡ slot_number (serialized_slot nvr.now part.old)) × (part.new ≡ serialized_part nvr.now part.old) × (out.new ≡ slot_fields (serialized_slot nvr.now part.old)) }
{
    let slot = Partition::serialize(nvr, part);
    *out = fields(slot);
    number(slot)
}
