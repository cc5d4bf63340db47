ghost use Rattle.std.specs.Prelude.{◌≡◌};
ghost use Rattle.crc32.specs.Crc32.{crc32_of};
ghost use Rattle.crc32.specs.Table.{IsTables, crc32_by};

#[unsafe(no_mangle)]
pub extern "C" fn feqyondil_crc32(bytes: &[u8]) -> u32
    ensures { result ≡ crc32_of bytes.now }
{
    crc32::crc32(bytes)
}

#[unsafe(no_mangle)]
pub extern "C" fn feqyondil_crc32_tables(out: &mut [u32; 4096])
    ensures { IsTables 16 out.new }
{
    *out = crc32::tables();
}

#[unsafe(no_mangle)]
pub extern "C" fn feqyondil_crc32_with(t: &[u32; 4096], bytes: &[u8]) -> u32
    ensures { (result ≡ crc32_by t.now bytes.now) × (IsTables 16 t.now → result ≡ crc32_of bytes.now) }
{
    crc32::crc32_with(t, bytes)
}
