// The sixteen tables as a value, whose type says that they follow the rule.
ghost use Rattle.std.specs.Prelude.{◌≡◌};
ghost use Rattle.crc32.specs.Crc32.{crc32_of};
ghost use Rattle.crc32.specs.Table.{IsTables};

#[derive(Drop)]
pub struct Tables<'a> {
    entries: &'a [u32; 4096],
    pub ghost rule: { IsTables 16 entries.now },
}

impl<'a> Tables<'a> {
    pub fn new() -> Self
        ensures { IsTables 16 result.entries.now }
    {
        Tables {
            entries: crate::rows(),
        }
    }

    // Those of a caller that has some.
    pub fn of(entries: &'a [u32; 4096]) -> Self
        requires { IsTables 16 entries.now }
        ensures { result.entries.now ≡ entries.now }
    {
        Tables { entries }
    }

    pub fn crc32(&self, bytes: &[u8]) -> u32
        ensures { result ≡ crc32_of bytes.now }
    {
        crate::crc32_with(self.entries, bytes)
    }
}
