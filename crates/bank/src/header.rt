// The header of a bank: 01, 'Bank and record'.
ghost use Rattle.std.specs.Prelude.{◌≡◌};
ghost use Rattle.bank.specs.Header.{header_bytes, read_header};

use super::number::u32_at;
use super::variable::Variable;

// That its size is of one bank is a fact of what `parse` gives, and no ghost field: the definitions make headers of any size.
#[derive(Clone, Copy, PartialEq, Eq)]
pub struct StoreHeader {
    pub size: u32,
    pub generation: u32,
    pub state: u8,
    pub flags: u8,
    pub system_size: u32,
    pub common_size: u32,
}

// Why the first 24 bytes of a bank are no header: the first fault met.
#[derive(Clone, Copy, PartialEq, Eq)]
pub enum HeaderFault {
    Signature,
    Version,
    Size,
}

impl StoreHeader {
    pub const SIGNATURE: [u8; 4] = *b"3VVN";

    pub const VERSION: u8 = 1;

    // A size is of one bank.
    pub const MOST_SIZE: u32 = 65536;

    pub fn parse(nvr: &[u8]) -> Result<StoreHeader, HeaderFault>
        ensures { result ≡ read_header nvr.now }
    {
        if nvr.len() < Variable::STORE_HEADER_SIZE {
            return Err(HeaderFault::Signature);
        }
        if !nvr.starts_with(&StoreHeader::SIGNATURE) {
            return Err(HeaderFault::Signature);
        }
        if nvr[14] != StoreHeader::VERSION {
            return Err(HeaderFault::Version);
        }
        let size = u32_at(nvr, 4);
        if size < Variable::STORE_HEADER_SIZE as u32 || StoreHeader::MOST_SIZE < size {
            return Err(HeaderFault::Size);
        }
        Ok(StoreHeader {
            size,
            generation: u32_at(nvr, 8),
            state: nvr[12],
            flags: nvr[13],
            system_size: u32_at(nvr, 16),
            common_size: u32_at(nvr, 20),
        })
    }

    // The header's bytes, the reserved one 0.
    pub fn serialize(self) -> [u8; Variable::STORE_HEADER_SIZE]
        ensures { result ≡ header_bytes self }
    {
        let mut out = [0u8; Variable::STORE_HEADER_SIZE];
        out[0..4].copy_from_slice(&StoreHeader::SIGNATURE);
        out[4..8].copy_from_slice(&self.size.to_le_bytes());
        out[8..12].copy_from_slice(&self.generation.to_le_bytes());
        out[12] = self.state;
        out[13] = self.flags;
        out[14] = StoreHeader::VERSION;
        out[16..20].copy_from_slice(&self.system_size.to_le_bytes());
        out[20..24].copy_from_slice(&self.common_size.to_le_bytes());
        out
    }
}
