// A record: 01, 'Bank and record'.
ghost use Rattle.std.specs.Prelude.{◌≡◌, ◌+◌, ◌≤◌, length};
ghost use Rattle.bank.specs.Record.{var_header_bytes, type_of, guid_of, deleted_state};
ghost use Rattle.bank.specs.Read.{found};
ghost use Rattle.bank.specs.Answer.{step_of, fresh_header, parsed_header};

use super::number::u32_at;
use super::partition::Stop;
use crc32::Tables;

// System by its GUID, else Common.
#[derive(Clone, Copy, PartialEq, Eq)]
pub enum VarType {
    Common,
    System,
}

// A record's 36 bytes in front of name and value. Name size counts the closing byte.
#[derive(Clone, Copy, Default)]
pub struct VarHeader {
    pub state: u8,
    pub attrs: u32,
    pub name_size: u32,
    pub data_size: u32,
    pub guid: [u8; 16],
    pub crc: u32,
}

// The record type: its sizes, states and masks, and what is made without a record at hand.
#[derive(Clone, Copy)]
pub struct Variable;

impl Variable {
    pub const STORE_HEADER_SIZE: usize = 24;

    pub const HEADER_SIZE: usize = 36;

    // With an empty key and no value: the closing byte is there.
    pub const LEAST_SIZE: usize = 37;

    pub const DATA: u16 = 0x55AA;

    pub const ADDED: u8 = 0x7F;

    pub const IN_DELETED_TRANSITION: u8 = 0xFE;

    pub const DELETED: u8 = 0xFD;

    pub const SYSTEM_GUID: [u8; 16] = [
        0x40, 0xA0, 0xDD, 0xD2, 0x77, 0xF8, 0x43, 0x92, 0xB4, 0xA3, 0x1E, 0x73, 0x04, 0x20, 0x65,
        0x16,
    ];

    pub const COMMON_GUID: [u8; 16] = [
        0x7C, 0x43, 0x61, 0x10, 0xAB, 0x2A, 0x4B, 0xBB, 0xA8, 0x80, 0xFE, 0x41, 0x99, 0x5C, 0x9F,
        0x82,
    ];

    // The record size by its two lengths.
    pub fn size(name_size: u32, data_size: u32) -> usize
        ensures { result ≡ 36 + name_size + data_size }
    {
        Variable::HEADER_SIZE + name_size as usize + data_size as usize
    }

    pub fn guid(typ: VarType) -> [u8; 16]
        ensures { result ≡ guid_of typ }
    {
        match typ {
            VarType::Common => Variable::COMMON_GUID,
            VarType::System => Variable::SYSTEM_GUID,
        }
    }

    pub fn typ(guid: &[u8]) -> VarType
        ensures { result ≡ type_of guid.now }
    {
        if buffers::same(guid, &Variable::SYSTEM_GUID) {
            VarType::System
        } else {
            VarType::Common
        }
    }

    // The header of a record that is added: live, the type's GUID.
    pub fn fresh(typ: VarType, attrs: u32, name_size: u32, data_size: u32, crc: u32) -> VarHeader
        ensures { result ≡ fresh_header typ attrs name_size data_size crc }
    {
        let guid = Variable::guid(typ);
        VarHeader {
            state: Variable::ADDED,
            attrs,
            name_size,
            data_size,
            guid,
            crc,
        }
    }

    // The state of a record that is removed: a live one loses the bits of both masks.
    pub fn deleted(state: u8) -> u8
        ensures { result ≡ deleted_state state }
    {
        if state == Variable::ADDED {
            state & Variable::DELETED & Variable::IN_DELETED_TRANSITION
        } else {
            state
        }
    }

    // The size of the record that begins nvr, which is what remains of a bank's 65,536 bytes, or the reason to stop there; t are the checksum's
    // tables. That a header fits is required: an array of its 36 bytes would stand beside the rest, and have
    // the same bytes.
    pub(crate) fn parse(t: &Tables, nvr: &[u8]) -> Result<usize, Stop>
        requires { 36 ≤ length nvr.now }
        ensures { result ≡ step_of (found nvr.now) }
    {
        if buffers::all_blank(&nvr[0..Variable::HEADER_SIZE]) {
            return Err(Stop::Blank);
        }
        if u16::from_le_bytes([nvr[0], nvr[1]]) != Variable::DATA {
            return Err(Stop::Start);
        }
        let header = VarHeader::parse(nvr);
        let end = Variable::size(header.name_size, header.data_size);
        if nvr.len() < end {
            return Err(Stop::Length);
        }
        if header.name_size == 0 {
            return Err(Stop::Name);
        }
        let value = Variable::size(header.name_size, 0);
        if header.crc != t.crc32(&nvr[value..end]) {
            return Err(Stop::Crc);
        }
        Ok(end)
    }
}

impl VarHeader {
    // The header that begins nvr; zeros where fewer than 36 bytes are lent. No Option: each caller has 36 bytes by proof, and its arm for fewer
    // would never run.
    pub fn parse(nvr: &[u8]) -> VarHeader
        ensures { result ≡ parsed_header nvr.now }
    {
        if nvr.len() < Variable::HEADER_SIZE {
            return VarHeader::default();
        }
        let mut guid = [0; 16];
        guid.copy_from_slice(&nvr[16..32]);
        VarHeader {
            state: nvr[2],
            attrs: u32_at(nvr, 4),
            name_size: u32_at(nvr, 8),
            data_size: u32_at(nvr, 12),
            guid,
            crc: u32_at(nvr, 32),
        }
    }

    // The header's bytes, the reserved one 0.
    pub fn serialize(self) -> [u8; Variable::HEADER_SIZE]
        ensures { result ≡ var_header_bytes self.state self.attrs self.name_size self.data_size self.guid self.crc }
    {
        let mut out = [0u8; Variable::HEADER_SIZE];
        out[0..2].copy_from_slice(&Variable::DATA.to_le_bytes());
        out[2] = self.state;
        out[4..8].copy_from_slice(&self.attrs.to_le_bytes());
        out[8..12].copy_from_slice(&self.name_size.to_le_bytes());
        out[12..16].copy_from_slice(&self.data_size.to_le_bytes());
        out[16..32].copy_from_slice(&self.guid);
        out[32..36].copy_from_slice(&self.crc.to_le_bytes());
        out
    }
}
