// CRC-32 of IEEE 802.3: four or sixteen bytes a turn by as many tables of 256, and what is left over a byte at a time by the first.
#![tactic(auto)]

mod lent;
mod table;

ghost use Rattle.std.specs.Prelude.{◌≡◌, ◌+◌, ◌*◌, ◌<◌, ◌≤◌, drop};
ghost use Rattle.crc32.specs.Crc32.{crc32_of};
ghost use Rattle.crc32.specs.Table.{IsTables, table_entry, by_bytes, shares, block, by_words, by_blocks, crc32_by};

pub use lent::Tables;
use table::TABLE;

// Start and final exclusive-or.
const ONES: u32 = 0xFFFF_FFFF;

// Any tables, as C lends them, and so no `Tables`, here and below.
fn look(t: &[u32; 4096], row: usize, n: u32) -> u32
    requires { row < 16 }
    ensures { result ≡ table_entry t.now row n }
{
    t[row * 256 + (n & 0xff) as usize]
}

fn by_bytes(t: &[u32; 4096], start: u32, bytes: &[u8]) -> u32
    ensures { result ≡ by_bytes t.now start bytes.now }
{
    bytes.iter().fold(start, |crc, byte| {
        look(t, 0, crc ^ u32::from(*byte)) ^ (crc >> 8)
    })
}

// What the twelve bytes that end a block add.
fn late_bytes(t: &[u32; 4096], bytes: &[u8; 16]) -> u32
    ensures { result ≡ shares t.now 0 0 (drop 4 bytes.now) }
{
    let mut acc: u32 = 0;
    for i in 4..16 {
        acc ^= look(t, 15 - i, u32::from(bytes[i]));
    }
    acc
}

// What four bytes add with `after` bytes behind them, the register joined to them.
fn early_bytes(t: &[u32; 4096], after: usize, crc: u32, word: &[u8; 4]) -> u32
    requires { after ≤ 12 }
    ensures { result ≡ shares t.now after crc word.now }
{
    let x = crc ^ u32::from_le_bytes(*word);
    look(t, after + 3, x)
        ^ look(t, after + 2, x >> 8)
        ^ look(t, after + 1, x >> 16)
        ^ look(t, after, x >> 24)
}

fn by_block(t: &[u32; 4096], crc: u32, bytes: &[u8; 16]) -> u32
    ensures { result ≡ block t.now crc bytes.now }
{
    let (words, _) = bytes.as_chunks::<4>();
    late_bytes(t, bytes) ^ early_bytes(t, 12, crc, &words[0])
}

fn by_words(t: &[u32; 4096], start: u32, bytes: &[u8]) -> u32
    ensures { result ≡ by_words t.now start bytes.now }
{
    let (words, rest) = bytes.as_chunks::<4>();
    let crc = words
        .iter()
        .fold(start, |crc, word| early_bytes(t, 0, crc, word));
    by_bytes(t, crc, rest)
}

// Not one function with `by_words`: it would take two closures, and clauses on both.
fn by_blocks(t: &[u32; 4096], start: u32, bytes: &[u8]) -> u32
    ensures { result ≡ by_blocks t.now start bytes.now }
{
    let (blocks, rest) = bytes.as_chunks::<16>();
    let crc = blocks
        .iter()
        .fold(start, |crc, block| by_block(t, crc, block));
    by_words(t, crc, rest)
}

fn rows() -> &'static [u32; 4096]
    ensures { IsTables 16 result.now }
{
    &TABLE
}

// The sixteen tables, for a caller that lends them.
pub fn tables() -> [u32; 4096]
    ensures { IsTables 16 result }
{
    *rows()
}

// By lent tables. Any tables have a defined result; those of `tables` give the CRC-32. Short values go without a call of `by_blocks`.
pub fn crc32_with(t: &[u32; 4096], bytes: &[u8]) -> u32
    ensures { (result ≡ crc32_by t.now bytes.now) × (IsTables 16 t.now → result ≡ crc32_of bytes.now) }
{
    if bytes.len() < 16 {
        return by_words(t, ONES, bytes) ^ ONES;
    }
    by_blocks(t, ONES, bytes) ^ ONES
}

pub fn crc32(bytes: &[u8]) -> u32
    ensures { result ≡ crc32_of bytes.now }
{
    crc32_with(rows(), bytes)
}
