// Numbers below 2^32 in groups of seven bits, lowest first, with the top bit set on all but the last group (unsigned LEB128): 02, N6.
#![tactic(auto)]

ghost use Rattle.std.specs.Prelude.{◌≡◌, ◌+◌, ◌*◌, ◌≤◌, ◌<◌, length};
ghost use Rattle.buffers.specs.Bytes.{over};
ghost use Rattle.leb128.specs.Leb128.{encoded, encoded_all, decoded, decoded_all};

// What is 2^32 and more is no number here.
const LIMIT: u64 = 1 << 32;

// The number in front of `s` and how many bytes it takes; none where it is cut off, not in its shortest form or 2^32 and more.
pub fn decode(s: &[u8]) -> Option<(u32, usize)>
    ensures { result ≡ decoded s.now }
{
    let mut value: u64 = 0;
    let mut scale: u64 = 1;
    for (i, &byte) in s.iter().enumerate() {
        if LIMIT <= scale {
            return None;
        }
        let b = u64::from(byte);
        if b < 128 {
            // Before the test: behind it a log of 1,000 entries takes 1.2 times as long to read.
            let n = value + scale * b;
            if 0 < i && b == 0 {
                return None;
            }
            if LIMIT <= n {
                return None;
            }
            return Some((n as u32, i + 1));
        }
        value += scale * (b - 128);
        scale *= 128;
    }
    None
}

// As many numbers, one after another, as `out` has room for, as far as there are.
pub fn decode_all(s: &[u8], out: &mut [u32])
    ensures { out.new ≡ over 0 (decoded_all (length out.old) s.now) out.old }
{
    let mut rest = s;
    for number in out.iter_mut() {
        let Some((n, k)) = decode(rest) else {
            return;
        };
        *number = n;
        rest = &rest[k..];
    }
}

// How many bytes a number takes.
pub fn encoded_len(n: u32) -> usize
    ensures { (result ≡ length (encoded n)) × (result ≤ 5) }
{
    match n {
        0..0x80 => 1,
        0x80..0x4000 => 2,
        0x4000..0x20_0000 => 3,
        0x20_0000..0x1000_0000 => 4,
        _ => 5,
    }
}

pub fn encoded_len_all(ns: &[u32]) -> usize
    ensures { (result ≡ length (encoded_all ns.now)) × (result ≤ 5 * length ns.now) }
{
    let mut size = 0;
    for &n in ns {
        size += encoded_len(n);
    }
    size
}

// Puts a number from a place on, and answers the place behind it. A `while`: it goes on as long as groups are left; a place, for the next one.
pub fn encode(n: u32, out: &mut [u8], at: usize) -> usize
    requires { at + length (encoded n) ≤ length out.old }
    ensures { (result ≡ at + length (encoded n)) × (out.new ≡ over at (encoded n) out.old) }
{
    let mut p = at;
    let mut left = n;
    while 128 <= left {
        out[p] = (128 + left % 128) as u8;
        left /= 128;
        p += 1;
    }
    out[p] = left as u8;
    p + 1
}

// Puts numbers from a place on, one after another; the place is behind the count.
pub fn encode_all(ns: &[u32], out: &mut [u8], at: usize)
    requires { at + length (encoded_all ns.now) ≤ length out.old }
    ensures { out.new ≡ over at (encoded_all ns.now) out.old }
{
    let mut p = at;
    for &n in ns {
        p = encode(n, out, p);
    }
}
