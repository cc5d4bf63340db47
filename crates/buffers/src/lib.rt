// Operations on bytes that LLVM makes vector code of: tests by blocks without an early exit inside.
#![tactic(auto)]

ghost use Rattle.std.specs.Prelude.{◌≡◌, length, replicate};
ghost use Rattle.buffers.specs.Bytes.{all_ff, all_blank, count_ff, eq_bytes, onto};

// Large enough for vector code, small enough to leave early.
const BLOCK: usize = 512;

// Smaller where the block that has another byte is read again.
const SHORT: usize = 128;

// As many bytes as are compared in line, with no call: a GUID has as many.
const IN_LINE: usize = 16;

// No early exit, or the loop stays a byte at a time.
fn block_ff(s: &[u8]) -> bool
    ensures { result ≡ all_ff s.now }
{
    s.iter().fold(true, |ok, x| ok & (*x == 255))
}

// Whether each byte is 0xFF.
pub fn all_ff(s: &[u8]) -> bool
    ensures { result ≡ all_ff s.now }
{
    let (blocks, rest) = s.as_chunks::<BLOCK>();
    blocks.iter().all(|block| block_ff(block)) && block_ff(rest)
}

// Whether each byte is 0 or 0xFF. Byte by byte: of a record the first decides.
pub fn all_blank(s: &[u8]) -> bool
    ensures { result ≡ all_blank s.now }
{
    s.iter().all(|x| matches!(*x, 0 | 255))
}

fn lead_bytes(s: &[u8]) -> usize
    ensures { result ≡ count_ff s.now }
{
    s.iter().position(|x| *x != 255).unwrap_or(s.len())
}

// How many bytes 0xFF stand in front.
pub fn lead_ff(s: &[u8]) -> usize
    ensures { result ≡ count_ff s.now }
{
    let (blocks, _) = s.as_chunks::<SHORT>();
    let full = blocks.iter().position(|block| !block_ff(block));
    let at = full.unwrap_or(blocks.len()) * SHORT;
    at + lead_bytes(&s[at..])
}

// No early exit, as in `block_ff`: where the caller's length is a constant, as a GUID's, the loop becomes one comparison.
fn short_same(a: &[u8], b: &[u8]) -> bool
    requires { length a.now ≡ length b.now }
    ensures { result ≡ eq_bytes a.now b.now }
{
    let mut ok = true;
    for i in 0..a.len() {
        ok &= a[i] == b[i];
    }
    ok
}

// Whether both have the same bytes, and as many. Keys mostly differ in length or in the first byte; std's comparison of many is a call.
pub fn same(a: &[u8], b: &[u8]) -> bool
    ensures { result ≡ eq_bytes a.now b.now }
{
    if a.len() != b.len() {
        return false;
    }
    if a.len() == 0 {
        return true;
    }
    if a[0] != b[0] {
        return false;
    }
    if IN_LINE < a.len() {
        return a == b;
    }
    short_same(a, b)
}

pub fn fill_ff(s: &mut [u8])
    ensures { s.new ≡ replicate (length s.old) 255 }
{
    s.fill(255);
}

// Copies as many bytes as both have. By a loop: `copy_from_slice` calls memmove, and of C's functions the library is to call memcpy and memset alone.
pub fn copy(src: &[u8], dst: &mut [u8])
    ensures { dst.new ≡ onto src.now dst.old }
{
    let n = src.len().min(dst.len());
    for i in 0..n {
        dst[i] = src[i];
    }
}
