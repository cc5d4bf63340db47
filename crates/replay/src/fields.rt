// The fields of a line of the list. Nonsense reads as 0 or as nothing.
ghost use Rattle.std.specs.Prelude.{◌<◌, ◌≤◌, length};

// Field k, the letter being field 0.
pub(crate) fn field<'a>(line: &'a [u8], k: usize) -> &'a [u8] {
    line.split(|b| *b == b' ').nth(k).unwrap_or(&[])
}

// Nonsense is 0, which no parser of std says.
fn digit(b: u8) -> u8
    ensures { result < 16 }
{
    match b {
        b'0'..=b'9' => b - b'0',
        b'A'..=b'F' => b - b'A' + 10,
        _ => 0,
    }
}

fn number(s: &[u8], base: u64) -> u64
    requires { base ≤ 16 }
{
    let mut n: u64 = 0;
    for b in s {
        n = n % 4294967296 * base + u64::from(digit(*b));
    }
    n
}

pub(crate) fn decimal(line: &[u8], k: usize) -> u64 {
    number(field(line, k), 10)
}

pub(crate) fn hex(line: &[u8], k: usize) -> u64 {
    number(field(line, k), 16)
}

// The bytes of a text of hexadecimal digits into `out` from `at` on, as far as there is room; the place behind them, where a value goes on.
pub(crate) fn put_bytes(out: &mut [u8], at: usize, text: &[u8]) -> usize
    ensures { result ≤ length out.new }
{
    let p = at.min(out.len());
    let room = &mut out[p..];
    let (pairs, _) = text.as_chunks::<2>();
    let n = room.len().min(pairs.len());
    for (to, [a, b]) in room.iter_mut().zip(pairs) {
        *to = digit(*a) * 16 + digit(*b);
    }
    p + n
}
