// The windows, in one walk over the entries of a log that was judged.
ghost use Rattle.std.specs.Prelude.{◌≡◌, ◌+◌, ◌*◌, ◌≤◌, [], ◌∷◌, length};
ghost use Rattle.buffers.specs.Bytes.{over};
ghost use Rattle.leb128.specs.Leb128.{decoded_all};
ghost use Rattle.longest.specs.Longest.{lengths, windows};

use super::ring::{Candidate, Ring};
use run_log::read_entry;

// Puts two numbers for the window that begins with the entry `first`.
fn put_window(out: &mut [u32], first: usize, longest: Candidate)
    requires { 2 * first + 2 ≤ length out.old }
    ensures { out.new ≡ over (2 * first) (longest.seconds ∷ longest.index ∷ []) out.old }
{
    let p = 2 * first;
    out[p] = longest.seconds;
    out[p + 1] = longest.index;
}

// Of so many entries, as far as there are. `first` is the entry with which the window begins that is not full yet.
pub fn slide(s: &[u8], count: usize, window: usize, out: &mut [u32])
    requires { (count ≤ 1024) × (1 ≤ window) × (window ≤ 64) × (length (windows window 0 (lengths (decoded_all (3 * count) s.now))) ≤ length out.old) }
    ensures { out.new ≡ over 0 (windows window 0 (lengths (decoded_all (3 * count) s.now))) out.old }
{
    let mut ring = Ring::new();
    let mut rest = s;
    let mut first: usize = 0;
    for i in 0..count {
        let Ok((entry, size)) = read_entry(rest, 0) else {
            return;
        };
        rest = &rest[size..];
        ring.push(Candidate {
            seconds: entry.seconds,
            index: i as u32,
        });
        if i + 1 - first == window {
            put_window(out, first, ring.oldest());
            ring.leave(first);
            first += 1;
        }
    }
}
