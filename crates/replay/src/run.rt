// A run: its lines one after the other.
ghost use Rattle.std.specs.Prelude.{◌<◌, ◌≤◌, length};

use super::calls::{
    commit_right, figures_right, insert_right, lookup_right, remove_right, state_right, told,
    value_right, whole_right, work_right,
};
use super::fields::{decimal, field, hex, put_bytes};
use bank::Partition;
use commit::Way;
use nvram::Nvram;
use refusal::number_of;
use variables::Manner;

// A run's name, whether it is right so far, the image's length, and the state.
#[derive(Drop)]
pub(crate) struct Walk<'a> {
    pub(crate) name: &'a [u8],
    pub(crate) right: bool,
    long: usize,
    state: Nvram,
}

// The first byte, or 0.
pub(crate) fn letter(line: &[u8]) -> u8 {
    line.first().copied().unwrap_or(0)
}

// `count` bytes of the image from `from` on: what the text says, then `byte`. The place behind them, if they fit.
fn put_part(image: &mut [u8], from: usize, count: usize, byte: u8, text: &[u8]) -> Option<usize> {
    let e = from.checked_add(count)?;
    let part = image.get_mut(from..e)?;
    part.fill(byte);
    put_bytes(part, 0, text);
    Some(e)
}

// The work area of an image of this length, 131,072 bytes for each bank.
fn area(long: usize, work: &[u8]) -> usize
    ensures { result ≤ length work.now }
{
    let n = long / Partition::SIZE;
    n.saturating_mul(Nvram::PART_SIZE).min(work.len())
}

impl<'a> Walk<'a> {
    // Before the first line: no image and no banks.
    pub(crate) fn new(name: &'a [u8]) -> Walk<'a> {
        Walk {
            name,
            right: true,
            long: 0,
            state: nvram::no_state(),
        }
    }

    // Bytes behind those of the image so far; field k is the byte to fill up with.
    fn part(&mut self, line: &[u8], image: &mut [u8], count: usize, k: usize) -> bool
        requires { k < 16 }
    {
        let byte = (hex(line, k) % 256) as u8;
        let Some(long) = put_part(image, self.long, count, byte, field(line, k + 1)) else {
            return false;
        };
        self.long = long;
        true
    }

    fn open(&mut self, line: &[u8], image: &[u8], work: &mut [u8]) -> bool {
        let Some(image) = image.get(..self.long) else {
            return false;
        };
        let opened = opening::parse(image, work);
        self.state = opened.unwrap_or(nvram::no_state());
        told(line, 1, &[u64::from(number_of(opened))])
    }

    // A line's call, and whether it answers what the line says; a line with # or none at all is for the reader.
    pub(crate) fn step(&mut self, line: &[u8], image: &mut [u8], work: &mut [u8]) {
        let e = area(self.long, work);
        let work = &mut work[..e];
        let state = self.state;
        let right = match letter(line) {
            b'B' => self.part(line, image, Partition::SIZE, 1),
            b'T' => self.part(line, image, decimal(line, 1) as usize, 2),
            b'O' => self.open(line, image, work),
            b'I' => insert_right(&mut self.state, work, line, Manner::Plain),
            b'J' => insert_right(&mut self.state, work, line, Manner::Barrel),
            b'D' => remove_right(state, work, line),
            b'C' => commit_right(&mut self.state, work, line, Way::Old),
            b'K' => commit_right(&mut self.state, work, line, Way::Careful),
            b'L' => lookup_right(state, work, line),
            b'V' => value_right(state, work, line),
            b'F' => figures_right(state, work, line),
            b'A' => whole_right(state, work, line),
            b'S' => state_right(state, line),
            b'W' => work_right(state, work, line),
            0 | b'#' => true,
            _ => false,
        };
        self.right &= right;
    }
}
