// Replays the runs of standard input on the store and compares with the answers of the original Rust: a line a run, then the count.
// The list says its own format, and how it was made.
#![tactic(auto)]

mod calls;
mod fields;
mod run;

use fields::field;
use run::{Walk, letter};
use score::Score;
use std::io;
use streams::read_full;

// How a run that is over came out, if there is one.
fn end(rt: &impl Print, walk: Option<Walk>, score: Score) -> io::Result<Score> {
    let Some(Walk { name, right, .. }) = walk else {
        return Ok(score);
    };
    if right {
        rt.write_all(b"right ")?;
    } else {
        rt.write_all(b"WRONG ")?;
    }
    rt.write_all(name)?;
    rt.write_all(b"\n")?;
    Ok(score.add(right))
}

// Every run of the text; what stands before the first is for the reader.
fn replay(rt: &impl Print, text: &[u8], image: &mut [u8], work: &mut [u8]) -> io::Result<Score> {
    let mut score = Score::default();
    let mut walk: Option<Walk> = None;
    for line in text.split(|b| *b == b'\n') {
        if letter(line) == b'R' {
            score = end(rt, walk, score)?;
            walk = Some(Walk::new(field(line, 1)));
        } else if let Some(walk) = &mut walk {
            walk.step(line, image, work);
        }
    }
    end(rt, walk, score)
}

fn main(rt: HostRuntime) -> io::Result<()> {
    let mut text = [0u8; 65536];
    let mut image = [0u8; 262144];
    let mut work = [0u8; 393216];
    let read = read_full(&mut rt.stdin(), &mut text);
    if let Some(e) = read.error {
        return Err(e);
    }
    let score = replay(&rt, &text[..read.len], &mut image, &mut work)?;
    score.print(&mut io::writer(&rt))
}
