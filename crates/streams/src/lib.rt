// A program that takes a bank from standard input and no argument. What it cannot do it says on standard error.
#![tactic(auto)]

ghost use Rattle.std.specs.Prelude.{◌≡◌, ◌<◌, ◌≤◌, None, IfOk, length, take};
ghost use Rattle.std.specs.Io.KnownBytes.{Consumes, IsAtEnd};

use std::env::{Env, FillError};
use std::io;
use std::io::{Error, IsTerminal, Read};

// How many bytes were read, and the error that ended the reading, where one did. Both: what came before an error was read.
#[derive(Clone, Copy)]
pub struct Filled {
    pub len: usize,
    pub error: Option<Error>,
}

// Reads until the buffer is full, the input ends or a read fails, and puts what it read at the buffer's start. std's `read_exact` would not say how
// much was read.
pub fn read_full<R: Read>(input: &mut R, buf: &mut [u8]) -> Filled
    ensures len { result.len ≤ length buf.new }
    ensures bytes { Consumes (R.remaining input.old) (R.remaining input.new) (take result.len buf.new) }
    ensures end { result.error ≡ None → result.len < length buf.new → IsAtEnd (R.remaining input.new) }
{
    let mut len: usize = 0;
    while len < buf.len() {
        match input.read(&mut buf[len..]) {
            Ok(0) => break,
            Ok(n) => len += n,
            Err(e) => return Filled {
                len,
                error: Some(e),
            },
        }
    }
    Filled { len, error: None }
}

// What the input has up to its end, and how many bytes that is, at most the buffer's. Where it is short of them, a further read says whether the
// input has ended.
fn read_bank<R: Read>(input: &mut R, buf: &mut [u8]) -> io::Result<usize>
    ensures { IfOk result (λ n. (n ≤ length buf.new) × (Consumes (R.remaining input.old) (R.remaining input.new) (take n buf.new) × (n < length buf.new → IsAtEnd (R.remaining input.new)))) }
{
    let read = read_full(input, buf);
    if read.len < buf.len() {
        let mut byte = [0u8; 1];
        if input.read(&mut byte)? != 0 {
            return Err(
                read.error
                    .unwrap_or(Error::other("more came behind its end")),
            );
        }
    }
    Ok(read.len)
}

// Whether an argument stands behind the program's name, however long it is.
fn has_argument(rt: &impl Env) -> bool {
    let mut start = [0u8; 1];
    !matches!(rt.arg(1, &mut start), Err(FillError::NotPresent))
}

// The system's words for an error alone, of a text that may have its number behind them.
fn words(text: &str) -> &str {
    match text.split_once(" (os error ") {
        Some((words, _)) => words,
        None => text,
    }
}

// A line on standard error: what failed, a colon and the system's words for why, or all of the error where there is no memory for less.
fn fail(rt: &HostRuntime, program: &str, stream: &str, error: Error) {
    let _ = match format!(in rt.alloc(); "{error}") {
        Ok(text) => {
            let words = words(text.as_str());
            eprintln!(rt; "{program}: {stream}: {words}")
        }
        Err(_) => eprintln!(rt; "{program}: {stream}: {error}"),
    };
}

// Prints what is said of the bank that standard input begins with. A bank is not typed in, and there is no argument: else the program says how it
// is used.
pub fn run<F: FnOnce(&[u8], &mut [u8]) -> usize>(
    rt: &HostRuntime,
    program: &str,
    usage: &str,
    input: &mut [u8],
    out: &mut [u8],
    say: F,
)
    requires callable { F.IsAlwaysCallable say }
    requires within { (bank : _) (room : _) (k : _) (said : _) → F.post say bank room k said → k ≤ length said.now }
{
    if has_argument(rt) || rt.stdin().is_terminal() {
        let _ = eprint!(rt; "{usage}");
        return;
    }
    let len = match read_bank(&mut rt.stdin(), input) {
        Ok(len) => len,
        Err(e) => return fail(rt, program, "standard input", e),
    };
    let k = say(&input[..len], out);
    if let Err(e) = rt.write_all(&out[..k]) {
        fail(rt, program, "standard output", e);
    }
}
