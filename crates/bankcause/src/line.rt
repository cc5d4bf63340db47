// The line that names a cause: request N2.
ghost use Rattle.std.specs.Prelude.{◌≡◌, [], ◌∷◌};
ghost use Rattle.text.specs.Text.{decimal, line};
ghost use Rattle.text.specs.Put.{Room, Put, IsPrefixLen, printed_length, printed_out};
ghost use Rattle.cause.specs.Cause.{cause_of};
ghost use Rattle.bankcause.specs.Line.{cause_line, line_size};

use cause::{Cause, Spot, bank_cause};
use text::{FEED, SPACE, Writer};

// Bytes enough for any line: a word, and two numbers of 10 digits at most.
pub(crate) const OUT: usize = 32;

fn put_spot(w: &mut Writer, spot: Spot)
    requires { Room w.old (line (decimal spot.place ∷ decimal spot.index ∷ [])) }
    ensures { Put w.old w.new (line (decimal spot.place ∷ decimal spot.index ∷ [])) }
{
    w.put_number(spot.place as u64, SPACE);
    w.put_number(spot.index as u64, FEED);
}

#[tactic(auto, unfolding(crate::specs::Line::cause_line, text::specs::Text::field, text::specs::Text::line, text::specs::Text::decimal, text::specs::Text::decimal_by, text::specs::Text::digit))]
fn put_cause(w: &mut Writer, cause: Cause)
    requires { Room w.old (cause_line cause) }
    ensures { Put w.old w.new (cause_line cause) }
{
    match cause {
        Cause::Short => w.put_all(b"short\n"),
        Cause::Empty => w.put_all(b"empty\n"),
        Cause::Signature => w.put_all(b"signature 0\n"),
        Cause::Version => w.put_all(b"version 14\n"),
        Cause::Size => w.put_all(b"size 4\n"),
        Cause::Name(spot) => {
            w.put_all(b"name ");
            put_spot(w, spot);
        }
        Cause::Crc(spot) => {
            w.put_all(b"crc ");
            put_spot(w, spot);
        }
        Cause::Blank => w.put_all(b"blank\n"),
        Cause::Start => w.put_all(b"start\n"),
        Cause::Length => w.put_all(b"length\n"),
        Cause::End => w.put_all(b"end\n"),
    }
}

// The line at the front of out, and its length; 0, and out as it was, where out has fewer than OUT bytes. As banklist's `listing`: one function over
// what is put would want a closure's contract, longer than these lines.
pub(crate) fn cause_line(nvr: &[u8], out: &mut [u8]) -> usize
    ensures prefix_len { IsPrefixLen result out.new }
    ensures value { (result ≡ printed_length line_size (cause_line (cause_of nvr.now)) out.old) × (out.new ≡ printed_out line_size (cause_line (cause_of nvr.now)) out.old) }
{
    if out.len() < OUT {
        return 0;
    }
    let mut w = Writer::new(out);
    put_cause(&mut w, bank_cause(nvr));
    w.at
}
