// Text put into bytes lent.
#![tactic(auto)]

ghost use Rattle.std.specs.Prelude.{◌≡◌, ◌<◌, [], ◌∷◌};
ghost use Rattle.text.specs.Text.{digit as digit_of, hex, decimal, field};
ghost use Rattle.text.specs.Put.{Room, Put};

use itoa::Buffer;

pub const SPACE: u8 = b' ';

pub const FEED: u8 = b'\n';

// std's `char::from_digit` has small letters.
#[tactic(auto, unfolding(crate::specs::Text::digit))]
fn digit(d: u8) -> u8
    requires { d < 16 }
    ensures { result ≡ digit_of d }
{
    if d < 10 { b'0' + d } else { b'A' + (d - 10) }
}

// The bytes lent, and the place behind the text that was put.
#[derive(Drop)]
pub struct Writer<'a> {
    pub out: &'a mut [u8],
    pub at: usize,
}

impl<'a> Writer<'a> {
    // From the front on.
    pub fn new(out: &'a mut [u8]) -> Writer<'a>
        ensures same { result.out.ghost_name ≡ out.entry.ghost_name }
        ensures front { (result.at ≡ 0) × (result.out.now ≡ out.old) }
    {
        Writer { out, at: 0 }
    }

    #[tactic(auto, using(buffers::proofs::OverLaws::over_set))]
    fn put(&mut self, b: u8)
        requires { Room self.old (b ∷ []) }
        ensures { Put self.old self.new (b ∷ []) }
    {
        self.out[self.at] = b;
        self.at += 1;
    }

    #[tactic(auto, using(crate::proofs::PutLaws::over_mid))]
    pub fn put_all(&mut self, text: &[u8])
        requires { Room self.old text.now }
        ensures { Put self.old self.new text.now }
    {
        let end = self.at + text.len();
        self.out[self.at..end].copy_from_slice(text);
        self.at = end;
    }

    // Two digits a byte, and the character behind them. By hand: std's `{:02X}` would want an impl of fmt::Write, and this loop round it.
    pub fn put_hex(&mut self, bytes: &[u8], end: u8)
        requires { Room self.old (field (hex bytes.now) end) }
        ensures { Put self.old self.new (field (hex bytes.now) end) }
    {
        for b in bytes {
            self.put(digit(b / 16));
            self.put(digit(b % 16));
        }
        self.put(end);
    }

    // A number in decimal, and the character behind it.
    pub fn put_number(&mut self, n: u64, end: u8)
        requires { Room self.old (field (decimal n) end) }
        ensures { Put self.old self.new (field (decimal n) end) }
    {
        let mut digits = Buffer::new();
        self.put_all(digits.format(n).as_bytes());
        self.put(end);
    }
}
