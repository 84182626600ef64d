// Text for programs: put behind what waits in a lent buffer, which is written out when it is full.
// What it is to print stands in specs/Text.antt, the text of a value in Values.antt.

#![tactic(auto)]

ghost use Rattle.std.specs.Prelude.{◌≡◌, [], ◌∷◌, ◌++◌, ◌≤◌, ◌<◌, length, drop};
ghost use Rattle.octets.specs.Writing.{word};
ghost use Rattle.printing.specs.Text.{spelt, digit, pair, is_plain, shown, showing, decimal, filled, signed, truth, refusal};
ghost use Rattle.printing.specs.Pages.{Shows};
ghost use Rattle.printing.specs.Values.{value_text};

use kinds::Value;
use octets::Refused;

// How octets are shown: as they are, as hex digits, or as a string with escapes.
#[derive(Clone, Copy)]
pub enum Show {
    Plain,
    Hex,
    Escaped,
}

// Text that waits in a lent buffer, which is written out when it is full. It is put octet by octet and not by `write!`, of which no clause says what comes out.
#[derive(Drop)]
pub struct Page<'o> {
    pub out: &'o mut [u8],
    // How much waits.
    pub n: usize,
}

// Writes out the first n octets, or all if there are fewer, and leaves them.
fn write_front(out: &mut [u8], n: usize)
    ensures { out.new ≡ out.old }
{
    io::write_all(1, &out[..n.min(out.len())]);
}

// A digit below 16; from 10 on a letter, of which the first is given.
fn digit(ten: u8, d: u8) -> u8
    requires { (d < 16) × (ten < 128) }
    ensures { result ≡ digit ten d }
{
    if d < 10 { b'0' + d } else { ten + (d - 10) }
}

// Whether an octet of a string stands for itself.
fn is_plain(x: u8) -> bool
    ensures { result ≡ is_plain x }
{
    0x21 <= x && x <= 0x7e && x != b'%'
}

// The digits of a number at the end of a text; where they start.
fn spell(text: &mut [u8], v: u64) -> usize
    requires { length text.old ≡ 20 }
    ensures { (result ≤ 20) × (drop result text.new ≡ decimal v) }
{
    let mut left = v;
    for i in (0..20).rev() {
        text[i] = b'0' + (left % 10) as u8;
        if left < 10 {
            return i;
        }
        left = left / 10;
    }
    0
}

impl<'o> Page<'o> {
    // Nothing waits yet.
    pub fn new(out: &'o mut [u8]) -> Page<'o>
        ensures { (result.out ≡ out.entry) × (result.n ≡ 0) }
    {
        Page { out, n: 0 }
    }

    // Writes out what waits.
    pub fn flush(&mut self)
        ensures { self.new ≡ record self.old { n = 0 } }
    {
        let n = self.n;
        write_front(self.out, n);
        self.n = 0;
    }

    // One octet behind what waits; a full buffer is written out first, and without a buffer the octet is.
    pub fn octet(&mut self, x: u8)
        ensures { Shows self.old (x ∷ []) self.new }
    {
        if self.n < self.out.len() {
            self.out[self.n] = x;
            self.n += 1;
            return;
        }
        self.flush();
        if self.out.len() == 0 {
            io::write_all(1, &[x]);
            return;
        }
        self.out[0] = x;
        self.n = 1;
    }

    // An octet as two hex digits.
    fn pair(&mut self, ten: u8, x: u8)
        requires { ten < 128 }
        ensures { Shows self.old (pair ten x) self.new }
    {
        self.octet(digit(ten, x / 16));
        self.octet(digit(ten, x % 16));
    }

    // One octet of a string.
    fn escaped(&mut self, x: u8)
        ensures { Shows self.old (shown Show.Escaped x) self.new }
    {
        if is_plain(x) {
            return self.octet(x);
        }
        self.octet(b'%');
        self.pair(b'A', x);
    }

    // One octet as it is to be shown.
    fn show_one(&mut self, how: Show, x: u8)
        ensures { Shows self.old (shown how x) self.new }
    {
        match how {
            Show::Plain => self.octet(x),
            Show::Hex => self.pair(b'a', x),
            Show::Escaped => self.escaped(x),
        }
    }

    // Octets as they are to be shown.
    pub fn show_all(&mut self, how: Show, xs: &[u8])
        ensures { Shows self.old (showing how xs.now) self.new }
    {
        for i in 0..xs.len() {
            self.show_one(how, xs[i]);
        }
    }

    // A number in decimal.
    pub fn decimal(&mut self, v: u64)
        ensures { Shows self.old (decimal v) self.new }
    {
        let mut text = [0u8; 20];
        let from = spell(&mut text, v);
        self.show_all(Show::Plain, &text[from..]);
    }

    // A number in k digits, with zeros before it; its last k if it has more. Each digit is a call, so k is small.
    pub fn filled(&mut self, k: usize, v: u64)
        requires { k ≤ 20 }
        ensures { Shows self.old (filled k v) self.new }
    {
        if k == 0 {
            return;
        }
        self.filled(k - 1, v / 10);
        self.octet(b'0' + (v % 10) as u8);
    }

    // A signed number in decimal.
    pub fn signed(&mut self, v: i64)
        ensures { Shows self.old (signed v) self.new }
    {
        if v < 0 {
            self.octet(b'-');
        }
        self.decimal(v.unsigned_abs());
    }

    // A word and a number.
    pub fn named(&mut self, word: &[u8], v: u64)
        ensures { Shows self.old (showing Show.Plain word.now ++ decimal v) self.new }
    {
        self.show_all(Show::Plain, word);
        self.decimal(v);
    }

    // The low w octets of a number in hex digits.
    pub fn hex(&mut self, w: usize, v: u64)
        requires { w ≤ 8 }
        ensures { Shows self.old (showing Show.Hex (word w v)) self.new }
    {
        let mut text = [0u8; 8];
        octets::put_number(&mut text, w, v);
        self.show_all(Show::Hex, &text[..w]);
    }

    // A refusal as a line without its end: any number, and a place.
    pub fn refusal(&mut self, number: u32, place: usize)
        ensures { Shows self.old (refusal number place) self.new }
    {
        self.named(b"refused ", u64::from(number));
        self.named(b" ", place as u64);
    }

    // The same of a refusal as it is answered.
    pub fn refused(&mut self, r: Refused)
        ensures { Shows self.old (refusal r.number r.place) self.new }
    {
        self.refusal(r.fault.number(), r.place);
    }

    // A boolean as 0 or 1.
    pub fn truth(&mut self, b: bool)
        ensures { Shows self.old (truth b) self.new }
    {
        self.octet(if b { b'1' } else { b'0' });
    }

    // Bits kept as they are: "x" and the hex digits of their octets.
    fn bits(&mut self, w: usize, v: u64)
        requires { w ≤ 8 }
        ensures { Shows self.old (spelt "x" ++ showing Show.Hex (word w v)) self.new }
    {
        self.octet(b'x');
        self.hex(w, v);
    }

    // A value that is a number; "-" for octets, which stand in the document.
    pub fn value(&mut self, v: Value)
        ensures { Shows self.old (value_text v) self.new }
    {
        match v {
            Value::Int(x) => self.signed(i64::from(x)),
            Value::UnsignedInt(x) => self.decimal(u64::from(x)),
            Value::Long(x) => self.signed(x),
            Value::UnsignedLong(x) => self.decimal(x),
            Value::Float(x) => self.bits(4, u64::from(x)),
            Value::Double(x) => self.bits(8, x),
            Value::HexBinary => self.octet(b'-'),
            Value::String => self.octet(b'-'),
            Value::Boolean(x) => self.truth(x),
            Value::Byte(x) => self.signed(i64::from(x)),
            Value::UnsignedByte(x) => self.decimal(u64::from(x)),
            Value::Short(x) => self.signed(i64::from(x)),
            Value::UnsignedShort(x) => self.decimal(u64::from(x)),
        }
    }
}
