// Numbers and octets: read at a place, compared where they stand, put into the rest of a lent buffer. Octets behind a length are in texts.
// What octets mean stands in specs/Reading.antt, their image in Writing.antt, the limits in Limits.antt; what is asked of a reading in Asked.antt, and of a contract in Contracts.antt.

#![tactic(auto)]

ghost use Rattle.std.specs.Prelude.{ℕ, ◌≡◌, ◌++◌, ◌+◌, ◌≤◌, ◌<◌, length, drop};
ghost use Rattle.octets.specs.Limits.{longest};
ghost use Rattle.octets.specs.Reading.{Read, run, reach, overrun, be, same, ends, number_in, count};
ghost use Rattle.octets.specs.Writing.{word, over};
ghost use Rattle.octets.specs.Runs.{Finds, FindsFrom};
ghost use Rattle.octets.specs.Answers.{says, counts, Within, CountWithin};

use std::marker::Model;

// The most octets of a document, and the most rows that a step may be told. That octets are no more is a clause where they are read, and no type: of a type with a lifetime a clause names two moments, and is longer.
pub const LONGEST: usize = 1048576;

pub const MOST_ROWS: usize = 1048576;

// A book: at least so many octets are lent for it, and at most so many used; the most layouts in it.
pub const BOOK_ROOM: usize = 32768;

pub const MOST_LAYOUTS: usize = 64;

// The most attributes of a layout, and the most items of each of the header's lists.
pub const MOST_ATTRIBUTES: u32 = 64;

pub const MOST_LISTED: u32 = 16;

// The four octets that stand where a count of elements would, and where a row's length is unstated.
pub const OPEN: [u8; 4] = *b"\xff\xff\xff\xff";

// Why input is refused, as the scope lists it; its number there is `number`.
#[derive(Clone, Copy, Debug, PartialEq, Eq)]
pub enum Fault {
    CutShort,
    TooLong,
    Version,
    Count,
    Id,
    Open,
    Kind,
    Type,
    UserType,
    Differs,
    BookFull,
    NoLayout,
    RowLength,
    Boolean,
    EndCount,
    AfterEnd,
    Lent,
    NotThere,
    OtherKind,
    OutOfTurn,
    Value,
    Unfinished,
    NoRoom,
    NotUtf8,
}

// A refusal: the fault, and its place. A clause sees its number and place.
#[derive(Clone, Copy, PartialEq, Eq)]
pub struct Refused {
    pub fault: Fault,
    pub place: usize,
}

impl Model for Refused {
    ghost use Rattle.octets.specs.Refusals.{Refusal};

    ghost Value = { Refusal };

    ghost use Rattle.octets.specs.Faults.{number_of, fault_of};

    ghost view = { λ r. record { number = number_of r.fault; place = r.place } };

    ghost inverse = { λ v. record { fault = fault_of v.number; place = v.place } };

    ghost use Rattle.octets.specs.Faults.{inverse_ok};

    ghost inverse_ok = { inverse_ok };
}

impl Fault {
    ghost use Rattle.octets.specs.Faults.{number_of};

    // The number that the scope gives it.
    pub fn number(self) -> u32
        ensures { result ≡ number_of self }
    {
        match self {
            Fault::CutShort => 1,
            Fault::TooLong => 2,
            Fault::Version => 3,
            Fault::Count => 4,
            Fault::Id => 5,
            Fault::Open => 6,
            Fault::Kind => 7,
            Fault::Type => 8,
            Fault::UserType => 9,
            Fault::Differs => 10,
            Fault::BookFull => 11,
            Fault::NoLayout => 12,
            Fault::RowLength => 13,
            Fault::Boolean => 14,
            Fault::EndCount => 15,
            Fault::AfterEnd => 16,
            Fault::Lent => 17,
            Fault::NotThere => 18,
            Fault::OtherKind => 19,
            Fault::OutOfTurn => 20,
            Fault::Value => 21,
            Fault::Unfinished => 22,
            Fault::NoRoom => 23,
            Fault::NotUtf8 => 24,
        }
    }
}

// How far a field may reach: to the document's end, or to the end of a row whose length is stated, with the place of that length.
#[derive(Clone, Copy)]
pub enum Room {
    Document,
    Stated(usize, usize),
}

// The number that one octet spells. Each width has its function, which answers its own type: of one over the width every caller would cast the answer.
pub fn u8_at(s: &[u8], at: usize) -> u8
    requires { at + 1 ≤ length s.now }
    ensures { result ≡ be 1 s.now at }
{
    s[at]
}

// The number that two octets spell.
pub fn u16_at(s: &[u8], at: usize) -> u16
    requires { at + 2 ≤ length s.now }
    ensures { result ≡ be 2 s.now at }
{
    (u32::from(s[at]) * 256 + u32::from(s[at + 1])) as u16
}

// The number that four octets spell.
pub fn u32_at(s: &[u8], at: usize) -> u32
    requires { at + 4 ≤ length s.now }
    ensures { result ≡ be 4 s.now at }
{
    let a = u32::from(s[at]);
    let b = u32::from(s[at + 1]);
    let c = u32::from(s[at + 2]);
    let d = u32::from(s[at + 3]);
    ((a * 256 + b) * 256 + c) * 256 + d
}

// The number that eight octets spell.
pub fn u64_at(s: &[u8], at: usize) -> u64
    requires { at + 8 ≤ length s.now }
    ensures { result ≡ be 8 s.now at }
{
    let high = u64::from(u32_at(s, at));
    let low = u64::from(u32_at(s, at + 4));
    high * 4294967296 + low
}

// How far a room reaches.
pub fn reach(room: Room, s: &[u8]) -> usize
    ensures { result ≡ reach room s.now }
{
    match room {
        Room::Document => s.len(),
        Room::Stated(end, length_at) => end,
    }
}

// The refusal of a field that passes the end of its room.
pub fn overrun(room: Room, at: usize) -> Refused
    ensures { says (Err result) ≡ overrun room at }
{
    match room {
        Room::Document => Refused {
            fault: Fault::CutShort,
            place: at,
        },
        Room::Stated(end, length_at) => Refused {
            fault: Fault::RowLength,
            place: length_at,
        },
    }
}

// The place behind a number of so many octets. A field may be asked for at any place up to 2^32, past the end too; no sum wraps there.
pub fn number_end(s: &[u8], at: usize, room: Room, w: usize) -> Result<usize, Refused>
    requires { (at ≤ 4294967296) × (reach room s.now ≤ length s.now) × (length s.now ≤ longest) × (w ≤ 8) }
    ensures { (says result ≡ ends (number_in room w s.now at)) × Within at result (reach room s.now) }
{
    if reach(room, s) < at + w {
        return Err(overrun(room, at));
    }
    Ok(at + w)
}

// The count at a place, which is at most a limit.
pub fn count_at(s: &[u8], at: usize, most: u32) -> Result<(u32, usize), Refused>
    requires { (at ≤ length s.now) × (length s.now ≤ longest) }
    ensures { (counts result ≡ count most s.now at) × CountWithin at result (length s.now) }
{
    if s.len() < at + 4 {
        return Err(Refused {
            fault: Fault::CutShort,
            place: at,
        });
    }
    let n = u32_at(s, at);
    if most < n {
        return Err(Refused {
            fault: Fault::Count,
            place: at,
        });
    }
    Ok((n, at + 4))
}

// The place behind so many things that stand one behind another, each as what is passed finds its end.
pub fn run_end<F: Fn(usize) -> Result<usize, Refused>>(
    at: usize,
    count: u32,
    one: F,
) -> Result<usize, Refused>
    requires { FindsFrom (F.pre one) (F.post one) at }
    ensures { (end : ℕ) (f : ℕ → Read ℕ) → at ≤ end → Finds (F.pre one) (F.post one) end f → (says result ≡ ends (run f count at)) × Within at result end }
{
    let mut pos = at;
    for _ in 0..count {
        pos = one(pos)?;
    }
    Ok(pos)
}

// Whether two runs of octets are equal, compared where they stand.
pub fn octets_same<'a, 'b>(a: &'a [u8], b: &'b [u8]) -> bool
    ensures { result ≡ same a.now b.now }
{
    if a.len() != b.len() {
        return false;
    }
    for i in 0..a.len() {
        if a[i] != b[i] {
            return false;
        }
    }
    true
}

// Octets put at the start of the rest that is lent.
pub fn copy_in<'a, 'b>(xs: &'a [u8], rest: &'b mut [u8])
    requires { length xs.now ≤ length rest.old }
    ensures { rest.new ≡ xs.now ++ drop (length xs.now) rest.old }
{
    for i in 0..xs.len() {
        rest[i] = xs[i];
    }
}

// A number put as w octets at the start of the rest that is lent.
pub fn put_number(rest: &mut [u8], w: usize, v: u64)
    requires { w ≤ length rest.old }
    ensures { rest.new ≡ word w v ++ drop w rest.old }
{
    let mut left = v;
    for i in (0..w).rev() {
        rest[i] = (left % 256) as u8;
        left = left / 256;
    }
}

// Octets laid over a lent buffer from a place on; the place behind them.
pub fn lay<'a, 'b>(buf: &'b mut [u8], at: usize, xs: &'a [u8]) -> usize
    requires { at + length xs.now ≤ length buf.old }
    ensures { (result ≡ at + length xs.now) × (buf.new ≡ over buf.old at xs.now) }
{
    copy_in(xs, &mut buf[at..]);
    at + xs.len()
}

// A number of w octets laid over a lent buffer from a place on; the place behind it.
pub fn lay_number(buf: &mut [u8], at: usize, w: usize, v: u64) -> usize
    requires { at + w ≤ length buf.old }
    ensures { (result ≡ at + w) × (buf.new ≡ over buf.old at (word w v)) }
{
    put_number(&mut buf[at..], w, v);
    at + w
}
