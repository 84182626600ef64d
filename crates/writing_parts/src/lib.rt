// The parts of a writer's call: numbers as octets, octets laid over the rest of a lent buffer, a row's next field, a layout completed.
// They know nothing of the writer's state: that is writer's. What their answers say stands in specs/Answers.antt.

#![tactic(auto)]

ghost use Rattle.std.specs.Prelude.{◌≡◌, ◌++◌, ℕ, ◌+◌, ◌-◌, ◌^◌, ◌≤◌, min, length, drop, replicate, leb, ltb};
ghost use Rattle.octets.specs.Limits.{longest};
ghost use Rattle.octets.specs.Reading.{ok, be};
ghost use Rattle.octets.specs.Writing.{word, over};
ghost use Rattle.layouts.specs.Layout.{Layout, layout_at};
ghost use Rattle.layouts.specs.Book.{find, book_in, IsBook};
ghost use Rattle.layouts.specs.Answers.{Reads};
ghost use Rattle.rows.specs.Row.{length_image};
ghost use Rattle.writing_parts.specs.Answers.{Puts, Completes, first_of, next_of, learning_of, added};

use kinds::Basic;
use layouts::{Learning, Looked};
use octets::Fault;

// The next field of a row: its layout is not in the book, no field is left, or its basic type. Three answers, so no Option.
#[derive(Clone, Copy)]
pub enum Next {
    Unknown,
    Missing,
    Of(Basic),
}

// A number of four octets.
pub fn word4(v: u64) -> [u8; 4]
    ensures { result ≡ word 4 v }
{
    let mut w = [0u8; 4];
    octets::put_number(&mut w, 4, v);
    w
}

// A number of eight octets.
pub fn word8(v: u64) -> [u8; 8]
    ensures { result ≡ word 8 v }
{
    let mut w = [0u8; 8];
    octets::put_number(&mut w, 8, v);
    w
}

// Two numbers of four octets.
pub fn pair(a: u64, b: u64) -> [u8; 8]
    ensures { result ≡ word 4 a ++ word 4 b }
{
    let mut w = [0u8; 8];
    octets::put_number(&mut w, 4, a);
    octets::lay_number(&mut w, 4, 4, b);
    w
}

// Whether a number fits in w octets.
pub fn fits_octets(n: u64, w: usize) -> bool
    ensures { result ≡ ltb n (256 ^ w) }
{
    let mut left = n;
    for _ in 0..w {
        left = left / 256;
    }
    left == 0
}

// Whether three runs of octets fit where so many are left; their sum might wrap.
pub fn fits(left: usize, a: usize, b: usize, c: usize) -> bool
    ensures { result ≡ leb (a + (b + c)) left }
{
    a <= left && b <= left - a && c <= left - a - b
}

// Three runs of octets laid one behind another from a place on; the place behind them.
pub fn lay3<'h, 'x, 't, 'b>(
    buf: &'b mut [u8],
    at: usize,
    head: &'h [u8],
    body: &'x [u8],
    tail: &'t [u8],
) -> usize
    requires { at + (length head.now + (length body.now + length tail.now)) ≤ length buf.old }
    ensures { (result ≡ at + length (head.now ++ (body.now ++ tail.now))) × (buf.new ≡ over buf.old at (head.now ++ (body.now ++ tail.now))) }
{
    let a = octets::lay(buf, at, head);
    let b = octets::lay(buf, a, body);
    octets::lay(buf, b, tail)
}

// The room in a buffer of so many octets.
pub fn room_of(len: usize) -> usize
    ensures { result ≡ min len longest }
{
    len.min(octets::LONGEST)
}

// Three runs of octets put one behind another at a place, where they fit in the room; the place behind them.
pub fn put_runs<'b, 'h, 'x, 't>(
    buf: &'b mut [u8],
    at: usize,
    head: &'h [u8],
    body: &'x [u8],
    tail: &'t [u8],
) -> Option<usize>
    requires { at ≤ min (length buf.old) longest }
    ensures { Puts buf.old buf.new at (head.now ++ (body.now ++ tail.now)) result }
{
    let room = room_of(buf.len());
    if !fits(room - at, head.len(), body.len(), tail.len()) {
        return None;
    }
    Some(lay3(buf, at, head, body, tail))
}

// So many octets of zero laid over a lent buffer from a place on.
pub fn lay_zeros(buf: &mut [u8], at: usize, n: usize)
    requires { at + n ≤ length buf.old }
    ensures { buf.new ≡ over buf.old at (replicate n 0) }
{
    buf[at..at + n].fill(0);
}

// Field n of the layout at a place that is known to be accepted.
fn next_at(s: &[u8], at: usize, n: u32) -> Next
    requires { (length s.now ≤ longest) × Reads s.now at }
    ensures { (l : Layout) (end : ℕ) → layout_at s.now at ≡ ok l end → result ≡ first_of (drop n l.attributes) }
{
    if layouts::attribute_count(s, at) <= n {
        return Next::Missing;
    }
    let kind = layouts::attribute_kind(s, at, n);
    Next::Of(kind.basic)
}

// Field n of the layout of a number.
pub fn next_of(book: &[u8], used: usize, number: u32, n: u32) -> Next
    requires { IsBook book.now used }
    ensures { result ≡ next_of (find number (book_in book.now used)) n }
{
    match layouts::find(book, used, number) {
        Looked::There(p) => next_at(&book[..used], p, n),
        Looked::Missing(k) => Next::Unknown,
    }
}

// Field n of the row that starts at a place of a buffer, by the number of its layout that stands there.
pub fn row_next<'b, 'k>(buf: &'b [u8], start: usize, book: &'k [u8], used: usize, n: u32) -> Next
    requires { (start + 8 ≤ length buf.now) × IsBook book.now used }
    ensures { result ≡ next_of (find (be 4 buf.now (start + 4)) (book_in book.now used)) n }
{
    next_of(book, used, octets::u32_at(buf, start + 4), n)
}

// A row's length: stated by so many octets, or the four octets FF.
pub fn length_octets(stated: bool, size: usize) -> [u8; 4]
    ensures { result ≡ length_image stated size }
{
    if stated {
        word4(size as u64)
    } else {
        octets::OPEN
    }
}

// The length of the row that starts at a place and ends at another, laid where it stands; one that is not stated stays so.
pub fn lay_length(buf: &mut [u8], start: usize, end: usize)
    requires { (start + 12 ≤ end) × (end ≤ length buf.old) }
    ensures { buf.new ≡ over buf.old (start + 8) (length_image (ltb (be 4 buf.old (start + 8)) 0xffffffff) (end - (start + 12))) }
{
    let stands = octets::u32_at(buf, start + 8);
    let size = length_octets(stands < 0xffff_ffff, end - (start + 12));
    octets::lay(buf, start + 8, &size);
}

// What a book makes of a layout's octets, two runs one behind the other, by the number that they begin with.
pub fn meet<'b, 'f, 'l>(
    book: &'b [u8],
    used: usize,
    front: &'f [u8],
    last: &'l [u8],
) -> Result<Learning, Fault>
    requires { IsBook book.now used × (4 ≤ length front.now) }
    ensures { result ≡ learning_of (book_in book.now used) used (front.now ++ last.now) }
{
    let looked = layouts::find(book, used, octets::u32_at(front, 0));
    layouts::judge_runs(front, last, &book[..used], looked, used)
}

// A layout that is new laid behind the used octets; the used count. Of one that the book knows or refuses nothing is laid.
pub fn enter<'b, 'f, 'l>(
    book: &'b mut [u8],
    used: usize,
    learning: Result<Learning, Fault>,
    front: &'f [u8],
    last: &'l [u8],
) -> usize
    requires { used + length (added learning (front.now ++ last.now)) ≤ length book.old }
    ensures { (result ≡ used + length (added learning (front.now ++ last.now))) × (book.new ≡ over book.old used (added learning (front.now ++ last.now))) }
{
    let Ok(taken) = learning else {
        return used;
    };
    match taken {
        Learning::Known => used,
        Learning::New(v) => lay3(book, used, front, last, b""),
    }
}

// The octets that complete the layout whose number stands at a place: 10 and 11, then 23, else the octets and the layout in the book; the place behind them, and the used count.
pub fn complete<'b, 'k, 'l>(
    buf: &'b mut [u8],
    book: &'k mut [u8],
    used: usize,
    from: usize,
    at: usize,
    last: &'l [u8],
) -> Result<(usize, usize), Fault>
    requires { IsBook book.old used × (from + 4 ≤ at) × (at ≤ min (length buf.old) longest) }
    ensures { Completes buf.old buf.new book.old book.new used from at last.now result }
{
    let learning = meet(book, used, &buf[from..at], last)?;
    let room = room_of(buf.len());
    if room - at < last.len() {
        return Err(Fault::NoRoom);
    }
    let total = enter(book, used, Ok(learning), &buf[from..at], last);
    let next = octets::lay(buf, at, last);
    Ok((next, total))
}
