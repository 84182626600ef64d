// What both halves of the probe stand on: a command's arguments, read from standard input through a lent buffer, and words of a line.

#![tactic(auto)]

ghost use Rattle.std.specs.Prelude.{◌≡◌, ◌*◌, ◌%◌, ◌^◌, take};
ghost use Rattle.std.proofs.lemmas.List.Edits.{sets};
ghost use Rattle.printing.specs.Pages.{Shows};
ghost use Rattle.probe_input.specs.Words.{checksum, part_text, sum_text};

use printing::{Page, Show};
use std::io::Read;
use std::rt::Stdin;

// Which octets of the buffer are still to be taken.
#[derive(Clone, Copy)]
pub struct Feed {
    pub at: usize,
    pub filled: usize,
}

// A command's numbers; 0 where it has fewer.
#[derive(Clone, Copy)]
pub struct Args {
    pub one: u64,
    pub two: u64,
    pub three: u64,
    pub four: u64,
    pub five: u64,
}

// A command's numbers, how many octets it has, and what is to be taken behind it.
#[derive(Clone, Copy)]
pub struct Given {
    pub args: Args,
    pub count: u64,
    pub behind: Feed,
}

// The first octet that one read brings. A failed read counts as the end.
fn more(input: Stdin, buf: &mut [u8; 4096]) -> Option<(u8, Feed)> {
    let mut from = input;
    let n = from.read(buf).unwrap_or(0);
    if n == 0 {
        return None;
    }
    Some((buf[0], Feed { at: 1, filled: n }))
}

// The next octet, if the input has not ended.
pub fn letter(input: Stdin, buf: &mut [u8; 4096], feed: Feed) -> Option<(u8, Feed)> {
    let at = feed.at;
    if feed.filled <= at || 4096 <= at {
        return more(input, buf);
    }
    Some((buf[at], Feed { at: at + 1, ..feed }))
}

fn store(to: &mut [u8], i: usize, x: u8) {
    if i < to.len() {
        to[i] = x;
    }
}

// So many octets, of which a lent slice takes as many as it has room for.
fn fill(input: Stdin, buf: &mut [u8; 4096], feed: Feed, to: &mut [u8], n: u64) -> Option<Feed> {
    let mut at = feed;
    for i in 0..n {
        let (x, rest) = letter(input, buf, at)?;
        store(to, i as usize, x);
        at = rest;
    }
    Some(at)
}

// A number of eight octets.
fn number(input: Stdin, buf: &mut [u8; 4096], feed: Feed) -> Option<(u64, Feed)> {
    let mut eight = [0u8; 8];
    let rest = fill(input, buf, feed, &mut eight, 8)?;
    Some((octets::u64_at(&eight, 0), rest))
}

// The first numbers of five, as many as are wanted.
fn numbers(
    input: Stdin,
    buf: &mut [u8; 4096],
    feed: Feed,
    to: &mut [u64; 5],
    n: usize,
) -> Option<Feed> {
    let mut at = feed;
    for i in 0..n {
        let (x, rest) = number(input, buf, at)?;
        if i < 5 {
            to[i] = x;
        }
        at = rest;
    }
    Some(at)
}

// How many numbers stand before a command's octets.
fn before(letter: u8) -> usize {
    match letter {
        b'S' => 5,
        b'f' | b'a' => 4,
        b's' | b'y' => 3,
        b't' | b'o' | b'v' => 2,
        b'N' | b'P' | b'2' | b'4' | b'7' | b'k' | b'c' | b'u' | b'e' => 1,
        _ => 0,
    }
}

// The most octets of a command, if it takes any: what is put into the buffer may be longer than it.
fn most_of(letter: u8) -> Option<u64> {
    match letter {
        b'B' | b'W' => Some(40000),
        b'P' => Some(u64::MAX),
        b'D' | b'v' | b'm' | b'n' => Some(65600),
        // The strings of the header.
        b'1' | b'3' | b'5' | b'6' | b'8' | b'9' => Some(65600),
        _ => None,
    }
}

// Octets behind their length, at most so many.
fn take(
    input: Stdin,
    buf: &mut [u8; 4096],
    feed: Feed,
    to: &mut [u8],
    most: u64,
) -> Option<(u64, Feed)> {
    let (n, rest) = number(input, buf, feed)?;
    if most < n {
        return None;
    }
    let behind = fill(input, buf, rest, to, n)?;
    Some((n, behind))
}

// The octets of a command, if it has any.
fn octets_of(
    letter: u8,
    input: Stdin,
    buf: &mut [u8; 4096],
    feed: Feed,
    to: &mut [u8],
) -> Option<(u64, Feed)> {
    let Some(most) = most_of(letter) else {
        return Some((0, feed));
    };
    take(input, buf, feed, to, most)
}

// How many numbers stand behind a command's octets.
fn behind(letter: u8) -> usize {
    usize::from(letter == b'W')
}

// The arguments of a command: its numbers, and its octets in a lent slice. None: they are cut or too long.
pub fn arguments(
    letter: u8,
    input: Stdin,
    buf: &mut [u8; 4096],
    feed: Feed,
    to: &mut [u8],
) -> Option<Given> {
    let mut five = [0u64; 5];
    let one = numbers(input, buf, feed, &mut five, before(letter))?;
    let (count, two) = octets_of(letter, input, buf, one, to)?;
    let behind = numbers(input, buf, two, &mut five, behind(letter))?;
    let args = Args {
        one: five[0],
        two: five[1],
        three: five[2],
        four: five[3],
        five: five[4],
    };
    Some(Given {
        args,
        count,
        behind,
    })
}

// Octets put at a place, as far as the slice reaches.
pub fn put(to: &mut [u8], at: usize, xs: &[u8])
    ensures { to.new ≡ sets to.old at xs.now }
{
    for i in 0..xs.len() {
        if to.len() <= at {
            return;
        }
        if to.len() - at <= i {
            return;
        }
        to[at + i] = xs[i];
    }
}

// The first octets of a lent buffer, as far as it reaches.
pub fn front<'s>(s: &'s [u8], n: usize) -> &'s [u8]
    ensures { result.now ≡ take n s.now }
{
    if n < s.len() {
        return &s[..n];
    }
    s
}

// A product with 2^40 + 435, whose low 64 bits are kept.
fn times_prime(h: u64) -> u64
    ensures { result ≡ h * 0x100000001b3 % 2 ^ 64 }
{
    let shifted = h % 16777216 * 1099511627776;
    let low = h % 4294967296 * 435;
    let high = h / 4294967296 * 435 % 4294967296 * 4294967296;
    std::num::wrapping_add_u64(shifted, std::num::wrapping_add_u64(high, low))
}

// The checksum of a lent buffer: FNV-1a of 64 bits.
fn checksum(xs: &[u8]) -> u64
    ensures { result ≡ checksum xs.now }
{
    let mut h: u64 = 0xcbf2_9ce4_8422_2325;
    for i in 0..xs.len() {
        h = times_prime(h ^ u64::from(xs[i]));
    }
    h
}

// A part behind a space: its hex digits, or "-" for none.
pub fn part(page: &mut Page, xs: &[u8])
    ensures { Shows page.old (part_text xs.now) page.new }
{
    page.octet(b' ');
    if xs.len() == 0 {
        return page.octet(b'-');
    }
    page.show_all(Show::Hex, xs);
}

// The checksum of a lent buffer behind a space.
pub fn sum(page: &mut Page, xs: &[u8])
    ensures { Shows page.old (sum_text xs.now) page.new }
{
    page.octet(b' ');
    page.hex(8, checksum(xs));
}
