// Layouts and the book: a layout's end and parts at a place, a lent book checked and searched, and what it makes of a layout.
// A layout is defined in specs/Layout.antt; the book, and the rule of 10 and 11 for reading and writing, in Book.antt.

#![tactic(auto)]

ghost use Rattle.std.specs.Prelude.{◌≡◌, true, List, [], ◌∷◌, ◌++◌, ℕ, ◌+◌, ◌≤◌, length, take, drop};
ghost use Rattle.octets.specs.Limits.{longest, book_room, most_layouts};
ghost use Rattle.octets.specs.Reading.{ok, ends, is_ok, run, same};
ghost use Rattle.octets.specs.Answers.{says, Within};
ghost use Rattle.texts.specs.Texts.{text};
ghost use Rattle.kinds.specs.Kinds.{kind_at};
ghost use Rattle.layouts.specs.Layout.{Attribute, Layout, attribute_at, layout_at, layout_image};
ghost use Rattle.layouts.specs.Book.{Book, book_image, book_of, book_in, IsBook, layouts_at, learning};
ghost use Rattle.layouts.specs.Answers.{Image, Holds, Looks, Stood, Reads, Judges, Nth, Has};

use kinds::Kind;
use octets::{Fault, Refused};

// Where a number was looked up: the place of its layout, or how many layouts there are, none of them its. Neither is a refusal.
#[derive(Clone, Copy)]
pub enum Looked {
    There(usize),
    Missing(usize),
}

// How a layout that is not refused stands to a book: known already, or new with the octets that the book uses then.
#[derive(Clone, Copy)]
pub enum Learning {
    Known,
    New(usize),
}

// The place behind the type at a place.
fn kind_end(s: &[u8], at: usize) -> Result<usize, Refused>
    requires { (at ≤ length s.now) × (length s.now ≤ longest) }
    ensures { (says result ≡ ends (kind_at s.now at)) × Within at result (length s.now) }
{
    kinds::kind_at(s, at)?;
    Ok(at + 4)
}

// The place behind the attribute at a place.
fn attribute_end(s: &[u8], at: usize) -> Result<usize, Refused>
    requires { (at ≤ length s.now) × (length s.now ≤ longest) }
    ensures { (says result ≡ ends (attribute_at s.now at)) × Within at result (length s.now) }
{
    let next = texts::text_end(s, at)?;
    kind_end(s, next)
}

// The place behind the layout whose number stands at a place of a document or a book.
pub fn layout_end(s: &[u8], at: usize) -> Result<usize, Refused>
    requires { (at ≤ length s.now) × (length s.now ≤ longest) }
    ensures { (says result ≡ ends (layout_at s.now at)) × Within at result (length s.now) }
{
    if s.len() < at + 4 {
        return Err(Refused {
            fault: Fault::CutShort,
            place: at,
        });
    }
    let counted = texts::text_end(s, at + 4)?;
    let (count, first) = octets::count_at(s, counted, octets::MOST_ATTRIBUTES)?;
    octets::run_end(first, count, |p| attribute_end(s, p))
}

// The place behind an attribute that is known to be accepted.
pub fn attribute_skip(s: &[u8], at: usize) -> usize
    requires { (length s.now ≤ longest) × (is_ok (attribute_at s.now at) ≡ true) }
    ensures { ends (attribute_at s.now at) ≡ ok result result }
{
    texts::text_skip(s, at) + 4
}

// The place behind a run of attributes that is known to be accepted: lengths alone are read.
fn attributes_skip(s: &[u8], at: usize, count: u32) -> usize
    requires { (length s.now ≤ longest) × (is_ok (run (attribute_at s.now) count at) ≡ true) }
    ensures { ends (run (attribute_at s.now) count at) ≡ ok result result }
{
    let mut pos = at;
    for _ in 0..count {
        pos = attribute_skip(s, pos);
    }
    pos
}

// The place of the count of attributes of a layout that is known to be accepted: right behind its type name.
pub fn attributes_at(s: &[u8], at: usize) -> usize
    requires { (length s.now ≤ longest) × (is_ok (layout_at s.now at) ≡ true) }
    ensures { (ends (text s.now (at + 4)) ≡ ok result result) × (result + 4 ≤ length s.now) }
{
    texts::text_skip(s, at + 4)
}

// The place behind a layout that is known to be accepted.
pub fn layout_skip(s: &[u8], at: usize) -> usize
    requires { (length s.now ≤ longest) × (is_ok (layout_at s.now at) ≡ true) }
    ensures { ends (layout_at s.now at) ≡ ok result result }
{
    let counted = attributes_at(s, at);
    attributes_skip(s, counted + 4, octets::u32_at(s, counted))
}

// Looks a number up in octets that are the image of layouts. Only at the end of these is it known how many they are.
pub fn look_in(s: &[u8], number: u32) -> Looked
    requires { (length s.now ≤ longest) × Holds s.now }
    ensures { (book : Book) → Image s.now book → Looks s.now number book result }
{
    let mut pos = 0;
    let mut k: usize = 0;
    while pos < s.len() {
        if octets::u32_at(s, pos) == number {
            return Looked::There(pos);
        }
        pos = layout_skip(s, pos);
        k += 1;
    }
    Looked::Missing(k)
}

// Looks a number up in a book that is known to be good.
pub fn find(book: &[u8], used: usize, number: u32) -> Looked
    requires { IsBook book.now used }
    ensures { Looks (take used book.now) number (book_in book.now used) result }
{
    look_in(&book[..used], number)
}

// Whether octets are whole valid layouts of different numbers, at most 64: each layout is read once, and its number kept to compare.
#[inline(always)]
fn are_layouts(s: &[u8]) -> bool
    requires { length s.now ≤ longest }
    ensures { result ≡ is_ok (layouts_at most_layouts [] s.now 0) }
{
    let mut met = [0u32; octets::MOST_LAYOUTS];
    let mut pos = 0;
    for k in 0..octets::MOST_LAYOUTS {
        if pos == s.len() {
            return true;
        }
        let Ok(next) = layout_end(s, pos) else {
            return false;
        };
        let number = octets::u32_at(s, pos);
        if met[..k].contains(&number) {
            return false;
        }
        met[k] = number;
        pos = next;
    }
    pos == s.len()
}

// Whether lent octets, of which so many are used, hold a book.
#[inline(always)]
pub fn is_book(book: &[u8], used: usize) -> bool
    ensures { result ≡ is_ok (book_of book.now used) }
{
    octets::BOOK_ROOM <= book.len() && used <= octets::BOOK_ROOM && are_layouts(&book[..used])
}

// Whether the layout at a place is two runs of octets, one behind the other, compared where they stand.
fn same_runs<'s, 'f, 'l>(s: &'s [u8], at: usize, front: &'f [u8], last: &'l [u8]) -> bool
    requires { (length s.now ≤ longest) × Reads s.now at }
    ensures { (m : Layout) (end : ℕ) → layout_at s.now at ≡ ok m end → result ≡ same (layout_image m) (front.now ++ last.now) }
{
    let end = layout_skip(s, at);
    if end - at < front.len() {
        return false;
    }
    let mid = at + front.len();
    octets::octets_same(&s[at..mid], front) && octets::octets_same(&s[mid..end], last)
}

// How a layout of these octets, two runs one behind the other, stands to a book that uses so many octets, by where its number was looked up among the book's layouts, which stand in other octets.
pub fn judge_runs<'f, 'l, 's>(
    front: &'f [u8],
    last: &'l [u8],
    s: &'s [u8],
    looked: Looked,
    used: usize,
) -> Result<Learning, Fault>
    requires { (length s.now ≤ longest) × (used ≤ book_room) × Stood s.now looked }
    ensures { (book : Book) (n : ℕ) → Looks s.now n book looked → result ≡ learning book used n (front.now ++ last.now) }
{
    match looked {
        Looked::There(p) => {
            if same_runs(s, p, front, last) {
                Ok(Learning::Known)
            } else {
                Err(Fault::Differs)
            }
        }
        Looked::Missing(k) => {
            if octets::MOST_LAYOUTS <= k {
                return Err(Fault::BookFull);
            }
            let left = octets::BOOK_ROOM - used;
            if left < front.len() {
                return Err(Fault::BookFull);
            }
            if left - front.len() < last.len() {
                return Err(Fault::BookFull);
            }
            Ok(Learning::New(used + front.len() + last.len()))
        }
    }
}

// The same of the layout from a place of a document to its end.
pub fn judge_by<'d, 's>(
    doc: &'d [u8],
    at: usize,
    end: usize,
    s: &'s [u8],
    looked: Looked,
    used: usize,
) -> Result<Learning, Fault>
    requires { (at ≤ end) × (end ≤ length doc.now) × (ends (layout_at doc.now at) ≡ ok end end) × (length s.now ≤ longest) × (used ≤ book_room) × Stood s.now looked }
    ensures { (book : Book) (l : Layout) → layout_at doc.now at ≡ ok l end → Looks s.now l.number book looked → length (book_image book) ≡ used → Judges used book l at result }
{
    judge_runs(&doc[at..end], b"", s, looked, used)
}

// How the layout from a place of a document to its end stands to the used octets of a good book.
pub fn judge<'d, 'b>(doc: &'d [u8], at: usize, end: usize, s: &'b [u8]) -> Result<Learning, Fault>
    requires { (at ≤ end) × (end ≤ length doc.now) × (ends (layout_at doc.now at) ≡ ok end end) × (length s.now ≤ book_room) × Holds s.now }
    ensures { (book : Book) (l : Layout) → Image s.now book → layout_at doc.now at ≡ ok l end → Judges (length s.now) book l at result }
{
    let looked = look_in(s, octets::u32_at(doc, at));
    judge_by(doc, at, end, s, looked, s.len())
}

// The number of a layout that is known to be accepted.
pub fn layout_number(s: &[u8], at: usize) -> u32
    requires { is_ok (layout_at s.now at) ≡ true }
    ensures { (l : Layout) (end : ℕ) → layout_at s.now at ≡ ok l end → result ≡ l.number }
{
    octets::u32_at(s, at)
}

// The type name of a layout that is known to be accepted.
pub fn type_name<'s>(s: &'s [u8], at: usize) -> &'s [u8]
    requires { (length s.now ≤ longest) × (is_ok (layout_at s.now at) ≡ true) }
    ensures { (l : Layout) (end : ℕ) → layout_at s.now at ≡ ok l end → result.now ≡ l.type_name }
{
    texts::led_part(s, at + 4)
}

// The count of attributes of a layout that is known to be accepted.
pub fn attribute_count(s: &[u8], at: usize) -> u32
    requires { (length s.now ≤ longest) × (is_ok (layout_at s.now at) ≡ true) }
    ensures { (l : Layout) (end : ℕ) → layout_at s.now at ≡ ok l end → result ≡ length l.attributes }
{
    octets::u32_at(s, attributes_at(s, at))
}

// The place of attribute n of a layout that is known to be accepted and has more than n.
pub fn attribute_place(s: &[u8], at: usize, n: u32) -> usize
    requires { (length s.now ≤ longest) × Has s.now at n }
    ensures { (l : Layout) (end : ℕ) → layout_at s.now at ≡ ok l end → Nth s.now l.attributes n result }
{
    attributes_skip(s, attributes_at(s, at) + 4, n)
}

// The type behind the name of an attribute that is known to be accepted at a place.
pub fn kind_behind(s: &[u8], at: usize) -> Kind
    requires { (length s.now ≤ longest) × (is_ok (attribute_at s.now at) ≡ true) }
    ensures { (a : Attribute) (next : ℕ) → attribute_at s.now at ≡ ok a next → result ≡ a.kind }
{
    kinds::kind_here(s, texts::text_skip(s, at))
}

// The type of attribute n.
pub fn attribute_kind(s: &[u8], at: usize, n: u32) -> Kind
    requires { (length s.now ≤ longest) × Has s.now at n }
    ensures { (l : Layout) (end : ℕ) (a : Attribute) (more : List Attribute) → layout_at s.now at ≡ ok l end → drop n l.attributes ≡ a ∷ more → result ≡ a.kind }
{
    let place = attribute_place(s, at, n);
    kind_behind(s, place)
}
