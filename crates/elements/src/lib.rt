// One element over a book that is known to be good, and what stands before it. The definitions: specs/Element.antt (an element), Steps.antt (a step over a lent book), Walk.antt (turn after turn), Reading.antt (whole readings), Document.antt (what a document means).

#![tactic(auto)]

ghost use Rattle.std.specs.Prelude.{◌≡◌, true, ℕ, ◌+◌, ◌≤◌, ◌<◌, length};
ghost use Rattle.octets.specs.Limits.{longest, most_rows, book_room};
ghost use Rattle.octets.specs.Reading.{ok, is_ok, be};
ghost use Rattle.octets.specs.Asked.{refusal_of};
ghost use Rattle.layouts.specs.Layout.{Layout, layout_at};
ghost use Rattle.layouts.specs.Book.{Book, book_image, IsBook, book_in};
ghost use Rattle.layouts.specs.Answers.{Stood};
ghost use Rattle.elements.specs.Element.{item, layout, Stepped, layout_element, row_element, end_element, element_at};
ghost use Rattle.elements.specs.Steps.{octets_left, lent_book, holding};
ghost use Rattle.elements.specs.Kinds.{number_of_kind, OfNumber};
ghost use Rattle.elements.specs.Answers.{tells, step_of, Over, Grows};

use layouts::{Learning, Looked};
use octets::{Fault, Refused};

// The kinds of elements; an element begins with the number of its kind.
#[derive(Clone, Copy, PartialEq, Eq)]
pub enum ElementKind {
    Layout,
    Row,
    End,
}

impl From<ElementKind> for u32 {
    ghost from_gives = { λ kind n. n ≡ number_of_kind kind };

    fn from(kind: ElementKind) -> u32 {
        match kind {
            ElementKind::Layout => 1,
            ElementKind::Row => 2,
            ElementKind::End => 3,
        }
    }
}

// The kind of a number: 7 where none has it.
impl TryFrom<u32> for ElementKind {
    type Error = Fault;

    ghost try_from_gives = { OfNumber };

    fn try_from(number: u32) -> Result<ElementKind, Fault> {
        match number {
            1 => Ok(ElementKind::Layout),
            2 => Ok(ElementKind::Row),
            3 => Ok(ElementKind::End),
            _ => Err(Fault::Kind),
        }
    }
}

// What an element says: a layout's number and count of attributes; a row's number, whether its length is stated, and its count of fields; the end's count and time.
#[derive(Clone, Copy)]
pub enum Met {
    Layout(u32, u32),
    Row(u32, bool, u32),
    End(u32, i64),
}

// An element with the next place, the rows passed and the octets of the book that are used then.
#[derive(Clone, Copy)]
pub struct Step {
    pub met: Met,
    pub next: usize,
    pub rows: usize,
    pub used: usize,
}

// What stands before every step and every question about an element: 2 for the document, then 17 for the book and the rows passed.
#[inline(always)]
pub fn lent_refusal<'d, 'b>(
    doc: &'d [u8],
    rows: usize,
    book: &'b [u8],
    used: usize,
) -> Result<(), Refused>
    ensures { result ≡ refusal_of (lent_book doc.now rows book.now used) }
{
    if octets::LONGEST < doc.len() {
        return Err(Refused {
            fault: Fault::TooLong,
            place: 0,
        });
    }
    if !layouts::is_book(book, used) || octets::MOST_ROWS < rows {
        return Err(Refused {
            fault: Fault::Lent,
            place: 0,
        });
    }
    Ok(())
}

// The end from its count on: its count is that of the rows passed, and nothing follows it.
fn end_step(doc: &[u8], at: usize, rows: usize, used: usize) -> Result<Step, Refused>
    requires { (at ≤ length doc.now) × (length doc.now ≤ longest) }
    ensures { (book : Book) → length (book_image book) ≡ used → result ≡ tells (end_element doc.now at rows book) }
{
    if doc.len() < at + 4 {
        return Err(Refused {
            fault: Fault::CutShort,
            place: at,
        });
    }
    let count = octets::u32_at(doc, at);
    if count as usize != rows {
        return Err(Refused {
            fault: Fault::EndCount,
            place: at,
        });
    }
    if doc.len() < at + 4 + 8 {
        return Err(Refused {
            fault: Fault::CutShort,
            place: at + 4,
        });
    }
    let time = octets::u64_at(doc, at + 4).cast_signed();
    let next = at + 4 + 8;
    if next != doc.len() {
        return Err(Refused {
            fault: Fault::AfterEnd,
            place: next,
        });
    }
    Ok(Step {
        met: Met::End(count, time),
        next,
        rows,
        used,
    })
}

// A row from its layout's number on, by where that number was looked up.
fn row_step<'d, 's>(
    doc: &'d [u8],
    at: usize,
    rows: usize,
    s: &'s [u8],
    looked: Looked,
    used: usize,
) -> Result<Step, Refused>
    requires { (at ≤ length doc.now) × (length doc.now ≤ longest) × (rows ≤ most_rows) × (length s.now ≤ longest) × Stood s.now looked }
    ensures { (b : Book) → Over doc.now at s.now looked used b → result ≡ tells (row_element doc.now at rows b) }
{
    if doc.len() < at + 4 {
        return Err(Refused {
            fault: Fault::CutShort,
            place: at,
        });
    }
    let Looked::There(place) = looked else {
        return Err(Refused {
            fault: Fault::NoLayout,
            place: at,
        });
    };
    let row = rows::row_end(doc, at, s, place)?;
    Ok(Step {
        met: Met::Row(octets::u32_at(doc, at), row.stated, row.count),
        next: row.next,
        rows: rows + 1,
        used,
    })
}

// What a layout that was read says.
fn layout_told(doc: &[u8], at: usize, next: usize, rows: usize, used: usize) -> Step
    requires { (length doc.now ≤ longest) × (is_ok (layout_at doc.now at) ≡ true) }
    ensures { (l : Layout) (end : ℕ) → layout_at doc.now at ≡ ok l end → (b : Book) → length (book_image b) ≡ used → result ≡ step_of (record { element = item (layout l); rows = rows; book = b }) next }
{
    Step {
        met: Met::Layout(
            layouts::layout_number(doc, at),
            layouts::attribute_count(doc, at),
        ),
        next,
        rows,
        used,
    }
}

// A layout from its number on, by where that number was looked up.
fn layout_step<'d, 's>(
    doc: &'d [u8],
    at: usize,
    rows: usize,
    s: &'s [u8],
    looked: Looked,
    used: usize,
) -> Result<Step, Refused>
    requires { (at ≤ length doc.now) × (length doc.now ≤ longest) × (length s.now ≤ longest) × (used ≤ book_room) × Stood s.now looked }
    ensures { (b : Book) → Over doc.now at s.now looked used b → result ≡ tells (layout_element doc.now at rows b) }
{
    let next = layouts::layout_end(doc, at)?;
    match layouts::judge_by(doc, at, next, s, looked, used) {
        Err(fault) => Err(Refused { fault, place: at }),
        Ok(Learning::Known) => Ok(layout_told(doc, at, next, rows, used)),
        Ok(Learning::New(more)) => Ok(layout_told(doc, at, next, rows, more)),
    }
}

// One element, by where the number behind its kind was looked up among the layouts of a book, which stand in other octets.
pub fn element_over<'d, 's>(
    doc: &'d [u8],
    at: usize,
    rows: usize,
    s: &'s [u8],
    looked: Looked,
    used: usize,
) -> Result<Step, Refused>
    requires { (at ≤ length doc.now) × (length doc.now ≤ longest) × (rows ≤ most_rows) × (length s.now ≤ longest) × (used ≤ book_room) × Stood s.now looked }
    ensures { (b : Book) → Over doc.now (at + 4) s.now looked used b → result ≡ tells (element_at doc.now at rows b) }
{
    if doc.len() < at + 4 {
        return Err(Refused {
            fault: Fault::CutShort,
            place: at,
        });
    }
    match ElementKind::try_from(octets::u32_at(doc, at)) {
        Ok(ElementKind::Layout) => layout_step(doc, at + 4, rows, s, looked, used),
        Ok(ElementKind::Row) => row_step(doc, at + 4, rows, s, looked, used),
        Ok(ElementKind::End) => end_step(doc, at + 4, rows, used),
        Err(fault) => Err(Refused { fault, place: at }),
    }
}

// The number behind the kind at a place; 0 where the document ends before it.
pub fn number_behind(doc: &[u8], at: usize) -> u32
    requires { (at ≤ length doc.now) × (length doc.now ≤ longest) }
    ensures { (at + 4 + 4 ≤ length doc.now → result ≡ be 4 doc.now (at + 4)) × (length doc.now < at + 4 + 4 → result ≡ 0) }
{
    if doc.len() < at + 8 {
        return 0;
    }
    octets::u32_at(doc, at + 4)
}

// The layout that an element was read as, put behind the used octets of the book that it is new to.
pub fn grow<'d, 'b>(doc: &'d [u8], at: usize, next: usize, book: &'b mut [u8], used: usize)
    requires { (length doc.now ≤ longest) × IsBook book.old used × Grows doc.now at next (book_in book.old used) }
    ensures { (rows : ℕ) (st : Stepped) → element_at doc.now at rows (book_in book.old used) ≡ ok st next → book.new ≡ holding st.book book.old }
{
    let start = at + 4;
    let filled = octets::lay(book, used, &doc[start..next]);
}

// One element at any place, over a book that is known to be good; a new layout's octets are put behind the used ones.
pub fn element<'d, 'b>(
    doc: &'d [u8],
    at: usize,
    rows: usize,
    book: &'b mut [u8],
    used: usize,
) -> Result<Step, Refused>
    requires { (length doc.now ≤ longest) × (rows ≤ most_rows) × IsBook book.old used }
    ensures { (result ≡ tells (element_at doc.now at rows (book_in book.old used))) × (book.new ≡ octets_left book.old (element_at doc.now at rows (book_in book.old used))) }
{
    if doc.len() < at {
        return Err(Refused {
            fault: Fault::CutShort,
            place: at,
        });
    }
    let looked = layouts::look_in(&book[..used], number_behind(doc, at));
    let step = element_over(doc, at, rows, &book[..used], looked, used)?;
    if used < step.used {
        grow(doc, at, step.next, book, used);
    }
    Ok(step)
}
