// A row's values over a layout: the end of a row, or its refusal.
// A row is defined in specs/Row.antt, over a value by its form (kinds Forms); rows that are passed fast are in plans and walks.

#![tactic(auto)]

ghost use Rattle.std.specs.Prelude.{◌≡◌, List, ℕ, ◌+◌, ◌≤◌, length};
ghost use Rattle.std.proofs.Math.Option.{some};
ghost use Rattle.octets.specs.Limits.{longest};
ghost use Rattle.octets.specs.Reading.{ok, ends, be, reach, run};
ghost use Rattle.octets.specs.Answers.{says, Within};
ghost use Rattle.layouts.specs.Layout.{Attribute, Layout, attribute_at, layout_at};
ghost use Rattle.layouts.specs.Answers.{Reads};
ghost use Rattle.rows.specs.Row.{fields_in, values_at, named};
ghost use Rattle.rows.specs.Answers.{Attributes, length_room, fills, shape, row_says, RowWithin};

use octets::{Fault, Refused, Room};

// The place behind the values of so many attributes, which stand at a place of a book.
pub fn fields_end<'d, 'b>(
    doc: &'d [u8],
    at: usize,
    room: Room,
    book: &'b [u8],
    first: usize,
    count: u32,
) -> Result<usize, Refused>
    requires { (at ≤ reach room doc.now) × (reach room doc.now ≤ length doc.now) × (length doc.now ≤ longest) × (length book.now ≤ longest) × Attributes book.now count first }
    ensures { ((xs : List Attribute) (last : ℕ) → run (attribute_at book.now) count first ≡ ok xs last → says result ≡ ends (fields_in room xs doc.now at)) × Within at result (reach room doc.now) }
{
    let mut pos = at;
    let mut place = first;
    for _ in 0..count {
        let kind = texts::text_skip(book, place);
        let form = kinds::form_here(book, kind);
        place = kind + 4;
        pos = kinds::value_end(doc, pos, room, form)?;
    }
    Ok(pos)
}

// How far the values behind a row's length may reach: to the document's end where it is unstated, else just as far as it says.
fn length_room(at: usize, size: u32) -> Room
    requires { at ≤ longest }
    ensures { result ≡ length_room at size }
{
    if size == 0xffff_ffff {
        return Room::Document;
    }
    Room::Stated(at + 4 + (size as usize), at)
}

// The place behind values that ended in a room: 13 where they are not all that a stated length has room for.
fn fill(room: Room, next: usize) -> Result<usize, Refused>
    ensures { result ≡ fills room next }
{
    let Room::Stated(end, length_at) = room else {
        return Ok(next);
    };
    if next != end {
        return Err(Refused {
            fault: Fault::RowLength,
            place: length_at,
        });
    }
    Ok(next)
}

// The place behind a row's values, from its length on.
pub fn values_end<'d, 'b>(
    doc: &'d [u8],
    at: usize,
    book: &'b [u8],
    first: usize,
    count: u32,
) -> Result<usize, Refused>
    requires { (at + 4 ≤ length doc.now) × (length doc.now ≤ longest) × (length book.now ≤ longest) × Attributes book.now count first }
    ensures { ((xs : List Attribute) (last : ℕ) → run (attribute_at book.now) count first ≡ ok xs last → says result ≡ ends (values_at xs doc.now at (be 4 doc.now at))) × Within at result (length doc.now) }
{
    let room = length_room(at, octets::u32_at(doc, at));
    if doc.len() < octets::reach(room, doc) {
        return Err(Refused {
            fault: Fault::CutShort,
            place: at,
        });
    }
    let next = fields_end(doc, at + 4, room, book, first, count)?;
    fill(room, next)
}

// A row: whether its length is stated, how many fields it has, and the place behind it.
#[derive(Clone, Copy)]
pub struct RowEnd {
    pub stated: bool,
    pub count: u32,
    pub next: usize,
}

// The row whose layout's number stands at a place, over that layout, which stands at a place of a book.
pub fn row_end<'d, 'b>(
    doc: &'d [u8],
    at: usize,
    book: &'b [u8],
    place: usize,
) -> Result<RowEnd, Refused>
    requires { (at + 4 ≤ length doc.now) × (length doc.now ≤ longest) × (length book.now ≤ longest) × Reads book.now place }
    ensures { ((n : ℕ) (l : Layout) (next : ℕ) → layout_at book.now place ≡ ok l next → row_says result ≡ shape (named doc.now at n (at + 4) (some l))) × RowWithin at result (length doc.now) }
{
    let length_at = at + 4;
    if doc.len() < length_at + 4 {
        return Err(Refused {
            fault: Fault::CutShort,
            place: length_at,
        });
    }
    let counted = layouts::attributes_at(book, place);
    let count = octets::u32_at(book, counted);
    let next = values_end(doc, length_at, book, counted + 4, count)?;
    let stated = octets::u32_at(doc, length_at) < 0xffff_ffff;
    Ok(RowEnd {
        stated,
        count,
        next,
    })
}
