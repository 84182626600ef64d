// A field of a row, over octets that are known to be a book: where its attribute and its value stand, and what value it is. Crate questions asks for it.
// What is found stands in specs/Places.antt, by rows Row.

#![tactic(auto)]

ghost use Rattle.std.specs.Prelude.{◌≡◌, List, ℕ, ◌≤◌, length};
ghost use Rattle.octets.specs.Limits.{longest, book_room};
ghost use Rattle.octets.specs.Reading.{ok};
ghost use Rattle.octets.specs.declared.Room.TheVariants.{Stated};
ghost use Rattle.kinds.specs.Kinds.{form_of};
ghost use Rattle.kinds.specs.Values.{value_of};
ghost use Rattle.layouts.specs.Layout.{Layout, layout_at};
ghost use Rattle.layouts.specs.Book.{Book};
ghost use Rattle.layouts.specs.Answers.{Image, Holds, Has};
ghost use Rattle.rows.specs.Row.{Field, fields_in, row_at};
ghost use Rattle.row_fields.specs.Places.{Lines, NthField, Open, Stood, Spots, is_held, field_over};

use kinds::{Basic, Form, Kind, Value};
use layouts::Looked;
use octets::{Fault, Refused, Room};

// A row over the octets of a book: the place of its layout there, how many fields it has, and where its values begin and end.
#[derive(Clone, Copy)]
struct Lined {
    place: usize,
    count: u32,
    first: usize,
    end: usize,
}

// The row whose layout's number stands at a place.
fn row_here<'d, 'b>(doc: &'d [u8], at: usize, book: &'b [u8]) -> Result<Lined, Refused>
    requires { (at ≤ length doc.now) × (length doc.now ≤ longest) × (length book.now ≤ book_room) × Holds book.now }
    ensures { (b : Book) → Image book.now b → Lines doc.now book.now (row_at b doc.now at) result }
{
    if doc.len() < at + 4 {
        return Err(Refused {
            fault: Fault::CutShort,
            place: at,
        });
    }
    let looked = layouts::look_in(book, octets::u32_at(doc, at));
    let Looked::There(place) = looked else {
        return Err(Refused {
            fault: Fault::NoLayout,
            place: at,
        });
    };
    let row = rows::row_end(doc, at, book, place)?;
    Ok(Lined {
        place,
        count: row.count,
        first: at + 8,
        end: row.next,
    })
}

// The place of value n of a row that is accepted: where the walk over the values before it ends.
fn value_place<'d, 'b>(
    doc: &'d [u8],
    first: usize,
    end: usize,
    book: &'b [u8],
    place: usize,
    n: u32,
) -> usize
    requires { (first ≤ end) × (end ≤ length doc.now) × (length doc.now ≤ longest) × (length book.now ≤ longest) × Has book.now place n }
    ensures { (l : Layout) (last : ℕ) (fields : List Field) → layout_at book.now place ≡ ok l last → fields_in (Stated end 0) l.attributes doc.now first ≡ ok fields end → NthField doc.now end l.attributes fields n result }
{
    let attributes = layouts::attributes_at(book, place) + 4;
    let values = rows::fields_end(doc, first, Room::Stated(end, 0), book, attributes, n);
    values.unwrap_or(end)
}

// Where a field stands: its attribute in the octets of the book, its value in the document.
#[derive(Clone, Copy)]
pub struct Spot {
    pub attribute: usize,
    pub value: usize,
}

// Field n of the row whose kind stands at a place.
pub fn field_here<'d, 'b>(
    doc: &'d [u8],
    at: usize,
    book: &'b [u8],
    n: usize,
) -> Result<Spot, Refused>
    requires { Open doc.now at book.now }
    ensures { (b : Book) → Image book.now b → Spots doc.now book.now (field_over b doc.now at n) result }
{
    let row = row_here(doc, at + 4, book)?;
    if (row.count as usize) <= n {
        return Err(Refused {
            fault: Fault::NotThere,
            place: at,
        });
    }
    let index = n as u32;
    let attribute = layouts::attribute_place(book, row.place, index);
    let value = value_place(doc, row.first, row.end, book, row.place, index);
    Ok(Spot { attribute, value })
}

// The value of a basic type that stands at a place.
pub fn value_at(doc: &[u8], at: usize, basic: Basic) -> Value
    requires { Stood doc.now basic at }
    ensures { (v : Stood doc.now basic at) → result ≡ value_of basic v.value }
{
    match basic {
        Basic::Int => Value::Int(octets::u32_at(doc, at).cast_signed()),
        Basic::UnsignedInt => Value::UnsignedInt(octets::u32_at(doc, at)),
        Basic::Long => Value::Long(octets::u64_at(doc, at).cast_signed()),
        Basic::UnsignedLong => Value::UnsignedLong(octets::u64_at(doc, at)),
        Basic::Float => Value::Float(octets::u32_at(doc, at)),
        Basic::Double => Value::Double(octets::u64_at(doc, at)),
        Basic::HexBinary => Value::HexBinary,
        Basic::String => Value::String,
        Basic::Boolean => Value::Boolean(octets::u8_at(doc, at) == 1),
        Basic::Byte => Value::Byte(octets::u8_at(doc, at).cast_signed()),
        Basic::UnsignedByte => Value::UnsignedByte(octets::u8_at(doc, at)),
        Basic::Short => Value::Short(octets::u16_at(doc, at).cast_signed()),
        Basic::UnsignedShort => Value::UnsignedShort(octets::u16_at(doc, at)),
    }
}

// Whether values of a type are octets behind a length.
pub fn is_held(kind: Kind) -> bool
    ensures { result ≡ is_held (form_of kind) }
{
    matches!(kinds::form_of(kind), Form::Led(_))
}
