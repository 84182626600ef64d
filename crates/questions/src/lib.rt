// Questions about a row or a layout at a place: its fields, its names and types. Each takes every input, hands back parts and no copies, and changes nothing.
// What is asked stands in specs/Questions.antt, by elements Steps; what is answered in specs/Answers.antt; what the functions between find in specs/Places.antt.

#![tactic(auto)]

ghost use Rattle.std.specs.Prelude.{◌≡◌, ◌≤◌, length};
ghost use Rattle.octets.specs.Limits.{longest};
ghost use Rattle.octets.specs.Asked.{refusal_of, part_of, StandsAt};
ghost use Rattle.kinds.specs.Values.{octets_of};
ghost use Rattle.layouts.specs.Layout.{layout_at};
ghost use Rattle.layouts.specs.Book.{Book};
ghost use Rattle.layouts.specs.Answers.{Image};
ghost use Rattle.elements.specs.Kinds.{number_of_kind};
ghost use Rattle.row_fields.specs.Places.{Open};
ghost use Rattle.questions.specs.Questions.{kind_asked};
ghost use Rattle.questions.specs.Asked.{field_for, layout_for, attribute_for};
ghost use Rattle.questions.specs.Answers.{field_tells, kind_tells};
ghost use Rattle.questions.specs.Places.{Opens, FieldAt, LayoutAt, AttributeAt, layout_over};

use elements::ElementKind;
use kinds::{Kind, Value};
use octets::{Fault, Refused};
use row_fields::Spot;

// A field's type and value. It is not named Field: no name may differ from the function's in the case of a letter alone.
#[derive(Clone, Copy)]
pub struct TypedValue {
    pub kind: Kind,
    pub value: Value,
}

// What a question is asked over, as a step is: a document, a place in it, the rows passed, and a lent book of which so many octets are used.
#[derive(Clone, Copy)]
pub struct Asked<'d, 'b> {
    pub doc: &'d [u8],
    pub at: usize,
    pub rows: usize,
    pub book: &'b [u8],
    pub used: usize,
}

// Whether the kind at a place is not the one asked about.
fn kind_refusal(doc: &[u8], at: usize, wanted: ElementKind) -> Result<(), Refused>
    requires { length doc.now ≤ longest }
    ensures { result ≡ refusal_of (kind_asked (number_of_kind wanted) doc.now at) }
{
    if doc.len() < at || doc.len() - at < 4 {
        return Err(Refused {
            fault: Fault::CutShort,
            place: at,
        });
    }
    let number = octets::u32_at(doc, at);
    if number == u32::from(wanted) {
        return Ok(());
    }
    match ElementKind::try_from(number) {
        Ok(other) => Err(Refused {
            fault: Fault::OtherKind,
            place: at,
        }),
        Err(fault) => Err(Refused { fault, place: at }),
    }
}

// What stands before every question: where it is not refused, an element of the kind asked about stands there, and the used octets are a book.
// kept: by the parts and not by Asked, since it is of a parameter alone, and not of a struct's field, that the proof knows its items to be octets.
fn asked_refusal(
    doc: &[u8],
    at: usize,
    rows: usize,
    book: &[u8],
    used: usize,
    wanted: ElementKind,
) -> Result<(), Refused>
    ensures { Opens (number_of_kind wanted) doc.now at rows book.now used result }
{
    elements::lent_refusal(doc, rows, book, used)?;
    kind_refusal(doc, at, wanted)
}

// The layout whose kind stands at a place, judged by the octets of a book.
fn layout_here(doc: &[u8], at: usize, book: &[u8]) -> Result<usize, Refused>
    requires { Open doc.now at book.now }
    ensures { (b : Book) → Image book.now b → StandsAt doc.now (layout_at doc.now) (layout_over b doc.now at) result }
{
    let place = at + 4;
    let next = layouts::layout_end(doc, place)?;
    layouts::judge(doc, place, next, book).map_err(|fault| Refused { fault, place })?;
    Ok(place)
}

impl<'d, 'b> Asked<'d, 'b> {
    // Where field n of the row stands.
    fn field_at(self, n: usize) -> Result<Spot, Refused>
        ensures { FieldAt self.entry n result }
    {
        asked_refusal(
            self.doc,
            self.at,
            self.rows,
            self.book,
            self.used,
            ElementKind::Row,
        )?;
        row_fields::field_here(self.doc, self.at, &self.book[..self.used], n)
    }

    // Whether field n of the row is refused: 2, 17, the kind's 1 and 7, 19, the rest of the step's refusals, 18 at the row.
    pub fn row_refusal(self, n: usize) -> Result<(), Refused>
        ensures { result ≡ refusal_of (field_for self.entry n) }
    {
        self.field_at(n)?;
        Ok(())
    }

    // The type and the value of field n of the row.
    pub fn field(self, n: usize) -> Result<TypedValue, Refused>
        ensures { result ≡ field_tells (field_for self.entry n) }
    {
        let spot = self.field_at(n)?;
        let kind = layouts::kind_behind(&self.book[..self.used], spot.attribute);
        let value = row_fields::value_at(self.doc, spot.value, kind.basic);
        Ok(TypedValue { kind, value })
    }

    // The name of field n of the row, a part of the book; empty where there is a refusal.
    pub fn field_name(self, n: usize) -> &'b [u8]
        ensures { result.now ≡ part_of (λ f. f.attribute.name) (field_for self.entry n) }
    {
        let Ok(spot) = self.field_at(n) else {
            return &self.book[..0];
        };
        texts::led_part(&self.book[..self.used], spot.attribute)
    }

    // The octets of field n of the row, a part of the document; empty where there is a refusal, and where the value is a number.
    pub fn field_octets(self, n: usize) -> &'d [u8]
        ensures { result.now ≡ part_of (λ f. octets_of f.value) (field_for self.entry n) }
    {
        let Ok(spot) = self.field_at(n) else {
            return &self.doc[..0];
        };
        let kind = layouts::kind_behind(&self.book[..self.used], spot.attribute);
        if !row_fields::is_held(kind) {
            return &self.doc[..0];
        }
        texts::led_part(self.doc, spot.value)
    }

    // Where the layout stands, which the book knows or has room for: behind its kind.
    fn layout_at(self) -> Result<usize, Refused>
        ensures { LayoutAt self.entry result }
    {
        asked_refusal(
            self.doc,
            self.at,
            self.rows,
            self.book,
            self.used,
            ElementKind::Layout,
        )?;
        layout_here(self.doc, self.at, &self.book[..self.used])
    }

    // Where attribute n of the layout stands.
    fn attribute_at(self, n: usize) -> Result<usize, Refused>
        ensures { AttributeAt self.entry n result }
    {
        let place = self.layout_at()?;
        let count = layouts::attribute_count(self.doc, place);
        if (count as usize) <= n {
            return Err(Refused {
                fault: Fault::NotThere,
                place: self.at,
            });
        }
        Ok(layouts::attribute_place(self.doc, place, n as u32))
    }

    // Whether the layout is refused: 2, 17, the kind's 1 and 7, 19, the rest of the step's refusals, 10 and 11 last.
    pub fn layout_refusal(self) -> Result<(), Refused>
        ensures { result ≡ refusal_of (layout_for self.entry) }
    {
        self.layout_at()?;
        Ok(())
    }

    // Whether attribute n of the layout is refused: as the layout, then 18 at the layout.
    pub fn attribute_refusal(self, n: usize) -> Result<(), Refused>
        ensures { result ≡ refusal_of (attribute_for self.entry n) }
    {
        self.attribute_at(n)?;
        Ok(())
    }

    // The type name of the layout, a part of the document; empty where there is a refusal.
    pub fn type_name(self) -> &'d [u8]
        ensures { result.now ≡ part_of (λ l. l.type_name) (layout_for self.entry) }
    {
        let Ok(place) = self.layout_at() else {
            return &self.doc[..0];
        };
        layouts::type_name(self.doc, place)
    }

    // The name of attribute n of the layout, a part of the document; empty where there is a refusal.
    pub fn attribute_name(self, n: usize) -> &'d [u8]
        ensures { result.now ≡ part_of (λ a. a.name) (attribute_for self.entry n) }
    {
        let Ok(place) = self.attribute_at(n) else {
            return &self.doc[..0];
        };
        texts::led_part(self.doc, place)
    }

    // The type of attribute n of the layout.
    pub fn attribute_kind(self, n: usize) -> Result<Kind, Refused>
        ensures { result ≡ kind_tells (attribute_for self.entry n) }
    {
        let place = self.attribute_at(n)?;
        Ok(layouts::kind_behind(self.doc, place))
    }
}
