// The lines of a listing, each printed on a page. What a line is stands in specs/Lines.antt.

#![tactic(auto)]

ghost use Rattle.std.specs.Prelude.{ℕ, ◌≡◌, ◌∷◌, length};
ghost use Rattle.octets.specs.Reading.{ok};
ghost use Rattle.rows.specs.Row.{Field, Row};
ghost use Rattle.elements.specs.Element.{Stepped};
ghost use Rattle.elements.specs.Answers.{met_of};
ghost use Rattle.questions.specs.Asked.{step_for, row_for, field_for};
ghost use Rattle.printing.specs.Text.{showing};
ghost use Rattle.printing.specs.Pages.{Shows};
ghost use Rattle.lines.specs.Lines.{header_text, numbered, word_text, field_text, layout_text, row_text, end_text, refusal_text, element_text};

use elements::Met;
use kinds::Value;
use octets::Refused;
use printing::{Page, Show};
use questions::Asked;

// The version and the start time.
pub fn header_line(page: &mut Page, start: i64)
    ensures { Shows page.old (header_text start) page.new }
{
    page.show_all(Show::Plain, b"document 4 ");
    dates::time(page, start);
    page.octet(b'\n');
}

// What an element is, its place, and a layout's number.
fn numbered(page: &mut Page, word: &[u8], at: usize, number: u32)
    ensures { Shows page.old (numbered word.now at number) page.new }
{
    page.named(word, at as u64);
    page.octet(b' ');
    page.signed(i64::from(number.cast_signed()));
}

// A sign, and behind it octets.
fn behind(page: &mut Page, sign: u8, how: Show, xs: &[u8])
    ensures { Shows page.old (sign ∷ showing how xs.now) page.new }
{
    page.octet(sign);
    page.show_all(how, xs);
}

// A layout's type name and count of attributes.
fn layout_line(page: &mut Page, at: usize, number: u32, name: &[u8], count: u32)
    ensures { Shows page.old (layout_text at number name.now count) page.new }
{
    numbered(page, b"layout ", at, number);
    page.octet(b' ');
    behind(page, b'=', Show::Escaped, name);
    page.named(b" ", u64::from(count));
    page.octet(b'\n');
}

// A value, or the octets beside it.
fn value_word(page: &mut Page, value: Value, xs: &[u8])
    ensures { Shows page.old (word_text value xs.now) page.new }
{
    match value {
        Value::HexBinary => behind(page, b'x', Show::Hex, xs),
        Value::String => behind(page, b'=', Show::Escaped, xs),
        _ => page.value(value),
    }
}

// Field i of a row behind a space. The row is accepted and has the field, so a refusal does not come about.
fn field_word(page: &mut Page, asked: Asked, i: usize)
    ensures { (f : Field) (next : ℕ) → field_for asked.entry i ≡ ok f next → Shows page.old (field_text f) page.new }
{
    page.octet(b' ');
    let Ok(field) = asked.field(i) else {
        return;
    };
    value_word(page, field.value, asked.field_octets(i));
}

// A row's layout's number and values.
fn row_line(page: &mut Page, asked: Asked, number: u32, count: u32)
    ensures { (row : Row) (next : ℕ) → row_for asked.entry ≡ ok row next → number ≡ row.number → count ≡ length row.fields → Shows page.old (row_text asked.entry.at row) page.new }
{
    numbered(page, b"row ", asked.at, number);
    for i in 0..count {
        field_word(page, asked, i as usize);
    }
    page.octet(b'\n');
}

// The end's count and time.
pub fn end_line(page: &mut Page, at: usize, count: u32, time: i64)
    ensures { Shows page.old (end_text at count time) page.new }
{
    page.named(b"end ", at as u64);
    page.named(b" ", u64::from(count));
    page.octet(b' ');
    dates::time(page, time);
    page.octet(b'\n');
}

// The line of an element, which a step from these inputs answered.
pub fn element_line(page: &mut Page, asked: Asked, met: Met)
    ensures { (st : Stepped) (next : ℕ) → step_for asked.entry ≡ ok st next → met_of st.element ≡ met → Shows page.old (element_text asked.entry.at st.element) page.new }
{
    match met {
        Met::Layout(number, count) => {
            layout_line(page, asked.at, number, asked.type_name(), count)
        }
        Met::Row(number, stated, count) => row_line(page, asked, number, count),
        Met::End(count, time) => end_line(page, asked.at, count, time),
    }
}

// A refusal as the last line: any number, and a place.
pub fn refusal_line(page: &mut Page, number: u32, place: usize)
    ensures { Shows page.old (refusal_text number place) page.new }
{
    page.refusal(number, place);
    page.octet(b'\n');
}

// The same of a refusal as it is answered.
pub fn refused_line(page: &mut Page, r: Refused)
    ensures { Shows page.old (refusal_text r.number r.place) page.new }
{
    page.refused(r);
    page.octet(b'\n');
}
