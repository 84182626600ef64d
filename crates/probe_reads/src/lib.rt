// The reading half of the probe: each command calls an entry point of the reader and prints what it answered.

#![tactic(auto)]

ghost use Rattle.printing.specs.Pages.{Shows};
ghost use Rattle.probe_reads.specs.Words.{head_text};

use elements::{Met, Step};
use kinds::Kind;
use octets::Refused;
use printing::{Page, Show};
use probe_input::Args;
use questions::{Asked, TypedValue};

// A word, or the refusal of what was asked.
fn head(page: &mut Page, refusal: Result<(), Refused>, word: &[u8])
    ensures { Shows page.old (head_text refusal word.now) page.new }
{
    match refusal {
        Ok(()) => page.show_all(Show::Plain, word),
        Err(r) => page.refused(r),
    }
}

// A blank and a count or a place.
fn then(page: &mut Page, x: usize) {
    page.named(b" ", x as u64);
}

// The command h.
fn header(page: &mut Page, doc: &[u8]) {
    match reading::header(doc) {
        Err(r) => page.refused(r),
        Ok(head) => {
            page.show_all(Show::Plain, b"header ");
            page.signed(head.start);
            then(page, head.namespaces as usize);
            then(page, head.services as usize);
            then(page, head.next);
        }
    }
}

// The command w.
fn whole(page: &mut Page, doc: &[u8]) {
    match reading::whole(doc) {
        Err(r) => page.refused(r),
        Ok(rows) => page.named(b"whole ", rows as u64),
    }
}

// A word and two numbers.
fn pair(page: &mut Page, word: &[u8], x: u32, y: u32) {
    page.named(word, u64::from(x));
    then(page, y as usize);
}

// What an element says.
fn met(page: &mut Page, met: Met) {
    match met {
        Met::Layout(number, count) => pair(page, b"layout ", number, count),
        Met::Row(number, stated, count) => {
            pair(page, b"row ", number, u32::from(stated));
            then(page, count as usize);
        }
        Met::End(count, time) => {
            page.named(b"end ", u64::from(count));
            page.octet(b' ');
            page.signed(time);
        }
    }
}

// An element, and the numbers behind it.
fn stepped(page: &mut Page, step: Step) {
    met(page, step.met);
    then(page, step.next);
    then(page, step.rows);
    then(page, step.used);
}

// The command s: a place, the rows passed and the octets used.
fn step(page: &mut Page, doc: &[u8], book: &mut [u8], a: Args) {
    match reading::step(doc, a.one as usize, a.two as usize, book, a.three as usize) {
        Err(r) => page.refused(r),
        Ok(step) => stepped(page, step),
    }
    probe_input::sum(page, book);
}

// A type's number.
fn kind(page: &mut Page, word: &[u8], kind: Kind) {
    let derived = u64::from(kind.derived);
    page.show_all(Show::Plain, word);
    page.hex(4, derived * 256 + u64::from(u32::from(kind.basic)));
}

// A field's refusal, or its type and value.
fn field_head(page: &mut Page, field: Result<TypedValue, Refused>) {
    match field {
        Err(r) => page.refused(r),
        Ok(is) => {
            kind(page, b"field ", is.kind);
            page.octet(b' ');
            page.value(is.value);
        }
    }
}

// What a question's command asks over: its first three numbers are a place, the rows passed and the octets used.
fn over<'d, 'b>(doc: &'d [u8], book: &'b [u8], a: Args) -> Asked<'d, 'b> {
    Asked {
        doc,
        at: a.one as usize,
        rows: a.two as usize,
        book,
        used: a.three as usize,
    }
}

// The command f: a step's numbers, and the field's.
fn field(page: &mut Page, asked: Asked, i: usize) {
    let refusal = asked.row_refusal(i);
    field_head(page, refusal.and(asked.field(i)));
    probe_input::part(page, asked.field_name(i));
    probe_input::part(page, asked.field_octets(i));
}

// The command y.
fn type_name(page: &mut Page, asked: Asked) {
    head(page, asked.layout_refusal(), b"name");
    probe_input::part(page, asked.type_name());
}

// An attribute's refusal, or its type.
fn attribute_head(page: &mut Page, typing: Result<Kind, Refused>) {
    match typing {
        Err(r) => page.refused(r),
        Ok(is) => kind(page, b"attribute ", is),
    }
}

// The command a: a step's numbers, and the attribute's.
fn attribute(page: &mut Page, asked: Asked, i: usize) {
    let refusal = asked.attribute_refusal(i);
    attribute_head(page, refusal.and(asked.attribute_kind(i)));
    probe_input::part(page, asked.attribute_name(i));
}

// Whether a string of the header is refused.
fn text_refusal(doc: &[u8], which: u64, n: usize) -> Result<(), Refused> {
    match which {
        2 | 3 => header_questions::namespace_refusal(doc, n),
        4 => header_questions::service_refusal(doc, n),
        _ => header_questions::header_refusal(doc),
    }
}

// A string of the header.
fn text_part<'d>(doc: &'d [u8], which: u64, n: usize) -> &'d [u8] {
    match which {
        0 => header_questions::recorder(doc),
        1 => header_questions::default_namespace(doc),
        2 => header_questions::namespace_uri(doc, n),
        3 => header_questions::namespace_short(doc, n),
        4 => header_questions::service(doc, n),
        _ => header_questions::document_id(doc),
    }
}

// The command t: which string, and its number.
fn text(page: &mut Page, doc: &[u8], a: Args) {
    let which = a.one;
    let i = a.two as usize;
    head(page, text_refusal(doc, which, i), b"text");
    probe_input::part(page, text_part(doc, which, i));
}

// What a command prints that changes no book, without the end of its line.
fn words(page: &mut Page, letter: u8, doc: &[u8], book: &[u8], a: Args) {
    match letter {
        b'h' => header(page, doc),
        b'w' => whole(page, doc),
        b't' => text(page, doc, a),
        b'y' => type_name(page, over(doc, book, a)),
        b'f' => field(page, over(doc, book, a), a.four as usize),
        _ => attribute(page, over(doc, book, a), a.four as usize),
    }
}

// A command of the reading half, over the document and the book that are lent. None: its arguments are bad.
pub fn ask(page: &mut Page, letter: u8, doc: &[u8], book: &mut [u8], a: Args) -> Option<()> {
    if letter == b't' && 5 < a.one {
        return None;
    }
    if letter == b's' {
        step(page, doc, book, a);
    } else {
        words(page, letter, doc, book, a);
    }
    page.octet(b'\n');
    Some(())
}
