// The writing half of the probe: each command calls an entry point of the writer and prints what it answered.

#![tactic(auto)]

use kinds::Basic;
use octets::Refused;
use printing::{Page, Show};
use probe_input::Args;
use writer::{Standing, State, Wanted};

// Where the writer stands, and the sizes of the buffer and the book that are lent to it.
#[derive(Clone, Copy)]
pub struct Pen {
    pub from: Standing,
    pub size: usize,
    pub shelf: usize,
}

// The arguments that a call takes; a layout's number may complete it, and so change the book.
#[derive(Clone, Copy)]
pub enum Sort {
    Text,
    Number,
    Layout,
    Time,
    Row,
    Value,
    Nothing,
    Unknown,
}

// The first octets of a lent buffer set.
fn set_front(s: &mut [u8], n: usize, x: u8) {
    let to = n.min(s.len());
    s[..to].fill(x);
}

// Before any command nothing is lent.
pub fn cleared() -> Pen {
    Pen {
        from: writing::fresh(),
        size: 0,
        shelf: 0,
    }
}

// The command N: the size of the buffer.
fn fresh(a: Args, sheet: &mut [u8], shelf: &mut [u8]) -> Option<Pen> {
    let size = a.one as usize;
    if sheet.len() < size {
        return None;
    }
    set_front(sheet, size, 0xaa);
    set_front(shelf, octets::BOOK_ROOM, 0x55);
    Some(Pen {
        from: writing::fresh(),
        size,
        shelf: octets::BOOK_ROOM,
    })
}

// The command W: the book's octets, and how many of them are used.
fn lent(pen: Pen, a: Args, xs: &[u8], shelf: &mut [u8]) -> Pen {
    probe_input::put(shelf, 0, xs);
    let from = Standing {
        used: a.one as usize,
        ..pen.from
    };
    Pen {
        from,
        shelf: xs.len(),
        ..pen
    }
}

// A turn by its number in image order.
fn turn(n: u64) -> Wanted {
    match n {
        0 => Wanted::Recorder,
        1 => Wanted::StartTime,
        2 => Wanted::DefaultNamespace,
        3 => Wanted::NamespaceCount,
        4 => Wanted::Uri,
        5 => Wanted::ShortName,
        6 => Wanted::ServiceCount,
        7 => Wanted::Service,
        8 => Wanted::DocumentId,
        9 => Wanted::Element,
        10 => Wanted::TypeName,
        11 => Wanted::AttributeCount,
        12 => Wanted::AttributeName,
        13 => Wanted::AttributeType,
        14 => Wanted::Value,
        _ => Wanted::Nothing,
    }
}

// The number itself, or the largest of 32 bits where it is larger: both are over every limit.
fn cut(n: u64) -> u32 {
    u32::try_from(n).unwrap_or(u32::MAX)
}

// The command S: a turn, and the state's numbers.
fn placed(pen: Pen, a: Args) -> Option<Pen> {
    if 15 < a.one {
        return None;
    }
    let state = State {
        place: a.two as usize,
        turn: turn(a.one),
        count: cut(a.three),
        start: a.four as usize,
        rows: cut(a.five),
    };
    let from = Standing { state, ..pen.from };
    Some(Pen { from, ..pen })
}

// The command i.
fn image(page: &mut Page, sheet: &[u8], place: usize) {
    page.show_all(Show::Plain, b"image");
    probe_input::part(page, probe_input::front(sheet, place));
    page.octet(b'\n');
}

// A call that is given octets.
fn text_call(
    letter: u8,
    from: Standing,
    sheet: &mut [u8],
    shelf: &[u8],
    xs: &[u8],
) -> Result<Standing, Refused> {
    match letter {
        b'1' => writing::recorder(from, sheet, shelf, xs),
        b'3' => writing::default_namespace(from, sheet, shelf, xs),
        b'5' => writing::uri(from, sheet, shelf, xs),
        b'6' => writing::short_name(from, sheet, shelf, xs),
        b'8' => writing::service(from, sheet, shelf, xs),
        b'9' => writing::document_id(from, sheet, shelf, xs),
        b'm' => writing::type_name(from, sheet, shelf, xs),
        _ => writing::attribute_name(from, sheet, shelf, xs),
    }
}

// A call that is given a number of 32 bits.
fn number_call(
    letter: u8,
    from: Standing,
    sheet: &mut [u8],
    shelf: &[u8],
    n: u32,
) -> Result<Standing, Refused> {
    match letter {
        b'4' => writing::namespace_count(from, sheet, shelf, n),
        b'7' => writing::service_count(from, sheet, shelf, n),
        _ => writing::open_layout(from, sheet, shelf, n),
    }
}

// The commands c and u.
fn layout_call(
    letter: u8,
    from: Standing,
    sheet: &mut [u8],
    shelf: &mut [u8],
    n: u32,
) -> Result<Standing, Refused> {
    if letter == b'c' {
        writing::attribute_count(from, sheet, shelf, n)
    } else {
        writing::attribute_type(from, sheet, shelf, n)
    }
}

// A call that is given a time.
fn time_call(
    letter: u8,
    from: Standing,
    sheet: &mut [u8],
    shelf: &[u8],
    bits: u64,
) -> Result<Standing, Refused> {
    let time = bits.cast_signed();
    if letter == b'2' {
        writing::start_time(from, sheet, shelf, time)
    } else {
        writing::finish(from, sheet, shelf, time)
    }
}

// The commands x and z.
fn plain_call(
    letter: u8,
    from: Standing,
    sheet: &mut [u8],
    shelf: &[u8],
) -> Result<Standing, Refused> {
    if letter == b'x' {
        writing::close_row(from, sheet, shelf)
    } else {
        writing::give_up(from, sheet, shelf)
    }
}

// The low octets of a number, as many as a basic type has.
fn low(b: Basic, n: u64) -> u64 {
    match writer::width_of(b) {
        1 => n % 256,
        2 => n % 65536,
        4 => n % 4294967296,
        _ => n,
    }
}

// The basic type of a low octet, or any where it is none's.
fn basic(code: u64) -> Basic {
    Basic::try_from(cut(code)).unwrap_or(Basic::Int)
}

// A value: octets for hexBinary and string, else a number.
fn value_call(
    b: Basic,
    from: Standing,
    sheet: &mut [u8],
    shelf: &[u8],
    bits: u64,
    xs: &[u8],
) -> Result<Standing, Refused> {
    if writer::suits_octets(b) {
        writing::value_octets(from, sheet, shelf, b, xs)
    } else {
        writing::value_number(from, sheet, shelf, b, low(b, bits))
    }
}

// What arguments a letter's call takes.
fn sort_of(letter: u8) -> Sort {
    match letter {
        b'1' | b'3' | b'5' | b'6' | b'8' | b'9' | b'm' | b'n' => Sort::Text,
        b'4' | b'7' | b'k' => Sort::Number,
        b'c' | b'u' => Sort::Layout,
        b'2' | b'e' => Sort::Time,
        b'o' => Sort::Row,
        b'v' => Sort::Value,
        b'x' | b'z' => Sort::Nothing,
        _ => Sort::Unknown,
    }
}

// Whether a call is known and its numbers are in their ranges.
fn good(sort: Sort, a: Args) -> bool {
    let most = u64::from(u32::MAX);
    match sort {
        Sort::Number | Sort::Layout => a.one <= most,
        Sort::Row => a.one <= most && a.two <= 1,
        Sort::Value => (0x21..=0x2d).contains(&a.one),
        Sort::Unknown => false,
        _ => true,
    }
}

// A call that leaves the book, its numbers in their ranges.
fn field_call(
    letter: u8,
    sort: Sort,
    from: Standing,
    sheet: &mut [u8],
    shelf: &[u8],
    a: Args,
    xs: &[u8],
) -> Result<Standing, Refused> {
    match sort {
        Sort::Text => text_call(letter, from, sheet, shelf, xs),
        Sort::Number => number_call(letter, from, sheet, shelf, cut(a.one)),
        Sort::Time => time_call(letter, from, sheet, shelf, a.one),
        Sort::Row => writing::open_row(from, sheet, shelf, cut(a.one), a.two == 1),
        Sort::Value => value_call(basic(a.one), from, sheet, shelf, a.two, xs),
        _ => plain_call(letter, from, sheet, shelf),
    }
}

// The call of a letter.
fn call(
    letter: u8,
    sort: Sort,
    from: Standing,
    sheet: &mut [u8],
    shelf: &mut [u8],
    a: Args,
    xs: &[u8],
) -> Result<Standing, Refused> {
    match sort {
        Sort::Layout => layout_call(letter, from, sheet, shelf, cut(a.one)),
        _ => field_call(letter, sort, from, sheet, shelf, a, xs),
    }
}

// What a call answered.
fn answer_words(page: &mut Page, answer: Result<Standing, Refused>) {
    match answer {
        Ok(next) => {
            page.named(b"done ", next.state.place as u64);
            page.named(b" ", next.used as u64);
        }
        Err(r) => page.refused(r),
    }
}

// What a call answered, with the checksums of the buffer and the book.
fn answer_line(page: &mut Page, answer: Result<Standing, Refused>, sheet: &[u8], shelf: &[u8]) {
    answer_words(page, answer);
    probe_input::sum(page, sheet);
    probe_input::sum(page, shelf);
    page.octet(b'\n');
}

// The pen behind a call: a refusal leaves it as it was.
fn moved(pen: Pen, answer: &Result<Standing, Refused>) -> Pen {
    match answer {
        Ok(from) => Pen { from: *from, ..pen },
        Err(_) => pen,
    }
}

// A command over the buffer and the book that are lent.
fn lent_turn(
    page: &mut Page,
    letter: u8,
    pen: Pen,
    a: Args,
    xs: &[u8],
    sheet: &mut [u8],
    shelf: &mut [u8],
) -> Option<Pen> {
    if letter == b'P' {
        probe_input::put(sheet, a.one as usize, xs);
        return Some(pen);
    }
    if letter == b'i' {
        image(page, sheet, pen.from.state.place);
        return Some(pen);
    }
    let sort = sort_of(letter);
    if !good(sort, a) {
        return None;
    }
    let answer = call(letter, sort, pen.from, sheet, shelf, a, xs);
    let then = moved(pen, &answer);
    answer_line(page, answer, sheet, shelf);
    Some(then)
}

// A command over the parts that are lent of the buffer and the book.
fn lent_parts(
    page: &mut Page,
    letter: u8,
    pen: Pen,
    a: Args,
    xs: &[u8],
    sheet: &mut [u8],
    shelf: &mut [u8],
) -> Option<Pen> {
    if sheet.len() < pen.size || shelf.len() < pen.shelf {
        return None;
    }
    lent_turn(
        page,
        letter,
        pen,
        a,
        xs,
        &mut sheet[..pen.size],
        &mut shelf[..pen.shelf],
    )
}

// A command of the writing half: the pen then, or None where the arguments are bad.
pub fn written(
    page: &mut Page,
    letter: u8,
    pen: Pen,
    a: Args,
    xs: &[u8],
    sheet: &mut [u8],
    shelf: &mut [u8],
) -> Option<Pen> {
    match letter {
        b'N' => fresh(a, sheet, shelf),
        b'W' => Some(lent(pen, a, xs, shelf)),
        b'S' => placed(pen, a),
        _ => lent_parts(page, letter, pen, a, xs, sheet, shelf),
    }
}
