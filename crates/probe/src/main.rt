// The probe: commands on standard input, a line for the answer of each entry point.

#![tactic(auto)]

use printing::{Page, Show};
use probe_input::{Args, Feed};
use probe_writes::Pen;

// The commands that ask the reader, over as much of the document and the book as is lent. None: the arguments are bad.
fn read_turn(
    page: &mut Page,
    letter: u8,
    doc: &[u8],
    book: &mut [u8],
    used: usize,
    a: Args,
) -> Option<()> {
    if book.len() < used {
        return None;
    }
    probe_reads::ask(page, letter, doc, &mut book[..used], a)
}

// The commands of the reading half. How much of the document and of the book is lent stands in two numbers.
fn reads(
    page: &mut Page,
    letter: u8,
    doc: &mut [u8],
    book: &mut [u8],
    lent: &mut [usize; 2],
    a: Args,
    xs: &[u8],
) -> Option<()> {
    if letter == b'D' {
        probe_input::put(doc, 0, xs);
        lent[0] = xs.len();
        return Some(());
    }
    if letter == b'B' {
        probe_input::put(book, 0, xs);
        lent[1] = xs.len();
        return Some(());
    }
    let front = probe_input::front(doc, lent[0]);
    read_turn(page, letter, front, book, lent[1], a)
}

// Whether a command is of the reading half.
fn is_read(letter: u8) -> bool {
    matches!(
        letter,
        b'D' | b'B' | b'h' | b'w' | b's' | b'f' | b'y' | b'a' | b't'
    )
}

// One command, which has these arguments: the writer's pen then, if they are good.
fn turn(
    page: &mut Page,
    letter: u8,
    doc: &mut [u8],
    book: &mut [u8],
    lent: &mut [usize; 2],
    sheet: &mut [u8],
    shelf: &mut [u8],
    pen: Pen,
    a: Args,
    xs: &[u8],
) -> Option<Pen> {
    if is_read(letter) {
        reads(page, letter, doc, book, lent, a, xs)?;
        return Some(pen);
    }
    probe_writes::written(page, letter, pen, a, xs, sheet, shelf)
}

// The last line where the input is bad.
fn bad_input(page: &mut Page) {
    page.show_all(Show::Plain, b"bad input\n");
    page.flush();
}

// Commands until the input ends or is bad.
fn main(rt: HostRuntime) {
    let input = rt.stdin();
    let mut doc = [0u8; 65600];
    let mut book = [0u8; 40000];
    let mut lent = [0usize; 2];
    let mut sheet = [0u8; 65600];
    let mut shelf = [0u8; 40000];
    let mut pen = probe_writes::cleared();
    let mut given = [0u8; 65600];
    let mut buf = [0u8; 4096];
    let mut feed = Feed { at: 0, filled: 0 };
    let mut out = [0u8; 4096];
    let mut page = Page::new(&mut out);
    for _ in 0..u64::MAX {
        let Some((letter, rest)) = probe_input::letter(input, &mut buf, feed) else {
            return page.flush();
        };
        let Some(command) = probe_input::arguments(letter, input, &mut buf, rest, &mut given) else {
            return bad_input(&mut page);
        };
        let xs = probe_input::front(&given, command.count as usize);
        let Some(then) = turn(
            &mut page,
            letter,
            &mut doc,
            &mut book,
            &mut lent,
            &mut sheet,
            &mut shelf,
            pen,
            command.args,
            xs,
        ) else {
            return bad_input(&mut page);
        };
        feed = command.behind;
        pen = then;
    }
    page.flush();
}
