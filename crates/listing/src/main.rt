// The listing: a document on standard input, a line for its header and for each element.

#![tactic(auto)]

ghost use Rattle.std.specs.Prelude.{◌≤◌, [], length};
ghost use Rattle.octets.specs.Limits.{longest};
ghost use Rattle.elements.specs.Walk.{spot_at, through};
ghost use Rattle.printing.specs.Pages.{Shows};
ghost use Rattle.listing.specs.Listing.{lines_of, listing, listed};

use printing::{Page, Show};
use questions::Asked;
use walks::{Known, Moved};

// The lines of the elements from a place on, up to the end or a refusal.
fn element_lines(page: &mut Page, doc: &[u8], at: usize)
    requires { (at ≤ length doc.now) × (length doc.now ≤ longest) }
    ensures { Shows page.old (lines_of (through doc.now (spot_at at 0 []))) page.new }
{
    let mut book = [0u8; octets::BOOK_ROOM];
    let mut known = Known::new();
    let mut pos = at;
    let mut rows: usize = 0;
    let mut used: usize = 0;
    let mut words = [0u64; 1];
    loop {
        let moved = match walks::go_on(
            doc,
            pos,
            rows,
            &book[..used],
            used,
            &known,
            &known.numbers,
            &mut words,
            0,
        ) {
            Ok(moved) => moved,
            Err(r) => {
                return lines::refused_line(page, r);
            }
        };
        match moved {
            // At most no row: each is an item.
            Moved::Rows(next, count) => {
                return;
            }
            Moved::End(count, time, next) => {
                return lines::end_line(page, pos, count, time);
            }
            Moved::Item(gone) => {
                let asked = Asked {
                    doc,
                    at: pos,
                    rows,
                    book: &book,
                    used,
                };
                lines::element_line(page, asked, gone.met);
                if used < gone.used {
                    elements::grow(doc, pos, gone.next, &mut book, used);
                    known.keep(doc, pos + 4, used);
                }
                pos = gone.next;
                rows = gone.rows;
                used = gone.used;
            }
        }
    }
}

// The lines of a document.
fn document(page: &mut Page, doc: &[u8])
    ensures { Shows page.old (listing doc.now) page.new }
{
    match reading::header(doc) {
        Err(r) => lines::refused_line(page, r),
        Ok(head) => {
            lines::header_line(page, head.start);
            element_lines(page, doc, head.next);
        }
    }
}

// What is printed of the input: its listing, or that it is too long to be listed.
fn listed(page: &mut Page, doc: &[u8])
    ensures { Shows page.old (listed doc.now) page.new }
{
    if 65536 < doc.len() {
        return page.show_all(Show::Plain, b"input too long\n");
    }
    document(page, doc);
}

// One octet more than the limit is read, so that an input over it is seen.
fn main() {
    let mut doc = [0u8; 65537];
    let mut out = [0u8; 4096];
    let n = io::read_full(0, &mut doc);
    let mut page = Page::new(&mut out);
    listed(&mut page, &doc[..n]);
    page.flush();
}
