// Reading for Rattle callers: the header check, one step, and the whole check. Each takes every input.
// The definitions: headers Header (the header), elements Steps (a step) and Reading (the whole check); the code below them: headers, elements and walks.

#![tactic(auto)]

ghost use Rattle.std.specs.Prelude.{◌≡◌};
ghost use Rattle.headers.specs.Header.{header_at};
ghost use Rattle.elements.specs.Steps.{step_at, octets_left};
ghost use Rattle.elements.specs.Reading.{whole};
ghost use Rattle.elements.specs.Answers.{tells};
ghost use Rattle.reading.specs.Answers.{head_tells, check_tells};

use elements::Step;
use octets::Refused;

// The header's numbers: the start time, how many other namespaces and service definitions there are, and the place behind the header.
#[derive(Clone, Copy)]
pub struct Head {
    pub start: i64,
    pub namespaces: u32,
    pub services: u32,
    pub next: usize,
}

// The header of a document.
pub fn header(doc: &[u8]) -> Result<Head, Refused>
    ensures { result ≡ head_tells (header_at doc.now) }
{
    let places = headers::header_at(doc)?;
    Ok(Head {
        start: octets::u64_at(doc, places.start).cast_signed(),
        namespaces: octets::u32_at(doc, places.namespaces),
        services: octets::u32_at(doc, places.services),
        next: places.end,
    })
}

// One step from any place, told the rows passed, over a lent book of which so many octets are used. A refusal leaves the book as it was.
pub fn step<'d, 'b>(
    doc: &'d [u8],
    at: usize,
    rows: usize,
    book: &'b mut [u8],
    used: usize,
) -> Result<Step, Refused>
    ensures { (result ≡ tells (step_at doc.now at rows book.old used)) × (book.new ≡ octets_left book.old (step_at doc.now at rows book.old used)) }
{
    let lent = book.len();
    elements::lent_refusal(doc, rows, &book[..lent], used)?;
    elements::element(doc, at, rows, book, used)
}

// The whole check: how many rows a document has.
pub fn whole(doc: &[u8]) -> Result<usize, Refused>
    ensures { result ≡ check_tells (whole doc.now) }
{
    let places = headers::header_at(doc)?;
    let (rows, _) = walks::rows_from(doc, places.end)?;
    Ok(rows)
}
