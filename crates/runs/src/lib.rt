// A run of steps in one call: the layouts and rows from a place on, each told in one number, over a lent book that is checked once.
// What a run is stands in specs/Runs.antt, over elements Walk; the code of its turns and stretches of rows in walks.

#![tactic(auto)]

ghost use Rattle.std.specs.Prelude.{◌≡◌, ◌≤◌, ◌<◌, length};
ghost use Rattle.layouts.specs.Book.{IsBook};
ghost use Rattle.elements.specs.Walk.{lent_at};
ghost use Rattle.runs.specs.Runs.{layout_word, run_asked, reach_of};
ghost use Rattle.runs.specs.Answers.{met_word, Ran, run_tells, book_left, words_left};
ghost use Rattle.octets.specs.Limits.{longest, most_rows};

use elements::Met;
use octets::{Fault, Refused};
use walks::{Known, Moved};

// How many items a run has passed, and where it stands then.
#[derive(Clone, Copy)]
pub struct Went {
    pub count: usize,
    pub next: usize,
    pub rows: usize,
    pub used: usize,
}

// A layout in one number.
fn layout_word(number: u32, next: usize) -> u64
    requires { next < 1073741824 }
    ensures { result ≡ layout_word number next }
{
    u64::from(number) * walks::LABEL + (next as u64)
}

// An item in one number, by what is told of it.
fn item_word(met: Met, next: usize) -> u64
    requires { next < 1073741824 }
    ensures { result ≡ met_word met next }
{
    match met {
        Met::Layout(number, count) => layout_word(number, next),
        Met::Row(number, stated, count) => walks::row_word(number, stated, next),
        Met::End(count, time) => 0,
    }
}

// How many rows may follow one another behind so many items and so many rows: no step is told more than 1,048,576 rows.
fn reach(n: usize, rows: usize) -> usize
    requires { (n ≤ 4096) × (rows ≤ most_rows) }
    ensures { result ≡ reach_of n rows }
{
    (4096 - n).min(octets::MOST_ROWS + 1 - rows)
}

// The run from a place on, at most 4,096 items, over a book that is known to be good: rows by plans as far as they go, else one item by the exact reader. A refusal of the first step is the run's.
fn items<'d, 'b, 'w>(
    doc: &'d [u8],
    at: usize,
    rows: usize,
    book: &'b mut [u8],
    used: usize,
    words: &'w mut [u64],
) -> Result<Went, Refused>
    requires { (at ≤ length doc.now) × (length doc.now ≤ longest) × (rows ≤ most_rows) × IsBook book.old used × (length words.old ≡ 4096) }
    ensures { Ran book.old words.old (run_asked doc.now (lent_at at rows book.old used)) book.new words.new result }
{
    let mut known = Known::new();
    known.index(&book[..used]);
    let mut went = Went {
        count: 0,
        next: at,
        rows,
        used,
    };
    while went.count < 4096 {
        if octets::MOST_ROWS < went.rows {
            return Ok(went);
        }
        let most = reach(went.count, went.rows);
        match walks::go_on(
            doc,
            went.next,
            went.rows,
            &book[..went.used],
            went.used,
            &known,
            &known.numbers,
            &mut words[went.count..],
            most,
        ) {
            Err(refused) => {
                if went.count == 0 {
                    return Err(refused);
                }
                return Ok(went);
            }
            Ok(Moved::End(count, time, next)) => {
                return Ok(went);
            }
            Ok(Moved::Rows(next, count)) => {
                went.count += count;
                went.next = next;
                went.rows += count;
            }
            Ok(Moved::Item(gone)) => {
                words[went.count] = item_word(gone.met, gone.next);
                went.count += 1;
                if went.used < gone.used {
                    elements::grow(doc, went.next, gone.next, book, went.used);
                    known.keep(doc, went.next + 4, went.used);
                }
                went.next = gone.next;
                went.rows = gone.rows;
                went.used = gone.used;
            }
        }
    }
    Ok(went)
}

// A run of steps from any place, told the rows passed, over a lent book of which so many octets are used: as many items as follow one another, at most 4,096. It is refused as its first step is; behind an item, the end and a refusal stop it, and are left to the step there.
pub fn run<'d, 'b, 'w>(
    doc: &'d [u8],
    at: usize,
    rows: usize,
    book: &'b mut [u8],
    used: usize,
    words: &'w mut [u64; 4096],
) -> Result<Went, Refused>
    ensures { (result ≡ run_tells (run_asked doc.now (lent_at at rows book.old used)))
        × (book.new ≡ book_left book.old (run_asked doc.now (lent_at at rows book.old used)))
        × (words.new ≡ words_left words.old (run_asked doc.now (lent_at at rows book.old used))) }
{
    let lent = book.len();
    elements::lent_refusal(doc, rows, &book[..lent], used)?;
    if doc.len() < at {
        return Err(Refused {
            fault: Fault::CutShort,
            place: at,
        });
    }
    items(doc, at, rows, book, used, words)
}
