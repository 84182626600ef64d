// Reading for C callers: the header check, one step, a run of steps and the whole check, on numbers and octet slices. Each takes every input. Crate collector_c exports them to C.
// How answers are packed for C stands in specs/Calls.antt; what they are is defined where reading and runs say.

#![tactic(auto)]

ghost use Rattle.std.specs.Prelude.{◌≡◌, ◌<◌};
ghost use Rattle.headers.specs.Header.{header_at};
ghost use Rattle.elements.specs.Steps.{step_at, octets_left};
ghost use Rattle.elements.specs.Reading.{whole};
ghost use Rattle.elements.specs.Walk.{lent_at};
ghost use Rattle.runs.specs.Runs.{run_asked};
ghost use Rattle.runs.specs.Answers.{book_left, words_left};
ghost use Rattle.collector.specs.Calls.{packed, answered, head_leaves, met_words, step_leaves, run_leaves, count_leaves};

use elements::Met;
use octets::Refused;

// A refusal as one number.
fn pack(refused: Refused) -> u64
    requires { refused.place < 4294967296 }
    ensures { result ≡ packed refused.number refused.place }
{
    u64::from(refused.fault.number()) * 4294967296 + (refused.place as u64)
}

// The words of an element.
fn words_of(met: Met, next: u64, rows: u64, used: u64) -> [u64; 8]
    ensures { result ≡ met_words met next rows used }
{
    match met {
        Met::Layout(number, count) => [
            1,
            next,
            rows,
            used,
            u64::from(number),
            u64::from(count),
            0,
            0,
        ],
        Met::Row(number, stated, count) => [
            2,
            next,
            rows,
            used,
            u64::from(number),
            u64::from(count),
            u64::from(stated),
            0,
        ],
        Met::End(count, time) => [
            3,
            next,
            rows,
            used,
            u64::from(count),
            time.cast_unsigned(),
            0,
            0,
        ],
    }
}

// The header check: its numbers go to the first four words.
pub fn ipdr_header(doc: &[u8], out: &mut [u64; 8]) -> u64
    ensures { (result ≡ answered (header_at doc.now)) × (out.new ≡ head_leaves out.old (header_at doc.now)) }
{
    let head = match reading::header(doc) {
        Ok(head) => head,
        Err(refused) => return pack(refused),
    };
    let start = head.start.cast_unsigned();
    out[0] = start;
    out[1] = u64::from(head.namespaces);
    out[2] = u64::from(head.services);
    out[3] = head.next as u64;
    0
}

// One step: its words go to all eight, and a new layout to the book.
pub fn ipdr_step<'d, 'b, 'o>(
    doc: &'d [u8],
    at: u32,
    rows: u32,
    book: &'b mut [u8],
    used: u32,
    out: &'o mut [u64; 8],
) -> u64
    ensures { (result ≡ answered (step_at doc.now at rows book.old used))
        × (out.new ≡ step_leaves out.old (step_at doc.now at rows book.old used))
        × (book.new ≡ octets_left book.old (step_at doc.now at rows book.old used)) }
{
    let step = match reading::step(doc, at as usize, rows as usize, book, used as usize) {
        Ok(step) => step,
        Err(refused) => return pack(refused),
    };
    *out = words_of(
        step.met,
        step.next as u64,
        step.rows as u64,
        step.used as u64,
    );
    0
}

// A run of steps: how many layouts and rows it has passed and where it stands then go to the first four words, each layout and row to a word of its own, and new layouts to the book.
pub fn ipdr_run<'d, 'b, 'w, 'o>(
    doc: &'d [u8],
    at: u32,
    rows: u32,
    book: &'b mut [u8],
    used: u32,
    words: &'w mut [u64; 4096],
    out: &'o mut [u64; 8],
) -> u64
    ensures { (result ≡ answered (run_asked doc.now (lent_at at rows book.old used)))
        × (out.new ≡ run_leaves out.old (run_asked doc.now (lent_at at rows book.old used)))
        × (book.new ≡ book_left book.old (run_asked doc.now (lent_at at rows book.old used)))
        × (words.new ≡ words_left words.old (run_asked doc.now (lent_at at rows book.old used))) }
{
    let went = match runs::run(doc, at as usize, rows as usize, book, used as usize, words) {
        Ok(went) => went,
        Err(refused) => return pack(refused),
    };
    *out = [
        went.count as u64,
        went.next as u64,
        went.rows as u64,
        went.used as u64,
        0,
        0,
        0,
        0,
    ];
    0
}

// The whole check: the row count.
pub fn ipdr_whole(doc: &[u8], rows: &mut u64) -> u64
    ensures { (result ≡ answered (whole doc.now)) × (rows.new ≡ count_leaves rows.old (whole doc.now)) }
{
    match reading::whole(doc) {
        Ok(count) => {
            *rows = count as u64;
            0
        }
        Err(refused) => pack(refused),
    }
}
