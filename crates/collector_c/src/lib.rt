// The calls for C, exported: each says what its namesake in crate collector says, and passes on what it is lent.

#![tactic(auto)]

ghost use Rattle.std.specs.Prelude.{◌≡◌};
ghost use Rattle.headers.specs.Header.{header_at};
ghost use Rattle.elements.specs.Steps.{step_at, octets_left};
ghost use Rattle.elements.specs.Reading.{whole};
ghost use Rattle.elements.specs.Walk.{lent_at};
ghost use Rattle.runs.specs.Runs.{run_asked};
ghost use Rattle.runs.specs.Answers.{book_left, words_left};
ghost use Rattle.collector.specs.Calls.{answered, head_leaves, step_leaves, run_leaves, count_leaves};

#[unsafe(no_mangle)]
pub extern "C" fn ipdr_header(doc: &[u8], out: &mut [u64; 8]) -> u64
    ensures { (result ≡ answered (header_at doc.now)) × (out.new ≡ head_leaves out.old (header_at doc.now)) }
{
    collector::ipdr_header(doc, out)
}

#[unsafe(no_mangle)]
pub extern "C" fn ipdr_step<'d, 'b, 'o>(
    doc: &'d [u8],
    at: u32,
    rows: u32,
    book: &'b mut [u8],
    used: u32,
    out: &'o mut [u64; 8],
) -> u64
    ensures { (result ≡ answered (step_at doc.now at rows book.old used))
        × (out.new ≡ step_leaves out.old (step_at doc.now at rows book.old used))
        × (book.new ≡ octets_left book.old (step_at doc.now at rows book.old used)) }
{
    collector::ipdr_step(doc, at, rows, book, used, out)
}

#[unsafe(no_mangle)]
pub extern "C" fn ipdr_run<'d, 'b, 'w, 'o>(
    doc: &'d [u8],
    at: u32,
    rows: u32,
    book: &'b mut [u8],
    used: u32,
    words: &'w mut [u64; 4096],
    out: &'o mut [u64; 8],
) -> u64
    ensures { (result ≡ answered (run_asked doc.now (lent_at at rows book.old used)))
        × (out.new ≡ run_leaves out.old (run_asked doc.now (lent_at at rows book.old used)))
        × (book.new ≡ book_left book.old (run_asked doc.now (lent_at at rows book.old used)))
        × (words.new ≡ words_left words.old (run_asked doc.now (lent_at at rows book.old used))) }
{
    collector::ipdr_run(doc, at, rows, book, used, words, out)
}

#[unsafe(no_mangle)]
pub extern "C" fn ipdr_whole(doc: &[u8], rows: &mut u64) -> u64
    ensures { (result ≡ answered (whole doc.now)) × (rows.new ≡ count_leaves rows.old (whole doc.now)) }
{
    collector::ipdr_whole(doc, rows)
}
