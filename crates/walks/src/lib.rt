// Walking through elements: what is kept of a book's layouts while rows are read, and how a walk goes on, by a stretch of rows or by one element.
// The definition of going through elements is Walk, in crate elements; of what is kept, Kept, here.

#![tactic(auto)]

ghost use Rattle.std.specs.Prelude.{◌≡◌, [], List, ℕ, ◌≤◌, ◌<◌, ◌+◌, ◌*◌, length, set, true};
ghost use Rattle.octets.specs.Limits.{longest, most_rows, most_layouts};
ghost use Rattle.octets.specs.Reading.{ok, is_ok};
ghost use Rattle.octets.specs.Answers.{counts};
ghost use Rattle.layouts.specs.Book.{Book, position};
ghost use Rattle.layouts.specs.Layout.{Layout, layout_at};
ghost use Rattle.layouts.specs.Answers.{Looks};
ghost use Rattle.plans.specs.Plan.{most_steps};
ghost use Rattle.elements.specs.Walk.{spot_at, through};
ghost use Rattle.elements.specs.Reading.{rows_read};
ghost use Rattle.walks.specs.Kept.{empty, Planned, Plans, Numbered, Shelved, Kept, Indexes, Keeps, Image, Images};
ghost use Rattle.walks.specs.Rows.{row_word, Tried, Strides};
ghost use Rattle.walks.specs.Answers.{step_moved, Bears, Borne, GoesOn};

use elements::{ElementKind, Met, Step};
use layouts::Looked;
use octets::Refused;

// What the label, the bit of a row and the bit of a stated length count in a word: 2^32, 2^31 and 2^30.
pub const LABEL: u64 = 0x1_0000_0000;

const ROW: u64 = 0x8000_0000;

const STATED: u64 = 0x4000_0000;

// What is kept of a book's layouts, in their order: of the i-th, its number in numbers[i], with 2^32 added where it has no plan; its place in places[i]; and where its plan stands in steps[i].
// `count` layouts are kept. Plans stand behind the first 64 steps, one behind another; `filled` is the index behind the last.
#[derive(Clone, Copy)]
pub struct Known {
    pub numbers: [u64; octets::MOST_LAYOUTS],
    pub places: [u32; octets::MOST_LAYOUTS],
    pub steps: [u16; plans::MOST_STEPS],
    pub count: usize,
    pub filled: usize,
}

// The place behind rows one behind another, and how many they are.
#[derive(Clone, Copy)]
pub struct Stretch {
    pub next: usize,
    pub count: usize,
}

// An item: what it says, its layout's position, and where the walk stands behind it, by the place, the rows passed and the octets of the book that are used.
#[derive(Clone, Copy)]
pub struct Gone {
    pub met: Met,
    pub position: usize,
    pub next: usize,
    pub rows: usize,
    pub used: usize,
}

// How a walk went on: over rows, by the place behind them and how many; by an item; or to the end, by its count, its time and the place behind it.
#[derive(Clone, Copy)]
pub enum Moved {
    Rows(usize, usize),
    Item(Gone),
    End(u32, i64, usize),
}

impl Known {
    // Before any layout is kept: plans are put behind the steps that say where they stand.
    pub fn new() -> Known
        ensures { result ≡ empty }
    {
        Known {
            numbers: [0; octets::MOST_LAYOUTS],
            places: [0; octets::MOST_LAYOUTS],
            steps: [0; plans::MOST_STEPS],
            count: 0,
            filled: octets::MOST_LAYOUTS,
        }
    }

    // The position of a number in the book, or the count of layouts where it has none of that number.
    pub fn position_of(&self, number: u32) -> usize
        requires { self.now.count ≤ most_layouts }
        ensures { (book : Book) → Numbered self.now book → result ≡ position number book }
    {
        for i in 0..self.count {
            if self.numbers[i] % LABEL == u64::from(number) {
                return i;
            }
        }
        self.count
    }

    // The index of a number whose layout has a plan: the index that was last, or the one behind it, or the number's position.
    pub fn index_of(&self, last: usize, number: u32) -> Option<usize>
        requires { (self.now.count ≤ most_layouts) × (last < self.now.count) }
        ensures { Indexes self.now number result }
    {
        let title = u64::from(number);
        if self.numbers[last] == title {
            return Some(last);
        }
        if last + 1 < self.count && self.numbers[last + 1] == title {
            return Some(last + 1);
        }
        let i = self.position_of(number);
        if i < self.count && self.numbers[i] == title {
            return Some(i);
        }
        None
    }

    // Where the layout of a position stands.
    pub fn looked_at(&self, i: usize) -> Looked
        requires { self.now.count ≤ most_layouts }
        ensures { (shelf : List ℕ) (number : ℕ) (book : Book) → length book ≡ self.now.count → Shelved shelf self.now book → i ≡ position number book → Looks shelf number book result }
    {
        if self.count <= i {
            return Looked::Missing(self.count);
        }
        Looked::There(self.places[i] as usize)
    }

    // Keeps a layout that stands at a place of the document: its number, a place at which it is found, and its plan if there is room for it that leaves eight steps to each layout that may follow.
    pub fn keep(&mut self, doc: &[u8], at: usize, place: usize)
        requires { (length doc.now ≤ longest) × (is_ok (layout_at doc.now at) ≡ true) × (length self.old.steps ≡ most_steps) × (self.old.count < most_layouts) × (most_layouts ≤ self.old.filled) × (self.old.filled ≤ 704 + self.old.count * 8) × (place < 4294967296) }
        ensures { (l : Layout) (end : ℕ) → layout_at doc.now at ≡ ok l end → Keeps l place self.old self.new }
    {
        let i = self.count;
        let from = self.filled;
        let number = u64::from(layouts::layout_number(doc, at));
        let counted = layouts::attributes_at(doc, at);
        let count = octets::u32_at(doc, counted);
        self.places[i] = place as u32;
        self.count = i + 1;
        match plans::put_plan(doc, counted + 4, count, &mut self.steps, from, 712 + i * 8) {
            None => {
                self.numbers[i] = number + LABEL;
            }
            Some(end) => {
                self.numbers[i] = number;
                self.steps[i] = from as u16;
                self.filled = end;
            }
        }
    }

    // Keeps all layouts of a book by their places in its octets, and no other.
    pub fn index(&mut self, s: &[u8])
        requires { (length s.now ≤ longest) × (length self.old.numbers ≡ most_layouts) × (length self.old.places ≡ most_layouts) × (length self.old.steps ≡ most_steps) × Images s.now }
        ensures { (book : Book) → Image s.now book → Kept s.now self.new book }
    {
        self.count = 0;
        self.filled = octets::MOST_LAYOUTS;
        let mut pos = 0;
        while pos < s.len() {
            self.keep(s, pos, pos);
            pos = layouts::layout_skip(s, pos);
        }
    }
}

// The place behind the row at a place and its layout's position, if the plan of its layout passes it. At none the exact reader is to be asked.
fn quick_row<'d, 'k>(
    doc: &'d [u8],
    at: usize,
    known: &'k Known,
    last: usize,
) -> Option<(usize, usize)>
    requires { (at ≤ length doc.now) × (length doc.now ≤ longest) × (last < known.now.count) × Plans known.now }
    ensures { (book : Book) → Planned known.now book → Tried doc.now at book known.now result }
{
    if doc.len() < at + 12 {
        return None;
    }
    if octets::u32_at(doc, at) != u32::from(ElementKind::Row) {
        return None;
    }
    let i = known.index_of(last, octets::u32_at(doc, at + 4))?;
    let next = plans::values_to(doc, at + 8, &known.steps, usize::from(known.steps[i]))?;
    Some((next, i))
}

// A row in one number.
pub fn row_word(label: u32, stated: bool, next: usize) -> u64
    requires { next < 1073741824 }
    ensures { result ≡ row_word label stated next }
{
    if stated {
        return u64::from(label) * LABEL + ROW + STATED + (next as u64);
    }
    u64::from(label) * LABEL + ROW + (next as u64)
}

// Puts a word at an index, where there is one.
fn put_word(words: &mut [u64], n: usize, word: u64)
    ensures { words.new ≡ set words.old n word }
{
    if n < words.len() {
        words[n] = word;
    }
}

// Rows one behind another, each passed by the plan of its layout, so many at most. The words of those that have a place are put there, each with the low 32 bits of the label of its layout's position.
fn rows_on<'d, 'k, 'l, 'w>(
    doc: &'d [u8],
    at: usize,
    known: &'k Known,
    labels: &'l [u64; octets::MOST_LAYOUTS],
    words: &'w mut [u64],
    most: usize,
) -> Stretch
    requires { (at ≤ length doc.now) × (length doc.now ≤ longest) × Plans known.now }
    ensures { (rows : ℕ) (book : Book) → Planned known.now book
        → Strides doc.now (spot_at at rows book) known.now labels.now most words.old words.new result.next result.count }
{
    if known.count == 0 {
        return Stretch { next: at, count: 0 };
    }
    let mut pos = at;
    let mut last: usize = 0;
    for n in 0..most {
        let Some((next, i)) = quick_row(doc, pos, known, last) else {
            return Stretch {
                next: pos,
                count: n,
            };
        };
        let stated = octets::u32_at(doc, pos + 8) < 0xffff_ffff;
        let label = (labels[i] % LABEL) as u32;
        put_word(words, n, row_word(label, stated, next));
        pos = next;
        last = i;
    }
    Stretch {
        next: pos,
        count: most,
    }
}

// What a turn tells of a step that was read, with the position of its layout.
fn step_moved(step: Step, position: usize) -> Moved
    ensures { result ≡ step_moved step position }
{
    let met = step.met;
    if let Met::End(count, time) = met {
        return Moved::End(count, time, step.next);
    }
    Moved::Item(Gone {
        met,
        position,
        next: step.next,
        rows: step.rows,
        used: step.used,
    })
}

// Goes on from a place: over so many rows at most as stand one behind another and are passed by plans, or, where there is none, by the element there. The layouts kept stand in the octets of a shelf; a new one is kept by whoever goes on.
pub fn go_on<'d, 's, 'k, 'l, 'w>(
    doc: &'d [u8],
    at: usize,
    rows: usize,
    shelf: &'s [u8],
    used: usize,
    known: &'k Known,
    labels: &'l [u64; octets::MOST_LAYOUTS],
    words: &'w mut [u64],
    most: usize,
) -> Result<Moved, Refused>
    requires { (at ≤ length doc.now) × (length doc.now ≤ longest) × (rows ≤ most_rows) × (length shelf.now ≤ longest) × Borne shelf.now used known.now }
    ensures { (book : Book) → Bears shelf.now used known.now book
        → GoesOn doc.now (spot_at at rows book) known.now labels.now most words.old words.new result }
{
    let stretch = rows_on(doc, at, known, labels, words, most);
    if 0 < stretch.count {
        return Ok(Moved::Rows(stretch.next, stretch.count));
    }
    let here = stretch.next;
    let position = known.position_of(elements::number_behind(doc, here));
    let looked = known.looked_at(position);
    let step = elements::element_over(doc, here, rows, shelf, looked, used)?;
    Ok(step_moved(step, position))
}

// The rows from a place to the end and the place behind it, from an empty book; its layouts are kept by their places in the document. A word has room, and is not looked at.
pub fn rows_from(doc: &[u8], at: usize) -> Result<(usize, usize), Refused>
    requires { (at ≤ length doc.now) × (length doc.now ≤ longest) }
    ensures { counts result ≡ rows_read (through doc.now (spot_at at 0 [])) }
{
    let mut known = Known::new();
    let mut pos = at;
    let mut rows: usize = 0;
    let mut used: usize = 0;
    let mut words = [0u64; 1];
    loop {
        match go_on(
            doc,
            pos,
            rows,
            doc,
            used,
            &known,
            &known.numbers,
            &mut words,
            octets::MOST_ROWS,
        )? {
            Moved::Rows(next, count) => {
                pos = next;
                rows += count;
            }
            Moved::End(count, time, next) => {
                return Ok((rows, next));
            }
            Moved::Item(gone) => {
                if used < gone.used {
                    let here = pos + 4;
                    known.keep(doc, here, here);
                }
                pos = gone.next;
                rows = gone.rows;
                used = gone.used;
            }
        }
    }
}
