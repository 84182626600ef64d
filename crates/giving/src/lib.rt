// What every call of the writer goes through: the bounds and the turn of a state, and the octets of a call given.
// What a call does is defined in writer Writer; the calls themselves are in writing.

#![tactic(auto)]

ghost use Rattle.std.specs.Prelude.{◌≡◌, true, List, ◌++◌, ℕ, ◌-◌, ◌≤◌, length};
ghost use Rattle.octets.specs.Writing.{word};
ghost use Rattle.texts.specs.Texts.{led_image};
ghost use Rattle.texts.specs.declared.Rule.TheVariants.{Characters};
ghost use Rattle.kinds.specs.Kinds.{form_by};
ghost use Rattle.kinds.specs.Forms.{Value, value_image};
ghost use Rattle.writing_parts.specs.Faults.{faulted, fine};
ghost use Rattle.writer.specs.Writer.{room, asks, same_turn, single, listed, is_open, bounded, put, puts, attributes, turn_at, counts, lists, suits, breach, value_breach, value};
ghost use Rattle.writer.specs.Answers.{left, early, deed_leaves, rest_leaves, call_leaves};

use kinds::Basic;
use octets::{Fault, Refused};
use texts::Rule;
use writer::{Asks, Standing, State, Wanted};

// The first octets of an open layout, its kind and number; of an open row its length too.
const LAYOUT_HEAD: usize = 8;

const ROW_HEAD: usize = 12;

// What a call is, but for its octets: its turn, the fault that is known of it, and the turn, the count and the start of the open element behind it.
#[derive(Clone, Copy)]
pub struct Deed {
    pub turn: Wanted,
    pub fault: Result<(), Fault>,
    pub next: Wanted,
    pub count: u32,
    pub start: usize,
}

// A turn that is no list's, and one of a list of at most so many.
fn single(head: usize) -> Asks
    ensures { (result.least ≡ (single head).least) × (result.most ≡ (single head).most) × (result.head ≡ head) }
{
    Asks {
        least: 0,
        most: octets::MOST_ATTRIBUTES,
        head,
    }
}

fn listed(most: u32, head: usize) -> Asks
    ensures { (result.least ≡ (listed most head).least) × (result.most ≡ most) × (result.head ≡ head) }
{
    Asks {
        least: 1,
        most,
        head,
    }
}

// What a turn asks of a state.
fn asks_of(t: Wanted) -> Asks
    ensures { (result.least ≡ (asks t).least) × (result.most ≡ (asks t).most) × (result.head ≡ (asks t).head) }
{
    match t {
        Wanted::Uri | Wanted::ShortName | Wanted::Service => listed(octets::MOST_LISTED, 0),
        Wanted::TypeName | Wanted::AttributeCount => single(LAYOUT_HEAD),
        Wanted::AttributeName | Wanted::AttributeType => {
            listed(octets::MOST_ATTRIBUTES, LAYOUT_HEAD)
        }
        Wanted::Value => single(ROW_HEAD),
        _ => single(0),
    }
}

// Whether a state is inside its bounds, over a buffer of so many octets.
fn in_bounds(s: State, len: usize) -> bool
    ensures { result ≡ bounded s len }
{
    let asks = asks_of(s.turn);
    let room = writing_parts::room_of(len);
    if room < s.place
        || s.count < asks.least
        || asks.most < s.count
        || octets::MOST_ROWS < s.rows as usize
    {
        return false;
    }
    asks.head == 0 || asks.head <= s.place && s.start <= s.place - asks.head
}

// 17 for the book, then 20 for a state out of its bounds or a call out of turn.
pub fn ready(from: Standing, len: usize, book: &[u8], mine: bool) -> Result<(), Fault>
    ensures { faulted result ≡ early from.state len book.now from.used mine }
{
    if !layouts::is_book(book, from.used) {
        return Err(Fault::Lent);
    }
    if in_bounds(from.state, len) && mine {
        Ok(())
    } else {
        Err(Fault::OutOfTurn)
    }
}

// The same for a call that has one turn.
pub fn in_turn(from: Standing, len: usize, book: &[u8], turn: Wanted) -> Result<(), Fault>
    ensures { faulted result ≡ early from.state len book.now from.used (same_turn from.state.turn turn) }
{
    ready(from, len, book, from.state.turn == turn)
}

// Octets that complete no layout: the fault that is known before, then 23, else the octets behind those written. What follows is the deed's.
pub fn give_on(
    from: Standing,
    buf: &mut [u8],
    deed: Deed,
    head: &[u8],
    body: &[u8],
    tail: &[u8],
) -> Result<Standing, Refused>
    requires { faulted deed.fault ≡ fine → from.state.place ≤ room (length buf.old) }
    ensures { (turn : Wanted) (lent : List ℕ) → left result buf.new lent ≡ rest_leaves from.state buf.old lent from.used (put from.state turn (faulted deed.fault) (head.now ++ (body.now ++ tail.now)) deed.next deed.count deed.start) }
{
    let place = from.state.place;
    deed.fault.map_err(|fault| Refused { fault, place })?;
    let Some(end) = writing_parts::put_runs(buf, place, head, body, tail) else {
        return Err(Refused {
            fault: Fault::NoRoom,
            place,
        });
    };
    Ok(Standing {
        state: State {
            place: end,
            turn: deed.next,
            count: deed.count,
            start: deed.start,
            rows: from.state.rows,
        },
        used: from.used,
    })
}

// Octets in a turn that complete no layout, and what follows them.
pub fn give(
    from: Standing,
    buf: &mut [u8],
    book: &[u8],
    deed: Deed,
    head: &[u8],
    body: &[u8],
    tail: &[u8],
) -> Result<Standing, Refused>
    ensures { left result buf.new book.now ≡ deed_leaves from.state buf.old book.now from.used (put from.state deed.turn (faulted deed.fault) (head.now ++ (body.now ++ tail.now)) deed.next deed.count deed.start) }
{
    let fault = in_turn(from, buf.len(), book, deed.turn).and(deed.fault);
    give_on(from, buf, Deed { fault, ..deed }, head, body, tail)
}

// A string, with 24 for one that is not UTF-8.
pub fn give_text(
    from: Standing,
    buf: &mut [u8],
    book: &[u8],
    turn: Wanted,
    xs: &[u8],
    next: Wanted,
    count: u32,
) -> Result<Standing, Refused>
    ensures { left result buf.new book.now ≡ deed_leaves from.state buf.old book.now from.used (puts from.state turn (breach Characters xs.now) (led_image xs.now) next count) }
{
    let deed = Deed {
        turn,
        fault: writer::breach(Rule::Characters, xs),
        next,
        count,
        start: from.state.start,
    };
    let head = writing_parts::word4(xs.len() as u64);
    give(from, buf, book, deed, &head, xs, b"")
}

// A number of w octets.
pub fn give_number(
    from: Standing,
    buf: &mut [u8],
    book: &[u8],
    deed: Deed,
    w: usize,
    n: u64,
) -> Result<Standing, Refused>
    requires { w ≤ 8 }
    ensures { left result buf.new book.now ≡ deed_leaves from.state buf.old book.now from.used (put from.state deed.turn (faulted deed.fault) (word w n) deed.next deed.count deed.start) }
{
    let head = writing_parts::word8(n);
    let first = 8 - w;
    give(from, buf, book, deed, &head[first..], b"", b"")
}

// Two numbers of four octets and octets behind them.
pub fn give_pair(
    from: Standing,
    buf: &mut [u8],
    book: &[u8],
    deed: Deed,
    a: u64,
    b: u64,
    xs: &[u8],
) -> Result<Standing, Refused>
    ensures { left result buf.new book.now ≡ deed_leaves from.state buf.old book.now from.used (put from.state deed.turn (faulted deed.fault) (word 4 a ++ word 4 b ++ xs.now) deed.next deed.count deed.start) }
{
    let head = writing_parts::pair(a, b);
    give(from, buf, book, deed, &head, xs, b"")
}

// The turn of a list with something still to come, else the turn behind it.
fn turn_at(n: u32, more: Wanted, behind: Wanted) -> Wanted
    ensures { result ≡ turn_at n more behind }
{
    if n == 0 { behind } else { more }
}

// The count of a list of the header, with the turn of its items and the turn behind them.
pub fn give_count(
    from: Standing,
    buf: &mut [u8],
    book: &[u8],
    turn: Wanted,
    n: u32,
    more: Wanted,
    behind: Wanted,
) -> Result<Standing, Refused>
    ensures { left result buf.new book.now ≡ deed_leaves from.state buf.old book.now from.used (counts from.state turn n more behind) }
{
    let deed = Deed {
        turn,
        fault: writer::at_most(n, octets::MOST_LISTED),
        next: turn_at(n, more, behind),
        count: n,
        start: from.state.start,
    };
    give_number(from, buf, book, deed, 4, u64::from(n))
}

// The last string of an item of a list of the header: one less is to come.
pub fn give_item(
    from: Standing,
    buf: &mut [u8],
    book: &[u8],
    turn: Wanted,
    xs: &[u8],
    more: Wanted,
    behind: Wanted,
) -> Result<Standing, Refused>
    ensures { left result buf.new book.now ≡ deed_leaves from.state buf.old book.now from.used (lists from.state turn xs.now more behind) }
{
    let count = from.state.count.saturating_sub(1);
    let next = turn_at(count, more, behind);
    give_text(from, buf, book, turn, xs, next, count)
}

// Octets in a turn that complete a layout.
fn complete(
    from: Standing,
    buf: &mut [u8],
    book: &mut [u8],
    turn: Wanted,
    fault: Result<(), Fault>,
    last: &[u8],
) -> Result<Standing, Refused>
    requires { 8 ≤ (asks turn).head }
    ensures { left result buf.new book.new ≡ deed_leaves from.state buf.old book.old from.used (attributes from.state turn (faulted fault) last.now 0) }
{
    let place = from.state.place;
    in_turn(from, buf.len(), book, turn)
        .and(fault)
        .map_err(|fault| Refused { fault, place })?;
    let start = from.state.start;
    let (end, used) = writing_parts::complete(buf, book, from.used, start + 4, place, last).map_err(
        |fault| Refused { fault, place },
    )?;
    Ok(Standing {
        state: State {
            place: end,
            turn: Wanted::Element,
            count: 0,
            start: 0,
            rows: from.state.rows,
        },
        used,
    })
}

// A number of a layout, behind which so many attributes are still to come.
pub fn give_attribute(
    from: Standing,
    buf: &mut [u8],
    book: &mut [u8],
    turn: Wanted,
    fault: Result<(), Fault>,
    n: u32,
    more: u32,
) -> Result<Standing, Refused>
    requires { 8 ≤ (asks turn).head }
    ensures { left result buf.new book.new ≡ deed_leaves from.state buf.old book.old from.used (attributes from.state turn (faulted fault) (word 4 n) more) }
{
    if more == 0 {
        let last = writing_parts::word4(u64::from(n));
        return complete(from, buf, book, turn, fault, &last);
    }
    let deed = Deed {
        turn,
        fault,
        next: Wanted::AttributeName,
        count: more,
        start: from.state.start,
    };
    give_number(from, buf, book, deed, 4, u64::from(n))
}

// A value of a basic type, of which it is known whether it has an image there, and which, and whether it breaks its rule.
pub fn give_value(
    from: Standing,
    buf: &mut [u8],
    book: &[u8],
    b: Basic,
    fits: bool,
    breach: Result<(), Fault>,
    head: &[u8],
    body: &[u8],
) -> Result<Standing, Refused>
    ensures { (v : Value) → fits ≡ suits (form_by b) v → faulted breach ≡ value_breach (form_by b) v → (fits ≡ true → head.now ++ body.now ≡ value_image (form_by b) v) → left result buf.new book.now ≡ call_leaves from.state buf.old book.now from.used (value b v) }
{
    let place = from.state.place;
    let start = from.state.start;
    let count = from.state.count;
    in_turn(from, buf.len(), book, Wanted::Value).map_err(|fault| Refused { fault, place })?;
    let next = writing_parts::row_next(buf, start, book, from.used, count);
    let deed = Deed {
        turn: Wanted::Value,
        fault: writer::value_fault(next, b, fits).and(breach),
        next: Wanted::Value,
        count: count + 1,
        start,
    };
    give_on(from, buf, deed, head, body, b"")
}

// Whether a layout or a row is open.
pub fn is_open(t: Wanted) -> bool
    ensures { result ≡ is_open t }
{
    0 < asks_of(t).head
}
