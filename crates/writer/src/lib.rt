// The writer's state between two calls, what a call answers, and what may be against it by its arguments alone; what each call does is defined in specs Writer.

#![tactic(auto)]

ghost use Rattle.std.specs.Prelude.{◌≡◌, List, ℕ, ◌≤◌, leb, eqb};
ghost use Rattle.kinds.specs.Kinds.{form_by, kind_of};
ghost use Rattle.kinds.specs.Forms.{bits, held};
ghost use Rattle.layouts.specs.Book.{find, book_in, IsBook};
ghost use Rattle.writing_parts.specs.Faults.{faulted, fine, unless, refused_by};
ghost use Rattle.writer.specs.Writer.{in_book, suits, breach, value_breach};
ghost use Rattle.writer.specs.Own.{width_of, value_fault, close_fault};

use kinds::{Basic, Form};
use layouts::Looked;
use octets::Fault;
use texts::Rule;
use writing_parts::Next;

// What the next call has to give.
#[derive(Clone, Copy, PartialEq, Eq)]
pub enum Wanted {
    Recorder,
    StartTime,
    DefaultNamespace,
    NamespaceCount,
    Uri,
    ShortName,
    ServiceCount,
    Service,
    DocumentId,
    Element,
    TypeName,
    AttributeCount,
    AttributeName,
    AttributeType,
    Value,
    Nothing,
}

// What is known between two calls. The count is of those still to come in the list being given; in an open row, of the values given.
#[derive(Clone, Copy)]
pub struct State {
    pub place: usize,
    pub turn: Wanted,
    pub count: u32,
    pub start: usize,
    pub rows: u32,
}

// Where a writer stands between two calls: its state, and how much of the lent book is used. Each call takes it and answers the next.
#[derive(Clone, Copy)]
pub struct Standing {
    pub state: State,
    pub used: usize,
}

// What a turn asks of a state: the least and the most of its count, and the first octets of the element that is open.
#[derive(Clone, Copy)]
pub struct Asks {
    pub least: u32,
    pub most: u32,
    pub head: usize,
}

// 4 for a count over its limit.
pub fn at_most(n: u32, most: u32) -> Result<(), Fault>
    ensures { faulted result ≡ unless (leb n most) 4 }
{
    if n <= most { Ok(()) } else { Err(Fault::Count) }
}

// 5 for a document id of another length.
pub fn sixteen(n: usize) -> Result<(), Fault>
    ensures { faulted result ≡ unless (eqb n 16) 5 }
{
    if n == 16 { Ok(()) } else { Err(Fault::Id) }
}

// 8 or 9 for a type number that means no type.
pub fn type_fault(t: u32) -> Result<(), Fault>
    ensures { (at next : ℕ) → faulted result ≡ refused_by (kind_of at t next) }
{
    kinds::kind_of(t)?;
    Ok(())
}

// 12 for a layout that is not in the book.
pub fn layout_fault(book: &[u8], used: usize, n: u32) -> Result<(), Fault>
    requires { IsBook book.now used }
    ensures { faulted result ≡ in_book (find n (book_in book.now used)) (λ _. fine) }
{
    match layouts::find(book, used, n) {
        Looked::There(p) => Ok(()),
        Looked::Missing(k) => Err(Fault::NoLayout),
    }
}

// 12 for a row whose layout is not in the book; 21 with no field left, or for a value that is not of the next field's type.
pub fn value_fault(next: Next, b: Basic, fits: bool) -> Result<(), Fault>
    ensures { faulted result ≡ value_fault next b fits }
{
    match next {
        Next::Unknown => Err(Fault::NoLayout),
        Next::Missing => Err(Fault::Value),
        Next::Of(a) => {
            if a == b && fits {
                Ok(())
            } else {
                Err(Fault::Value)
            }
        }
    }
}

// 12 for a row whose layout is not in the book; 22 for one whose next field is not given.
pub fn close_fault(next: Next) -> Result<(), Fault>
    ensures { faulted result ≡ close_fault next }
{
    match next {
        Next::Unknown => Err(Fault::NoLayout),
        Next::Missing => Ok(()),
        Next::Of(a) => Err(Fault::Unfinished),
    }
}

// Whether a number is a value of a basic type.
pub fn suits_number(b: Basic, n: u64) -> bool
    ensures { result ≡ suits (form_by b) (bits n) }
{
    match kinds::form_by(b) {
        Form::Fixed(w) => writing_parts::fits_octets(n, w),
        Form::Truth => n <= 1,
        Form::Led(rule) => false,
    }
}

// Whether octets are a value of a basic type.
pub fn suits_octets(b: Basic) -> bool
    ensures { (xs : List ℕ) → result ≡ suits (form_by b) (held xs) }
{
    matches!(kinds::form_by(b), Form::Led(_))
}

// 24 for octets that are not what their rule asks.
pub fn breach(rule: Rule, xs: &[u8]) -> Result<(), Fault>
    ensures { faulted result ≡ breach rule xs.now }
{
    match rule {
        Rule::Free => Ok(()),
        Rule::Characters => {
            if utf8::is_utf8(xs, 0, xs.len()) {
                Ok(())
            } else {
                Err(Fault::NotUtf8)
            }
        }
    }
}

// The same of octets that are given as a value of a basic type.
pub fn value_breach(b: Basic, xs: &[u8]) -> Result<(), Fault>
    ensures { faulted result ≡ value_breach (form_by b) (held xs.now) }
{
    match kinds::form_by(b) {
        Form::Fixed(w) => Ok(()),
        Form::Truth => Ok(()),
        Form::Led(rule) => breach(rule, xs),
    }
}

// How many octets a number of a basic type has.
pub fn width_of(b: Basic) -> usize
    ensures { (result ≡ width_of (form_by b)) × (result ≤ 8) }
{
    match kinds::form_by(b) {
        Form::Fixed(w) => w,
        Form::Truth => 1,
        Form::Led(rule) => 0,
    }
}
