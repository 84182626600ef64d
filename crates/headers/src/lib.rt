// The header: the places of its fields, or its refusal. What a header is stands in specs/Header.antt, what is answered of its places in specs/Answers.antt; callers use `header_at`.

#![tactic(auto)]

ghost use Rattle.std.specs.Prelude.{ℕ, ◌≡◌, ◌+◌, ◌≤◌, length};
ghost use Rattle.octets.specs.Limits.{longest, most_listed};
ghost use Rattle.octets.specs.Reading.{Read, ends, ◌then◌, number, count, exactly, run};
ghost use Rattle.octets.specs.Runs.{Finds, FindsFrom};
ghost use Rattle.octets.specs.Answers.{says, Within};
ghost use Rattle.octets.specs.Faults.{number_of};
ghost use Rattle.texts.specs.Texts.{text};
ghost use Rattle.headers.specs.Header.{namespace_at, id_at, header_from, header_at};
ghost use Rattle.headers.specs.Answers.{Locates};

use octets::{Fault, Refused};

// Where the fields of an accepted header stand: the start time, the counts of both lists, the document id, and what is behind the header.
#[derive(Clone, Copy)]
pub struct Places {
    pub start: usize,
    pub namespaces: usize,
    pub services: usize,
    pub id: usize,
    pub end: usize,
}

// The place behind a number of four octets that is the one wanted, else a refusal at it.
fn exactly_at(s: &[u8], at: usize, wanted: u32, fault: Fault) -> Result<usize, Refused>
    requires { (at ≤ length s.now) × (length s.now ≤ longest) }
    ensures { (says result ≡ ends (exactly wanted (number_of fault) s.now at)) × Within at result (length s.now) }
{
    if s.len() < at + 4 {
        return Err(Refused {
            fault: Fault::CutShort,
            place: at,
        });
    }
    if octets::u32_at(s, at) != wanted {
        return Err(Refused { fault, place: at });
    }
    Ok(at + 4)
}

// The place behind a namespace: two strings.
pub fn namespace_end(s: &[u8], at: usize) -> Result<usize, Refused>
    requires { (at ≤ length s.now) × (length s.now ≤ longest) }
    ensures { (says result ≡ ends (namespace_at s.now at)) × Within at result (length s.now) }
{
    let next = texts::text_end(s, at)?;
    texts::text_end(s, next)
}

// The place behind a list: its count, at most 16, and its items, each as what is passed finds its end.
fn list_end<F: Fn(usize) -> Result<usize, Refused>>(
    s: &[u8],
    at: usize,
    one: F,
) -> Result<usize, Refused>
    requires { (at ≤ length s.now) × (length s.now ≤ longest) × FindsFrom (F.pre one) (F.post one) (length s.now) }
    ensures { (end : ℕ) (f : ℕ → Read ℕ) → length s.now ≤ end → Finds (F.pre one) (F.post one) end f → (says result ≡ ends (count most_listed s.now at then λ k next. run f k next)) × Within at result end }
{
    let (count, next) = octets::count_at(s, at, octets::MOST_LISTED)?;
    octets::run_end(next, count, one)
}

// The place behind the version and the recorder.
fn recorder_end(s: &[u8]) -> Result<usize, Refused>
    requires { length s.now ≤ longest }
    ensures { (says result ≡ ends (exactly 4 3 s.now 0 then λ _ next. text s.now next)) × Within 0 result (length s.now) }
{
    let next = exactly_at(s, 0, 4, Fault::Version)?;
    texts::text_end(s, next)
}

// The place behind the start time and the default namespace.
fn default_end(s: &[u8], at: usize) -> Result<usize, Refused>
    requires { (at ≤ length s.now) × (length s.now ≤ longest) }
    ensures { (says result ≡ ends (number 8 s.now at then λ _ next. text s.now next)) × Within at result (length s.now) }
{
    if s.len() < at + 8 {
        return Err(Refused {
            fault: Fault::CutShort,
            place: at,
        });
    }
    texts::text_end(s, at + 8)
}

// The place behind the document id.
fn id_end(s: &[u8], at: usize) -> Result<usize, Refused>
    requires { (at ≤ length s.now) × (length s.now ≤ longest) }
    ensures { (says result ≡ ends (id_at s.now at)) × Within at result (length s.now) }
{
    let next = exactly_at(s, at, 16, Fault::Id)?;
    if s.len() < next + 16 {
        return Err(Refused {
            fault: Fault::CutShort,
            place: at,
        });
    }
    Ok(next + 16)
}

// The place behind the document id and the four octets FF.
fn close_end(s: &[u8], at: usize) -> Result<usize, Refused>
    requires { (at ≤ length s.now) × (length s.now ≤ longest) }
    ensures { (says result ≡ ends (id_at s.now at then λ _ next. exactly 0xffffffff 6 s.now next)) × Within at result (length s.now) }
{
    let next = id_end(s, at)?;
    exactly_at(s, next, 0xffff_ffff, Fault::Open)
}

// The places of a header's fields, in a document that is not too long.
fn header_places(s: &[u8]) -> Result<Places, Refused>
    requires { length s.now ≤ longest }
    ensures { Locates s.now (header_from s.now 0) result }
{
    let start = recorder_end(s)?;
    let namespaces = default_end(s, start)?;
    let services = list_end(s, namespaces, |p| namespace_end(s, p))?;
    let id = list_end(s, services, |p| texts::text_end(s, p))?;
    let end = close_end(s, id)?;
    Ok(Places {
        start,
        namespaces,
        services,
        id,
        end,
    })
}

// The places of a document's header: 2 before all where the document is too long.
pub fn header_at(s: &[u8]) -> Result<Places, Refused>
    ensures { Locates s.now (header_at s.now) result }
{
    if octets::LONGEST < s.len() {
        return Err(Refused {
            fault: Fault::TooLong,
            place: 0,
        });
    }
    header_places(s)
}
