// Questions about the header: its refusal and its strings. Each takes every document, hands back parts and no copies, and changes nothing.
// What a header is stands in headers Header, what is asked of it in specs/Questions.antt; the code that finds the header's places is headers' `header_at`.

#![tactic(auto)]

ghost use Rattle.std.specs.Prelude.{◌≡◌, List, ℕ, ◌+◌, ◌≤◌, length};
ghost use Rattle.octets.specs.Limits.{longest};
ghost use Rattle.octets.specs.Reading.{Read};
ghost use Rattle.octets.specs.Runs.{Finds, FindsFrom};
ghost use Rattle.octets.specs.Answers.{says};
ghost use Rattle.octets.specs.Asked.{refusal_of, part_of, StandsAt, found_at};
ghost use Rattle.texts.specs.Texts.{text};
ghost use Rattle.headers.specs.Header.{namespace_at, header_at};
ghost use Rattle.header_questions.specs.Questions.{namespace_asked, service_asked};
ghost use Rattle.header_questions.specs.Places.{listed_at, IsText};

use octets::{Fault, Refused};

// The place of item n of a list, whose count stands at a place, each item as what is passed finds its end; 18 at the count where there is none.
fn listed_at<F: Fn(usize) -> Result<usize, Refused>>(
    doc: &[u8],
    at: usize,
    n: usize,
    one: F,
) -> Result<usize, Refused>
    requires { (at + 4 ≤ length doc.now) × (length doc.now ≤ longest) × FindsFrom (F.pre one) (F.post one) (length doc.now) }
    ensures { (end : ℕ) (f : ℕ → Read ℕ) → length doc.now ≤ end → Finds (F.pre one) (F.post one) end f → says result ≡ listed_at f doc.now at n }
{
    let count = octets::u32_at(doc, at);
    if (count as usize) <= n {
        return Err(Refused {
            fault: Fault::NotThere,
            place: at,
        });
    }
    octets::run_end(at + 4, n as u32, one)
}

// The string where one was found; else nothing.
fn text_found<'d>(doc: &'d [u8], found: Result<usize, Refused>) -> &'d [u8]
    requires { IsText doc.now found }
    ensures { result.now ≡ part_of {A = List ℕ} (λ x. x) (found_at (text doc.now) found) }
{
    let Ok(place) = found else {
        return &doc[..0];
    };
    texts::led_part(doc, place)
}

// The place of namespace n.
fn namespace_place(doc: &[u8], n: usize) -> Result<usize, Refused>
    ensures { StandsAt doc.now (namespace_at doc.now) (namespace_asked doc.now n) result }
{
    let places = headers::header_at(doc)?;
    listed_at(
        doc,
        places.namespaces,
        n,
        |p| headers::namespace_end(doc, p),
    )
}

// The place of service definition n.
fn service_place(doc: &[u8], n: usize) -> Result<usize, Refused>
    ensures { StandsAt doc.now (text doc.now) (service_asked doc.now n) result }
{
    let places = headers::header_at(doc)?;
    listed_at(doc, places.services, n, |p| texts::text_end(doc, p))
}

// Whether the header is refused.
pub fn header_refusal(doc: &[u8]) -> Result<(), Refused>
    ensures { result ≡ refusal_of (header_at doc.now) }
{
    headers::header_at(doc)?;
    Ok(())
}

// Whether namespace n is refused: as the header, then 18 at the count of other namespaces.
pub fn namespace_refusal(doc: &[u8], n: usize) -> Result<(), Refused>
    ensures { result ≡ refusal_of (namespace_asked doc.now n) }
{
    namespace_place(doc, n)?;
    Ok(())
}

// Whether service definition n is refused: as the header, then 18 at the count of service definitions.
pub fn service_refusal(doc: &[u8], n: usize) -> Result<(), Refused>
    ensures { result ≡ refusal_of (service_asked doc.now n) }
{
    service_place(doc, n)?;
    Ok(())
}

// The recorder, a part of the document; empty where there is a refusal, as are the strings that follow.
pub fn recorder<'d>(doc: &'d [u8]) -> &'d [u8]
    ensures { result.now ≡ part_of (λ h. h.recorder) (header_at doc.now) }
{
    if headers::header_at(doc).is_err() {
        return &doc[..0];
    }
    texts::led_part(doc, 4)
}

// The default namespace.
pub fn default_namespace<'d>(doc: &'d [u8]) -> &'d [u8]
    ensures { result.now ≡ part_of (λ h. h.default) (header_at doc.now) }
{
    let Ok(places) = headers::header_at(doc) else {
        return &doc[..0];
    };
    texts::led_part(doc, places.start + 8)
}

// The URI of namespace n.
pub fn namespace_uri<'d>(doc: &'d [u8], n: usize) -> &'d [u8]
    ensures { result.now ≡ part_of (λ x. x.uri) (namespace_asked doc.now n) }
{
    text_found(doc, namespace_place(doc, n))
}

// The short name of namespace n.
pub fn namespace_short<'d>(doc: &'d [u8], n: usize) -> &'d [u8]
    ensures { result.now ≡ part_of (λ x. x.short) (namespace_asked doc.now n) }
{
    let Ok(place) = namespace_place(doc, n) else {
        return &doc[..0];
    };
    texts::led_part(doc, texts::text_skip(doc, place))
}

// Service definition n.
pub fn service<'d>(doc: &'d [u8], n: usize) -> &'d [u8]
    ensures { result.now ≡ part_of (λ x. x) (service_asked doc.now n) }
{
    text_found(doc, service_place(doc, n))
}

// The document id: the sixteen octets behind their length.
pub fn document_id<'d>(doc: &'d [u8]) -> &'d [u8]
    ensures { result.now ≡ part_of (λ h. h.id) (header_at doc.now) }
{
    let Ok(places) = headers::header_at(doc) else {
        return &doc[..0];
    };
    let start = places.id + 4;
    let stop = start + 16;
    return &doc[start..stop];
}
