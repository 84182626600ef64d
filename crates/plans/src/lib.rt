// Plans: a layout's values as steps made once, so that a row's values are passed without its layout's octets.
// A step is four times the octets of numbers that stand side by side; more by one where free octets behind a length close it, by two where a boolean, by three where a string does. The last step of a plan is a multiple of four.
// A plan is defined in specs/Plan.antt; what it must agree with is rows Row, and where plans are kept is walks.

#![tactic(auto)]

ghost use Rattle.std.specs.Prelude.{◌≡◌, List, ℕ, ◌+◌, ◌≤◌, ◌<◌, length, take};
ghost use Rattle.octets.specs.Limits.{longest, most_attributes};
ghost use Rattle.octets.specs.Reading.{ok, run};
ghost use Rattle.layouts.specs.Layout.{Attribute, attribute_at};
ghost use Rattle.rows.specs.Answers.{Attributes};
ghost use Rattle.kinds.specs.Forms.{Slim};
ghost use Rattle.plans.specs.Plan.{closer, mark, plan_of, most_steps, Plan};
ghost use Rattle.plans.specs.Answers.{Puts, Closes, Follows, Lasts};

use kinds::Form;
use octets::Room;
use texts::Rule;

// How many steps there are in all, with those that say where plans stand.
pub const MOST_STEPS: usize = 1216;

// The number that says what rule the octets obey that close a step.
fn closer_of(rule: Rule) -> u16
    ensures { (result ≡ closer rule) × (result < 4) }
{
    match rule {
        Rule::Free => 1,
        Rule::Characters => 3,
    }
}

// What a form adds to a step.
fn mark_of(form: Form) -> u16
    requires { Slim form }
    ensures { (result ≡ mark form) × (result ≤ 32) }
{
    match form {
        Form::Fixed(w) => (w * 4) as u16,
        Form::Truth => 2,
        Form::Led(rule) => closer_of(rule),
    }
}

// Puts the plan of so many attributes, which stand at a place of a document, into the steps from an index on, if it ends at another at most. Its answer is the index behind the plan.
pub fn put_plan<'d, 'p>(
    doc: &'d [u8],
    first: usize,
    count: u32,
    steps: &'p mut [u16; MOST_STEPS],
    from: usize,
    to: usize,
) -> Option<usize>
    requires { (length doc.now ≤ longest) × (count ≤ most_attributes) × (from ≤ to) × (to ≤ most_steps) × (length steps.old ≡ most_steps) × Attributes doc.now count first }
    ensures { ((xs : List Attribute) (last : ℕ) → run (attribute_at doc.now) count first ≡ ok xs last → Puts steps.new from to (plan_of 0 xs) result) × (take from steps.new ≡ take from steps.old) × (length steps.new ≡ most_steps) }
{
    let mut place = first;
    let mut j = from;
    let mut sum: u16 = 0;
    for _ in 0..count {
        let kind = texts::text_skip(doc, place);
        let form = kinds::form_here(doc, kind);
        let more = mark_of(form);
        place = kind + 4;
        if more % 4 == 0 {
            sum += more;
            continue;
        }
        if to <= j {
            return None;
        }
        steps[j] = sum + more;
        j += 1;
        sum = 0;
    }
    if to <= j {
        return None;
    }
    steps[j] = sum;
    Some(j + 1)
}

// The place behind the boolean that closes a step. A plan asks for no refusal: at none the exact readers are asked.
fn truth_close(doc: &[u8], at: usize, end: usize) -> Option<usize>
    requires { (end ≤ length doc.now) × (length doc.now ≤ longest) × (at ≤ 2097152) }
    ensures { Closes doc.now at end 2 result }
{
    if end < at + 1 {
        return None;
    }
    if 1 < octets::u8_at(doc, at) {
        return None;
    }
    Some(at + 1)
}

// The place behind the value that closes a step; of octets, those of a string are asked whether they are UTF-8.
fn close_end(doc: &[u8], at: usize, end: usize, kind: usize) -> Option<usize>
    requires { (end ≤ length doc.now) × (length doc.now ≤ longest) × (at ≤ 2097152) }
    ensures { Closes doc.now at end kind result }
{
    if kind == 2 {
        return truth_close(doc, at, end);
    }
    let Ok(next) = texts::octets_end(doc, at, Room::Stated(end, 0)) else {
        return None;
    };
    if kind == 3 && !utf8::is_utf8(doc, at + 4, next) {
        return None;
    }
    Some(next)
}

// The place behind the values of the attributes whose plan stands in the steps from an index on.
fn follow<'d, 'p>(
    doc: &'d [u8],
    at: usize,
    end: usize,
    steps: &'p [u16; MOST_STEPS],
    from: usize,
) -> Option<usize>
    requires { (at ≤ end) × (end ≤ length doc.now) × (length doc.now ≤ longest) × Plan steps.now from }
    ensures { Follows doc.now at end steps.now from result }
{
    let mut pos = at;
    let mut j = from;
    loop {
        let step = usize::from(steps[j]);
        let place = pos + step / 4;
        let kind = step % 4;
        if kind == 0 {
            if end < place {
                return None;
            }
            return Some(place);
        }
        j += 1;
        pos = close_end(doc, place, end, kind)?;
    }
}

// The place behind a row's values, from its length on.
pub fn values_to<'d, 'p>(
    doc: &'d [u8],
    at: usize,
    steps: &'p [u16; MOST_STEPS],
    from: usize,
) -> Option<usize>
    requires { (at + 4 ≤ length doc.now) × (length doc.now ≤ longest) × Plan steps.now from }
    ensures { Lasts doc.now at steps.now from result }
{
    let size = octets::u32_at(doc, at);
    if size == 0xffff_ffff {
        return follow(doc, at + 4, doc.len(), steps, from);
    }
    let end = at + 4 + (size as usize);
    if doc.len() < end {
        return None;
    }
    let next = follow(doc, at + 4, end, steps, from)?;
    if next != end {
        return None;
    }
    Some(next)
}
