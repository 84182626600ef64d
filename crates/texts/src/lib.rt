// Octets behind a length: where they end, by the rule that a string obeys and other octets do not, and the octets themselves.
// Their reading, their image and the rules stand in specs/Texts.antt.

#![tactic(auto)]

ghost use Rattle.std.specs.Prelude.{◌≡◌, true, List, ℕ, ◌+◌, ◌≤◌, length};
ghost use Rattle.octets.specs.Limits.{longest};
ghost use Rattle.octets.specs.Reading.{ok, reach, be, ends, is_ok};
ghost use Rattle.octets.specs.declared.Room.TheVariants.{Document};
ghost use Rattle.octets.specs.Answers.{says, Within};
ghost use Rattle.texts.specs.Texts.{octets_in, led_in, text};
ghost use Rattle.texts.specs.Answers.{Behind, Stands};

use octets::{Fault, Refused, Room};

// What octets behind a length have to be: anything, or the characters of a string, in UTF-8.
#[derive(Clone, Copy, PartialEq, Eq)]
pub enum Rule {
    Free,
    Characters,
}

// The place behind the octets whose length stands at a place: the one place that says where they end.
fn led_behind(s: &[u8], at: usize) -> usize
    requires { (at + 4 ≤ length s.now) × (length s.now ≤ longest) }
    ensures { result ≡ at + 4 + be 4 s.now at }
{
    at + 4 + (octets::u32_at(s, at) as usize)
}

// The place behind octets and their length, whatever they are.
pub fn octets_end(s: &[u8], at: usize, room: Room) -> Result<usize, Refused>
    requires { (at ≤ 4294967296) × (reach room s.now ≤ length s.now) × (length s.now ≤ longest) }
    ensures { (says result ≡ ends (octets_in room s.now at)) × Behind at result (reach room s.now) }
{
    let end = octets::reach(room, s);
    if end < at + 4 {
        return Err(octets::overrun(room, at));
    }
    let next = led_behind(s, at);
    if end < next {
        return Err(octets::overrun(room, at));
    }
    Ok(next)
}

// The place behind octets and their length, by their rule.
pub fn led_end(s: &[u8], at: usize, room: Room, rule: Rule) -> Result<usize, Refused>
    requires { (at ≤ 4294967296) × (reach room s.now ≤ length s.now) × (length s.now ≤ longest) }
    ensures { (says result ≡ ends (led_in rule room s.now at)) × Within at result (reach room s.now) }
{
    let next = octets_end(s, at, room)?;
    match rule {
        Rule::Free => Ok(next),
        Rule::Characters => {
            if utf8::is_utf8(s, at + 4, next) {
                return Ok(next);
            }
            Err(Refused {
                fault: Fault::NotUtf8,
                place: at,
            })
        }
    }
}

// The place behind a string of a document's header or of a layout.
pub fn text_end(s: &[u8], at: usize) -> Result<usize, Refused>
    requires { (at ≤ length s.now) × (length s.now ≤ longest) }
    ensures { (says result ≡ ends (text s.now at)) × Within at result (length s.now) }
{
    led_end(s, at, Room::Document, Rule::Characters)
}

// The place behind a string that is known to be accepted.
pub fn text_skip(s: &[u8], at: usize) -> usize
    requires { (length s.now ≤ longest) × (is_ok (text s.now at) ≡ true) }
    ensures { (ends (text s.now at) ≡ ok result result) × (at + 4 ≤ result) × (result ≤ length s.now) }
{
    led_behind(s, at)
}

// The octets behind a length that are known to be accepted, by whatever rule.
pub fn led_part<'s>(s: &'s [u8], at: usize) -> &'s [u8]
    requires { (length s.now ≤ longest) × Stands s.now at }
    ensures { (rule : Rule) (xs : List ℕ) (next : ℕ) → led_in rule Document s.now at ≡ ok xs next → result.now ≡ xs }
{
    let stop = led_behind(s, at);
    let start = at + 4;
    return &s[start..stop];
}
