// Well-formed UTF-8: whether octets are characters one behind another, each of a form that RFC 3629 lists.
// The forms stand in specs/Utf8.antt, the RFC's own sentence in Grammar.antt, what the functions here answer in Answers.antt, strings that were tried in Cases.antt.

#![tactic(auto)]

ghost use Rattle.std.specs.Prelude.{◌≡◌, List, [], ◌∷◌, ◌+◌, ◌-◌, ◌≤◌, ◌<◌, length, get_or};
ghost use Rattle.std.proofs.Math.Option.{some};
ghost use Rattle.octets.specs.Reading.{part};
ghost use Rattle.utf8.specs.Utf8.{Range, ◌‥◌, tail, forms, opens, utf8};
ghost use Rattle.utf8.specs.Answers.{marks, Zeros, Ascii, Steps, Passes};

// The top bits of the eight octets at a place, which are those that no ASCII octet has.
fn marks_at(s: &[u8], at: usize) -> u64
    requires { at + 8 ≤ length s.now }
    ensures { result ≡ marks 8 s.now at }
{
    octets::u64_at(s, at) & 0x8080_8080_8080_8080
}

// How many octets of eight stand before the first one that is marked.
fn unmarked(m: u64) -> usize
    ensures { Zeros m result }
{
    (m.leading_zeros() / 8) as usize
}

// A place up to which fewer than eight octets are ASCII: by the eight that end with them, of which the others are blotted out.
fn last_ascii_to(s: &[u8], at: usize, to: usize) -> usize
    requires { (at ≤ to) × (to - at < 8) × (to ≤ length s.now) }
    ensures { (at ≤ result) × (result ≤ to) × Ascii s.now at result }
{
    if to < 8 {
        return at;
    }
    let m = marks_at(s, to - 8);
    if m == 0 {
        return to;
    }
    to - 8 + unmarked(m % (1 << (8 * (to - at))))
}

// The place up to which octets are ASCII, of the next eight or, where fewer are left, of the last ones.
fn ascii_to(s: &[u8], at: usize, to: usize) -> usize
    requires { (at ≤ to) × (to ≤ length s.now) }
    ensures { (at ≤ result) × (result ≤ to) × Ascii s.now at result }
{
    if 8 <= to - at {
        return at + unmarked(marks_at(s, at));
    }
    last_ascii_to(s, at, to)
}

// Whether an octet of a range stands at a place before the end, whatever is wanted behind it.
fn stands(s: &[u8], at: usize, to: usize, low: u8, high: u8) -> bool
    requires { (at ≤ to) × (to ≤ length s.now) }
    ensures { (rest : List Range) → Steps (some (low ‥ high ∷ rest)) (some rest) s.now at to result }
{
    at < to && low <= s[at] && s[at] <= high
}

// Whether the second octet of a character of three stands there, by the first.
fn second_of_three(x: u8, s: &[u8], at: usize, to: usize) -> bool
    requires { (0xe0 ≤ x) × (x < 0xf0) × (at ≤ to) × (to ≤ length s.now) }
    ensures { Steps (opens x forms) (some (tail ∷ [])) s.now at to result }
{
    if x < 0xe1 {
        return stands(s, at, to, 0xa0, 0xbf);
    }
    if x < 0xed {
        return stands(s, at, to, 0x80, 0xbf);
    }
    if x < 0xee {
        return stands(s, at, to, 0x80, 0x9f);
    }
    stands(s, at, to, 0x80, 0xbf)
}

// The same of four; an octet past F4 is the first of nothing.
fn second_of_four(x: u8, s: &[u8], at: usize, to: usize) -> bool
    requires { (0xf0 ≤ x) × (at ≤ to) × (to ≤ length s.now) }
    ensures { Steps (opens x forms) (some (tail ∷ tail ∷ [])) s.now at to result }
{
    if x < 0xf1 {
        return stands(s, at, to, 0x90, 0xbf);
    }
    if x < 0xf4 {
        return stands(s, at, to, 0x80, 0xbf);
    }
    if x < 0xf5 {
        return stands(s, at, to, 0x80, 0x8f);
    }
    false
}

// The place behind the one tail that ends a character, or none where it does not stand there; then the same of two.
fn pass_tail(s: &[u8], at: usize, to: usize) -> Option<usize>
    requires { (at ≤ to) × (to ≤ length s.now) }
    ensures { Passes (some (tail ∷ [])) s.now at to result }
{
    if stands(s, at, to, 0x80, 0xbf) {
        return Some(at + 1);
    }
    None
}

fn pass_tails(s: &[u8], at: usize, to: usize) -> Option<usize>
    requires { (at ≤ to) × (to ≤ length s.now) }
    ensures { Passes (some (tail ∷ tail ∷ [])) s.now at to result }
{
    if stands(s, at, to, 0x80, 0xbf) {
        return pass_tail(s, at + 1, to);
    }
    None
}

// The place behind what has to follow a first octet that is not ASCII, or none.
fn pass_rest(x: u8, s: &[u8], at: usize, to: usize) -> Option<usize>
    requires { (0x80 ≤ x) × (at ≤ to) × (to ≤ length s.now) }
    ensures { Passes (opens x forms) s.now at to result }
{
    if x < 0xc2 {
        return None;
    }
    if x < 0xe0 {
        return pass_tail(s, at, to);
    }
    if x < 0xf0 {
        if second_of_three(x, s, at, to) {
            return pass_tail(s, at + 1, to);
        }
        return None;
    }
    if second_of_four(x, s, at, to) {
        return pass_tails(s, at + 1, to);
    }
    None
}

// The place behind one whole character, an ASCII one with those that follow it; or none.
fn pass(s: &[u8], at: usize, to: usize) -> Option<usize>
    requires { (at < to) × (to ≤ length s.now) }
    ensures { Passes (opens (get_or s.now at 0) forms) s.now (at + 1) to result }
{
    let x = s[at];
    if x < 0x80 {
        return Some(ascii_to(s, at + 1, to));
    }
    pass_rest(x, s, at + 1, to)
}

// All octets where it is seen at once that they are ASCII, else whole eights of them: most strings are done with it, and the others lose little.
fn ascii_front(s: &[u8], at: usize, to: usize) -> usize
    requires { (at ≤ to) × (to ≤ length s.now) }
    ensures { (at ≤ result) × (result ≤ to) × Ascii s.now at result }
{
    let mut i = at;
    while 8 <= to - i {
        if marks_at(s, i) != 0 {
            return i;
        }
        i += 8;
    }
    if to < 8 {
        return i;
    }
    if marks_at(s, to - 8) == 0 {
        return to;
    }
    i
}

// Whether the octets from a place to another are well-formed UTF-8.
pub fn is_utf8(s: &[u8], from: usize, to: usize) -> bool
    requires { (from ≤ to) × (to ≤ length s.now) }
    ensures { result ≡ utf8 (part s.now from (to - from)) }
{
    if from == to {
        return true;
    }
    let mut i = ascii_front(s, from, to);
    while i < to {
        let Some(next) = pass(s, i, to) else {
            return false;
        };
        i = next;
    }
    true
}
