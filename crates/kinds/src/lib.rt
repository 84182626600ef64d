// The thirteen basic types and their values: what a type number stands for, and where a value of a form ends.
// The table of types stands in specs/Kinds.antt, a value by its form with its image in Forms.antt, a value as it is handed out in Values.antt.

#![tactic(auto)]

ghost use Rattle.std.specs.Prelude.{◌≡◌, true, ℕ, ◌+◌, ◌%◌, ◌≤◌, ◌<◌, length};
ghost use Rattle.kinds.specs.Kinds.{code_of, basic_of, form_by, form_of, kind_for, kind_of, kind_at};
ghost use Rattle.kinds.specs.Forms.{Slim, value_in};
ghost use Rattle.kinds.specs.Values.{basic_of_value, bits_of_value};
ghost use Rattle.kinds.specs.Answers.{Coded, kinds, kind_says, Fitting};
ghost use Rattle.octets.specs.Limits.{longest};
ghost use Rattle.octets.specs.Reading.{ok, ends, is_ok, reach};
ghost use Rattle.octets.specs.Answers.{says, Within};

use octets::{Fault, Refused, Room};
use texts::Rule;

// A basic type.
#[derive(Clone, Copy, PartialEq, Eq)]
pub enum Basic {
    Int,
    UnsignedInt,
    Long,
    UnsignedLong,
    Float,
    Double,
    HexBinary,
    String,
    Boolean,
    Byte,
    UnsignedByte,
    Short,
    UnsignedShort,
}

// A type: a basic one, and the octet that marks a derived one.
#[derive(Clone, Copy, PartialEq, Eq)]
pub struct Kind {
    pub derived: u8,
    pub basic: Basic,
}

impl Kind {
    pub const INT: u32 = 0x21;

    pub const UNSIGNED_INT: u32 = 0x22;

    pub const LONG: u32 = 0x23;

    pub const UNSIGNED_LONG: u32 = 0x24;

    pub const FLOAT: u32 = 0x25;

    pub const DOUBLE: u32 = 0x26;

    pub const HEX_BINARY: u32 = 0x27;

    pub const STRING: u32 = 0x28;

    pub const BOOLEAN: u32 = 0x29;

    pub const BYTE: u32 = 0x2a;

    pub const UNSIGNED_BYTE: u32 = 0x2b;

    pub const SHORT: u32 = 0x2c;

    pub const UNSIGNED_SHORT: u32 = 0x2d;
}

// How a value stands: in so many octets, as 0 or 1 in one octet, as octets behind a length, by their rule.
#[derive(Clone, Copy)]
pub enum Form {
    Fixed(usize),
    Truth,
    Led(Rule),
}

// A value by its basic type: float and double as bits; octets are not held here, they stand in a document.
#[derive(Clone, Copy)]
pub enum Value {
    Int(i32),
    UnsignedInt(u32),
    Long(i64),
    UnsignedLong(u64),
    Float(u32),
    Double(u64),
    HexBinary,
    String,
    Boolean(bool),
    Byte(i8),
    UnsignedByte(u8),
    Short(i16),
    UnsignedShort(u16),
}

// A type's low octet.
impl From<Basic> for u32 {
    ghost from_gives = { λ b n. n ≡ code_of b };

    fn from(b: Basic) -> u32 {
        match b {
            Basic::Int => Kind::INT,
            Basic::UnsignedInt => Kind::UNSIGNED_INT,
            Basic::Long => Kind::LONG,
            Basic::UnsignedLong => Kind::UNSIGNED_LONG,
            Basic::Float => Kind::FLOAT,
            Basic::Double => Kind::DOUBLE,
            Basic::HexBinary => Kind::HEX_BINARY,
            Basic::String => Kind::STRING,
            Basic::Boolean => Kind::BOOLEAN,
            Basic::Byte => Kind::BYTE,
            Basic::UnsignedByte => Kind::UNSIGNED_BYTE,
            Basic::Short => Kind::SHORT,
            Basic::UnsignedShort => Kind::UNSIGNED_SHORT,
        }
    }
}

// The basic type of a low octet: 8 where the table has none.
impl TryFrom<u32> for Basic {
    type Error = Fault;

    ghost try_from_gives = { Coded };

    fn try_from(code: u32) -> Result<Basic, Fault> {
        match code {
            Kind::INT => Ok(Basic::Int),
            Kind::UNSIGNED_INT => Ok(Basic::UnsignedInt),
            Kind::LONG => Ok(Basic::Long),
            Kind::UNSIGNED_LONG => Ok(Basic::UnsignedLong),
            Kind::FLOAT => Ok(Basic::Float),
            Kind::DOUBLE => Ok(Basic::Double),
            Kind::HEX_BINARY => Ok(Basic::HexBinary),
            Kind::STRING => Ok(Basic::String),
            Kind::BOOLEAN => Ok(Basic::Boolean),
            Kind::BYTE => Ok(Basic::Byte),
            Kind::UNSIGNED_BYTE => Ok(Basic::UnsignedByte),
            Kind::SHORT => Ok(Basic::Short),
            Kind::UNSIGNED_SHORT => Ok(Basic::UnsignedShort),
            _ => Err(Fault::Type),
        }
    }
}

// The basic type of a low octet that the table has.
pub fn basic_of(code: u32) -> Basic
    requires { (0x21 ≤ code) × (code ≤ 0x2d) }
    ensures { code_of result ≡ code }
{
    Basic::try_from(code).unwrap()
}

// The form of a basic type's values.
pub fn form_by(b: Basic) -> Form
    ensures { result ≡ form_by b }
{
    match b {
        Basic::Int => Form::Fixed(4),
        Basic::UnsignedInt => Form::Fixed(4),
        Basic::Long => Form::Fixed(8),
        Basic::UnsignedLong => Form::Fixed(8),
        Basic::Float => Form::Fixed(4),
        Basic::Double => Form::Fixed(8),
        Basic::HexBinary => Form::Led(Rule::Free),
        Basic::String => Form::Led(Rule::Characters),
        Basic::Boolean => Form::Truth,
        Basic::Byte => Form::Fixed(1),
        Basic::UnsignedByte => Form::Fixed(1),
        Basic::Short => Form::Fixed(2),
        Basic::UnsignedShort => Form::Fixed(2),
    }
}

// The form of a type's values.
pub fn form_of(k: Kind) -> Form
    ensures { result ≡ form_of k }
{
    let basic = k.basic;
    form_by(basic)
}

// A value's basic type.
pub fn basic_of_value(v: Value) -> Basic
    ensures { result ≡ basic_of_value v }
{
    match v {
        Value::Int(x) => Basic::Int,
        Value::UnsignedInt(x) => Basic::UnsignedInt,
        Value::Long(x) => Basic::Long,
        Value::UnsignedLong(x) => Basic::UnsignedLong,
        Value::Float(x) => Basic::Float,
        Value::Double(x) => Basic::Double,
        Value::HexBinary => Basic::HexBinary,
        Value::String => Basic::String,
        Value::Boolean(x) => Basic::Boolean,
        Value::Byte(x) => Basic::Byte,
        Value::UnsignedByte(x) => Basic::UnsignedByte,
        Value::Short(x) => Basic::Short,
        Value::UnsignedShort(x) => Basic::UnsignedShort,
    }
}

// A value's bits at its type's width; 0 where it is octets.
pub fn bits_of_value(v: Value) -> u64
    ensures { result ≡ bits_of_value v }
{
    match v {
        Value::Int(x) => u64::from(x.cast_unsigned()),
        Value::UnsignedInt(x) => u64::from(x),
        Value::Long(x) => x.cast_unsigned(),
        Value::UnsignedLong(x) => x,
        Value::Float(x) => u64::from(x),
        Value::Double(x) => x,
        Value::HexBinary => 0,
        Value::String => 0,
        Value::Boolean(x) => u64::from(x),
        Value::Byte(x) => u64::from(x.cast_unsigned()),
        Value::UnsignedByte(x) => u64::from(x),
        Value::Short(x) => u64::from(x.cast_unsigned()),
        Value::UnsignedShort(x) => u64::from(x),
    }
}

// What a type number stands for whose high bits are zero: 8 where its low octet is not of the table.
fn kind_by(t: u32) -> Result<Kind, Fault>
    requires { t < 0x10000 }
    ensures { (at next : ℕ) → kinds at next result ≡ kind_for at t next (basic_of (t % 256)) }
{
    let basic = Basic::try_from(t % 256)?;
    let derived = (t / 256) as u8;
    Ok(Kind { derived, basic })
}

// What a type number stands for: 9 where its top bit is set, else 8 where it is not of the table.
pub fn kind_of(t: u32) -> Result<Kind, Fault>
    ensures { (at next : ℕ) → kinds at next result ≡ kind_of at t next }
{
    if 0x8000_0000 <= t {
        return Err(Fault::UserType);
    }
    if 0x1_0000 <= t {
        return Err(Fault::Type);
    }
    kind_by(t)
}

// The type whose number stands at a place.
pub fn kind_at(s: &[u8], at: usize) -> Result<Kind, Refused>
    requires { (at ≤ length s.now) × (length s.now ≤ longest) }
    ensures { (kind_says at result ≡ kind_at s.now at) × Fitting at result (length s.now) }
{
    if s.len() < at + 4 {
        return Err(Refused {
            fault: Fault::CutShort,
            place: at,
        });
    }
    kind_of(octets::u32_at(s, at)).map_err(|fault| Refused { fault, place: at })
}

// The type at a place that is known to be accepted.
pub fn kind_here(s: &[u8], at: usize) -> Kind
    requires { is_ok (kind_at s.now at) ≡ true }
    ensures { (k : Kind) (next : ℕ) → kind_at s.now at ≡ ok k next → result ≡ k }
{
    kind_by(octets::u32_at(s, at)).unwrap()
}

// The form of the values of the type at a place that is known to be accepted: the one place where a form is read off octets.
pub fn form_here(s: &[u8], at: usize) -> Form
    requires { is_ok (kind_at s.now at) ≡ true }
    ensures { ((k : Kind) (next : ℕ) → kind_at s.now at ≡ ok k next → result ≡ form_of k) × Slim result }
{
    form_of(kind_here(s, at))
}

// The place behind a boolean.
fn truth_end(s: &[u8], at: usize, room: Room) -> Result<usize, Refused>
    requires { (at ≤ 4294967296) × (reach room s.now ≤ length s.now) × (length s.now ≤ longest) }
    ensures { (says result ≡ ends (value_in room Form.Truth s.now at)) × Within at result (reach room s.now) }
{
    let next = octets::number_end(s, at, room, 1)?;
    if 1 < octets::u8_at(s, at) {
        return Err(Refused {
            fault: Fault::Boolean,
            place: at,
        });
    }
    Ok(next)
}

// The place behind a value of a form.
pub fn value_end(s: &[u8], at: usize, room: Room, form: Form) -> Result<usize, Refused>
    requires { (at ≤ 4294967296) × (reach room s.now ≤ length s.now) × (length s.now ≤ longest) × Slim form }
    ensures { (says result ≡ ends (value_in room form s.now at)) × Within at result (reach room s.now) }
{
    match form {
        Form::Fixed(w) => octets::number_end(s, at, room, w),
        Form::Truth => truth_end(s, at, room),
        Form::Led(rule) => texts::led_end(s, at, room, rule),
    }
}
