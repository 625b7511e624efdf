// The answers: the thirteen numbers of docs/SPEC.md, 1, under their names, and the way back to upstream's error.rs.
// A function that can refuse gives a `Result` whose error is the name; `Answer` is what a call's bytes are answered with, a number and a value. What is
// promised: `number` and `code_of` are each other's inverse on 0..12, and `to_errno` gives upstream's value for 0..6 and refuses every other number.
#![tactic(auto)]

ghost use Rattle.std.specs.Prelude.{◌≡◌};
ghost use Rattle.answer.specs.Answer.{number_of, code_of, decoded, told, done_or, refused, errno_of};

use std::error::Error;
use std::fmt;

// Numbers beside the names: what C is answered with, and what a run's `out` holds.
pub const OK: u32 = 0;

pub const EINVAL: u32 = 1;

pub const EPERM: u32 = 2;

pub const EBADF: u32 = 3;

pub const EADDRINUSE: u32 = 4;

pub const ENOSPC: u32 = 5;

pub const ENOENT: u32 = 6;

pub const SHORT: u32 = 7;

pub const MAGIC: u32 = 8;

pub const VALUE: u32 = 9;

pub const NOPLAN: u32 = 10;

pub const ROOM: u32 = 11;

pub const DIFFERS: u32 = 12;

// The same thirteen by name: `Ok`, and what a refusal says.
#[derive(Clone, Copy, Debug, PartialEq, Eq, Hash)]
pub enum Code {
    Ok = 0,
    Einval = 1,
    Eperm = 2,
    Ebadf = 3,
    Eaddrinuse = 4,
    Enospc = 5,
    Enoent = 6,
    Short = 7,
    Magic = 8,
    Value = 9,
    Noplan = 10,
    Room = 11,
    Differs = 12,
}

// A number from 13 on names nothing.
#[derive(Clone, Copy, Debug, PartialEq, Eq, Hash)]
pub struct UnknownCode {
    pub number: u32,
}

impl fmt::Display for UnknownCode {
    fn fmt<W: fmt::Write>(&self, f: &mut fmt::Formatter<W>) -> fmt::Result {
        write!(f, "no answer has the number {}", self.number)
    }
}

impl Error for UnknownCode {}

impl TryFrom<u32> for Code {
    type Error = UnknownCode;

    ghost try_from_gives = { λ n r. r ≡ decoded n };

    #[tactic(auto, unfolding(crate::specs::Answer::code_of))]
    fn try_from(n: u32) -> Result<Self, UnknownCode> {
        match n {
            OK => Ok(Code::Ok),
            EINVAL => Ok(Code::Einval),
            EPERM => Ok(Code::Eperm),
            EBADF => Ok(Code::Ebadf),
            EADDRINUSE => Ok(Code::Eaddrinuse),
            ENOSPC => Ok(Code::Enospc),
            ENOENT => Ok(Code::Enoent),
            SHORT => Ok(Code::Short),
            MAGIC => Ok(Code::Magic),
            VALUE => Ok(Code::Value),
            NOPLAN => Ok(Code::Noplan),
            ROOM => Ok(Code::Room),
            DIFFERS => Ok(Code::Differs),
            _ => Err(UnknownCode { number: n }),
        }
    }
}

// What a call's bytes are answered with: a number of the table, and a value beside it. Two numbers, as a run's `out` stores them for C; a refusal has a value
// too where it is the memory check's.
#[derive(Clone, Copy, Debug, PartialEq, Eq, Hash)]
pub struct Answer {
    pub code: u32,
    pub value: u32,
}

// A refusal, with value 0.
impl From<Code> for Answer {
    ghost from_gives = { λ c a. a ≡ refused c };

    fn from(c: Code) -> Answer {
        Answer {
            code: number(c),
            value: 0,
        }
    }
}

// OK and the value, or a refusal.
impl From<Result<u32, Code>> for Answer {
    ghost from_gives = { λ r a. a ≡ told r };

    fn from(r: Result<u32, Code>) -> Answer {
        match r {
            Ok(value) => Answer { code: OK, value },
            Err(c) => c.into(),
        }
    }
}

impl From<Result<(), Code>> for Answer {
    ghost from_gives = { λ r a. a ≡ done_or r };

    fn from(r: Result<(), Code>) -> Answer {
        match r {
            Ok(()) => Code::Ok.into(),
            Err(c) => c.into(),
        }
    }
}

// A name's number.
pub fn number(c: Code) -> u32
    ensures { result ≡ number_of c }
{
    c as u32
}

// A number's name.
pub fn code_of(n: u32) -> Option<Code>
    ensures { result ≡ code_of n }
{
    Code::try_from(n).ok()
}

// Upstream's number for an answer. Only 0 to 6 have one; what upstream never says is refused, not invented.
#[tactic(auto, unfolding(crate::specs::Answer::errno_of))]
pub fn to_errno(n: u32) -> Result<i32, Code>
    ensures { result ≡ errno_of n }
{
    match n {
        OK => Ok(0),
        EINVAL => Ok(-22),
        EPERM => Ok(-1),
        EBADF => Ok(-9),
        EADDRINUSE => Ok(-112),
        ENOSPC => Ok(-28),
        ENOENT => Ok(-2),
        _ => Err(Code::Einval),
    }
}
