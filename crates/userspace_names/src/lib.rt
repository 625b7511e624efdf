// The permission leaf's types and modes: names for the numbers, numbers for the names. Upstream's ObjType and InitCheck.
// What is promised: each function is the definition of specs/Names for every number; a number that names nothing is told apart.
#![tactic(auto)]

ghost use Rattle.std.specs.Prelude.{◌≡◌};
ghost use Rattle.userspace_names.specs.Names.{type_number, type_named, type_decoded, check_number, check_named, check_decoded};

use std::error::Error;
use std::fmt;

// What a kernel object is. A record holds the number, which may be none of these.
#[derive(Clone, Copy, Debug, PartialEq, Eq, Hash)]
pub enum ObjType {
    Any = 0,
    Thread = 1,
    Sem = 2,
    Mutex = 3,
    CondVar = 4,
    MsgQ = 5,
    Stack = 6,
    Pipe = 7,
    Timer = 8,
    Event = 9,
    MemSlab = 10,
    Fifo = 11,
    Lifo = 12,
    SysMutex = 13,
    Futex = 14,
    Mbox = 15,
}

// A number from 16 on names no type.
#[derive(Clone, Copy, Debug, PartialEq, Eq, Hash)]
pub struct UnknownType {
    pub number: u32,
}

impl fmt::Display for UnknownType {
    fn fmt<W: fmt::Write>(&self, f: &mut fmt::Formatter<W>) -> fmt::Result {
        write!(f, "no type of object has the number {}", self.number)
    }
}

impl Error for UnknownType {}

impl TryFrom<u32> for ObjType {
    type Error = UnknownType;

    ghost try_from_gives = { λ n r. r ≡ type_decoded n };

    #[tactic(auto, unfolding(crate::specs::Names::type_named))]
    fn try_from(n: u32) -> Result<Self, UnknownType> {
        match n {
            0 => Ok(ObjType::Any),
            1 => Ok(ObjType::Thread),
            2 => Ok(ObjType::Sem),
            3 => Ok(ObjType::Mutex),
            4 => Ok(ObjType::CondVar),
            5 => Ok(ObjType::MsgQ),
            6 => Ok(ObjType::Stack),
            7 => Ok(ObjType::Pipe),
            8 => Ok(ObjType::Timer),
            9 => Ok(ObjType::Event),
            10 => Ok(ObjType::MemSlab),
            11 => Ok(ObjType::Fifo),
            12 => Ok(ObjType::Lifo),
            13 => Ok(ObjType::SysMutex),
            14 => Ok(ObjType::Futex),
            15 => Ok(ObjType::Mbox),
            _ => Err(UnknownType { number: n }),
        }
    }
}

// What a validation asks of the initialised flag.
#[derive(Clone, Copy, Debug, PartialEq, Eq, Hash)]
pub enum InitCheck {
    MustBeInit = 0,
    MustNotBeInit = -1,
    DontCare = 1,
}

// A number other than 0, -1 and 1 names no mode.
#[derive(Clone, Copy, Debug, PartialEq, Eq, Hash)]
pub struct UnknownCheck {
    pub number: i32,
}

impl fmt::Display for UnknownCheck {
    fn fmt<W: fmt::Write>(&self, f: &mut fmt::Formatter<W>) -> fmt::Result {
        write!(f, "no mode of a validation has the number {}", self.number)
    }
}

impl Error for UnknownCheck {}

impl TryFrom<i32> for InitCheck {
    type Error = UnknownCheck;

    ghost try_from_gives = { λ n r. r ≡ check_decoded n };

    fn try_from(n: i32) -> Result<Self, UnknownCheck> {
        match n {
            0 => Ok(InitCheck::MustBeInit),
            -1 => Ok(InitCheck::MustNotBeInit),
            1 => Ok(InitCheck::DontCare),
            _ => Err(UnknownCheck { number: n }),
        }
    }
}

pub fn obj_type_number(t: ObjType) -> u8
    ensures { result ≡ type_number t }
{
    t as u8
}

pub fn obj_type_of(n: u32) -> Option<ObjType>
    ensures { result ≡ type_named n }
{
    ObjType::try_from(n).ok()
}

pub fn init_check_number(c: InitCheck) -> i8
    ensures { result ≡ check_number c }
{
    c as i8
}

pub fn init_check_of(n: i32) -> Option<InitCheck>
    ensures { result ≡ check_named n }
{
    InitCheck::try_from(n).ok()
}
