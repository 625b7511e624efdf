// Reading a call: its sixteen bytes, little-endian. Promised, for any bytes: the call is the definition `call_of` of specs/Calls.antt, where bytes that are
// not there read as 0. Which operation a number names is said there too, for the crates above.
#![tactic(auto)]

ghost use Rattle.std.specs.Prelude.{◌≡◌, ◌+◌, ◌<◌, ◌≤◌, get_or, length};
ghost use Rattle.decoding.specs.Calls.{word_at, call_of, operation_of};

// A call as its bytes have it.
#[derive(Clone, Copy)]
pub struct Call {
    pub op: u32,
    pub caller: u32,
    pub a: u32,
    pub b: u32,
    pub c: u32,
    pub d: u32,
}

// The eighteen operations, each with its number. A call holds any number: `operation_of` says which of these it names.
#[derive(Clone, Copy, PartialEq, Eq)]
pub enum Operation {
    Validate = 0,
    Grant = 1,
    Release = 2,
    Check = 3,
    Exit = 4,
    Create = 16,
    Delete = 17,
    Revoke = 18,
    Init = 19,
    Uninit = 20,
    Recycle = 21,
    MakePublic = 22,
    CreateThread = 23,
    End = 24,
    Inherit = 25,
    Assign = 26,
    Add = 27,
    Remove = 28,
}

// The operation that a number names; None where it is unknown, which is no error here: what it is answered with comes behind other tests (SPEC 7.4).
#[tactic(auto, unfolding(crate::specs::Calls::operation_of))]
pub fn operation_of(number: u32) -> Option<Operation>
    ensures { result ≡ operation_of number }
{
    match number {
        0 => Some(Operation::Validate),
        1 => Some(Operation::Grant),
        2 => Some(Operation::Release),
        3 => Some(Operation::Check),
        4 => Some(Operation::Exit),
        16 => Some(Operation::Create),
        17 => Some(Operation::Delete),
        18 => Some(Operation::Revoke),
        19 => Some(Operation::Init),
        20 => Some(Operation::Uninit),
        21 => Some(Operation::Recycle),
        22 => Some(Operation::MakePublic),
        23 => Some(Operation::CreateThread),
        24 => Some(Operation::End),
        25 => Some(Operation::Inherit),
        26 => Some(Operation::Assign),
        27 => Some(Operation::Add),
        28 => Some(Operation::Remove),
        _ => None,
    }
}

// No conversion: it reads a place, and gives 0 past the end.
fn byte_at(bytes: &[u8], i: usize) -> u8
    ensures { result ≡ get_or bytes.now i 0 }
{
    bytes.get(i).copied().unwrap_or(0)
}

fn word_at(bytes: &[u8], i: usize) -> u32
    requires { i ≤ 12 }
    ensures { result ≡ word_at bytes.now i }
{
    u32::from_le_bytes([
        byte_at(bytes, i),
        byte_at(bytes, i + 1),
        byte_at(bytes, i + 2),
        byte_at(bytes, i + 3),
    ])
}

// The call of sixteen bytes, little-endian, byte by byte. Bytes that are not there read as 0; whoever has fewer than sixteen says SHORT before.
pub fn decode_bytewise(bytes: &[u8]) -> Call
    ensures { result ≡ call_of bytes.now }
{
    Call {
        op: u32::from(byte_at(bytes, 0)),
        caller: u32::from(byte_at(bytes, 1)),
        a: u32::from(u16::from_le_bytes([byte_at(bytes, 2), byte_at(bytes, 3)])),
        b: word_at(bytes, 4),
        c: word_at(bytes, 8),
        d: word_at(bytes, 12),
    }
}

// `word_at` of bytes that are there: without a test for each, which is why there are two.
fn word_in(bytes: &[u8; 16], i: usize) -> u32
    requires { i ≤ 12 }
    ensures { result ≡ word_at bytes.now i }
{
    u32::from_le_bytes([bytes[i], bytes[i + 1], bytes[i + 2], bytes[i + 3]])
}

// The same for the loop over a log, which is fast: one test of the length before all reads, so that the compiler makes four loads of them. Called from one
// place only, it is compiled into it; who has time calls the one above.
pub fn decode(bytes: &[u8]) -> Call
    ensures { result ≡ call_of bytes.now }
{
    let Some(whole) = bytes.first_chunk() else {
        return decode_bytewise(bytes);
    };
    Call {
        op: u32::from(whole[0]),
        caller: u32::from(whole[1]),
        a: u32::from(u16::from_le_bytes([whole[2], whole[3]])),
        b: word_in(whole, 4),
        c: word_in(whole, 8),
        d: word_in(whole, 12),
    }
}
