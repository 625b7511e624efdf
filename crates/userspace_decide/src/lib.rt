// The permission leaf's decisions on plain values: upstream's `*_decide` functions, which the record's functions are made of.
// What is promised: each function is the definition of specs/Decide for every number and yes or no; the refusals come in the order of docs/SPEC.md, 4.
#![tactic(auto)]

ghost use Rattle.std.specs.Prelude.{◌≡◌, ◌||◌};
ghost use Rattle.bits.specs.Bit.{set_bit, clear_bit};
ghost use Rattle.userspace_names.specs.Names.{mode_of};
ghost use Rattle.userspace_decide.specs.Decide.{INITIALISED, PUBLIC, judged, number_in};

use answer::Code;

// The flags that upstream's decisions set and clear; the record's constants are these.
pub const FLAG_INITIALIZED: u8 = 1;

pub const FLAG_PUBLIC: u8 = 2;

pub fn access_decide(public: bool, held: bool) -> bool
    ensures { result ≡ (public || held) }
{
    public || held
}

// Upstream's function over plain values (docs/CONTRACTS.md): the mode stays a number, and any may come.
#[tactic(auto, unfolding(crate::specs::Decide::judged))]
pub fn validate_decide(fits: bool, allowed: bool, ready: bool, mode: i8) -> Result<(), Code>
    ensures { result ≡ judged fits allowed ready (mode_of mode) }
{
    if !fits {
        return Err(Code::Ebadf);
    }
    if !allowed {
        return Err(Code::Eperm);
    }
    match mode {
        0 if !ready => Err(Code::Einval),
        -1 if ready => Err(Code::Eaddrinuse),
        _ => Ok(()),
    }
}

#[tactic(auto, unfolding(bits::specs::Bit::set_bit))]
pub fn init_flags_decide(flags: u8) -> u8
    ensures { result ≡ set_bit flags INITIALISED }
{
    flags | FLAG_INITIALIZED
}

pub fn uninit_flags_decide(flags: u8) -> u8
    ensures { result ≡ clear_bit flags INITIALISED }
{
    flags & !FLAG_INITIALIZED
}

pub fn recycle_flags_decide(flags: u8) -> u8
    ensures { result ≡ set_bit flags INITIALISED }
{
    init_flags_decide(flags)
}

#[tactic(auto, unfolding(bits::specs::Bit::set_bit))]
pub fn make_public_flags_decide(flags: u8) -> u8
    ensures { result ≡ set_bit flags PUBLIC }
{
    flags | FLAG_PUBLIC
}

// The number of a validation's answer, for whoever answers with numbers: OK's, or the refusal's, whichever number that is.
pub fn validated_number(v: Result<(), u32>) -> u32
    ensures { result ≡ number_in v }
{
    match v {
        Ok(()) => answer::OK,
        Err(n) => n,
    }
}
