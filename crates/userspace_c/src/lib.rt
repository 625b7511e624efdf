// The permission leaf for C and Rust, over plain numbers: a record's type, flags and word stand with the caller, and what a call
// changes is written where the caller says. Each function is the leaf's own, with the leaf's promise; nothing is decided here. The crate
// userspace_leaf_c exports each to C under its name.
#![tactic(auto)]

ghost use Rattle.std.specs.Prelude.{◌≡◌};
ghost use Rattle.userspace_names.specs.Names.{mode_of};
ghost use Rattle.userspace_decide.specs.Decide.{number_in, answer_of};
ghost use Rattle.userspace_c.specs.Exported.{Grants, Revokes, Recycles, Queries, may_use, valid_code};

use answer::{Answer, Code};
use userspace::KernelObject;
use userspace_names::InitCheck;

fn object(kind: u8, flags: u8, word: u64) -> KernelObject
    ensures { result ≡ record { obj_type = kind; flags = flags; word = word } }
{
    KernelObject {
        obj_type: kind,
        flags,
        word,
    }
}

// C calls grant and revoke each by its name, so they stay two functions.
pub fn userspace_grant(word: &mut u64, tid: u32) -> u32
    ensures { Grants word.old tid result word.new }
{
    let mut object = object(0, 0, *word);
    let granted = object.grant_access(tid);
    *word = object.word;
    Answer::from(granted).code
}

pub fn userspace_revoke(word: &mut u64, tid: u32) -> u32
    ensures { Revokes word.old tid result word.new }
{
    let mut object = object(0, 0, *word);
    let revoked = object.revoke_access(tid);
    *word = object.word;
    Answer::from(revoked).code
}

pub fn userspace_recycle(flags: &mut u8, word: &mut u64, tid: u32) -> u32
    ensures { Recycles flags.old word.old tid result flags.new word.new }
{
    let mut object = object(0, *flags, *word);
    let recycled = object.recycle(tid);
    *flags = object.flags;
    *word = object.word;
    Answer::from(recycled).code
}

pub fn userspace_has_perm(word: u64, tid: u32, value: &mut u32) -> u32
    ensures { Queries word tid result value.new }
{
    let held = object(0, 0, word).has_perm(tid);
    let told = Answer::from(held.map(|yes| u32::from(yes)));
    *value = told.value;
    told.code
}

pub fn userspace_check_access(flags: u8, word: u64, tid: u32, supervisor: bool) -> bool
    ensures { result ≡ may_use flags word tid supervisor }
{
    object(0, flags, word).check_access(tid, supervisor)
}

// A refusal by its number.
fn by_number(v: Result<(), Code>) -> Result<(), u32>
    ensures { number_in result ≡ (answer_of v).code }
{
    match v {
        Ok(()) => Ok(()),
        Err(code) => Err(answer::number(code)),
    }
}

// A mode other than 0 and -1 means either, as validate_decide has it.
pub fn userspace_validate(
    kind: u8,
    flags: u8,
    word: u64,
    expected: u8,
    tid: u32,
    supervisor: bool,
    mode: i32,
) -> u32
    ensures { result ≡ valid_code kind flags word expected tid supervisor mode }
{
    let v = object(kind, flags, word).validate(expected, tid, supervisor, check(mode));
    userspace_decide::validated_number(by_number(v))
}

fn check(mode: i32) -> InitCheck
    ensures { result ≡ mode_of mode }
{
    userspace_names::init_check_of(mode).unwrap_or(InitCheck::DontCare)
}
