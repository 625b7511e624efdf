// The permission leaf's archive for C and Rust: each function of userspace_c under its own name and with its own clauses, with C's calling
// convention. Nothing is decided here: tools/audit, rule 7, holds each to be the call of the library's function of that name.
#![tactic(auto)]

ghost use Rattle.std.specs.Prelude.{◌≡◌};
ghost use Rattle.userspace_c.specs.Exported.{Grants, Revokes, Recycles, Queries, may_use, valid_code};

#[unsafe(no_mangle)]
pub extern "C" fn userspace_grant(word: &mut u64, tid: u32) -> u32
    ensures { Grants word.old tid result word.new }
{
    userspace_c::userspace_grant(word, tid)
}

#[unsafe(no_mangle)]
pub extern "C" fn userspace_revoke(word: &mut u64, tid: u32) -> u32
    ensures { Revokes word.old tid result word.new }
{
    userspace_c::userspace_revoke(word, tid)
}

#[unsafe(no_mangle)]
pub extern "C" fn userspace_recycle(flags: &mut u8, word: &mut u64, tid: u32) -> u32
    ensures { Recycles flags.old word.old tid result flags.new word.new }
{
    userspace_c::userspace_recycle(flags, word, tid)
}

#[unsafe(no_mangle)]
pub extern "C" fn userspace_has_perm(word: u64, tid: u32, value: &mut u32) -> u32
    ensures { Queries word tid result value.new }
{
    userspace_c::userspace_has_perm(word, tid, value)
}

#[unsafe(no_mangle)]
pub extern "C" fn userspace_check_access(flags: u8, word: u64, tid: u32, supervisor: bool) -> bool
    ensures { result ≡ may_use flags word tid supervisor }
{
    userspace_c::userspace_check_access(flags, word, tid, supervisor)
}

#[unsafe(no_mangle)]
pub extern "C" fn userspace_validate(
    kind: u8,
    flags: u8,
    word: u64,
    expected: u8,
    tid: u32,
    supervisor: bool,
    mode: i32,
) -> u32
    ensures { result ≡ valid_code kind flags word expected tid supervisor mode }
{
    userspace_c::userspace_validate(kind, flags, word, expected, tid, supervisor, mode)
}
