// The permission leaf (docs/SPEC.md, 4): one kernel object, its permissions a word with a bit for each thread.
// Upstream's userspace.rs with a word for its table of 64 booleans. What is promised: each function is the
// definition of specs/Userspace for every record taken literally and every number; a thread from 64 on is
// refused with EINVAL and the record stays as it was; the word acts as upstream's table (proofs/Table).
#![tactic(auto)]

ghost use Rattle.std.specs.Prelude.{◌≡◌};
ghost use Rattle.userspace.specs.Userspace.{bit_for, public, initialised, allocated, driver, new_object, granted, revoked, cleared_all, access, type_fits, validated, initiated, uninitiated, recycled, published, bit_answer};

use answer::Code;
use userspace_names::InitCheck;

// Threads 0 to 63 have a bit.
pub const MAX_THREADS: u32 = 64;

// A record as it is stored: type and flags are compared and never judged. They stay numbers: it is a row of a table that C lends, which may hold any.
#[derive(Clone, Copy, Debug, Default, PartialEq, Eq, Hash)]
pub struct KernelObject {
    pub obj_type: u8,
    pub flags: u8,
    pub word: u64,
}

// The one place that refuses a thread: a word with its bit alone, or EINVAL, so that no shift is ever by 64.
#[tactic(auto, using(bits::specs::Bit::shifted), unfolding(crate::specs::Userspace::bit_for))]
fn mask_of(tid: u32) -> Result<u64, Code>
    ensures { result ≡ bit_for tid }
{
    if tid < MAX_THREADS {
        Ok(1u64 << tid)
    } else {
        Err(Code::Einval)
    }
}

#[tactic(auto, unfolding(crate::specs::Userspace::type_fits))]
fn type_fits(expected: u8, actual: u8) -> bool
    ensures { result ≡ type_fits expected actual }
{
    expected == 0 || expected == actual
}

impl KernelObject {
    pub const INITIALIZED: u8 = userspace_decide::FLAG_INITIALIZED;

    pub const PUBLIC: u8 = userspace_decide::FLAG_PUBLIC;

    pub const ALLOC: u8 = 4;

    pub const DRIVER: u8 = 8;

    pub fn new(kind: u8) -> Self
        ensures { result ≡ new_object kind }
    {
        Self {
            obj_type: kind,
            flags: 0,
            word: 0,
        }
    }

    pub fn grant_access(&mut self, tid: u32) -> Result<(), Code>
        ensures answer { result ≡ (granted self.old tid).answer }
        ensures object { self.new ≡ (granted self.old tid).object }
    {
        self.word |= mask_of(tid)?;
        Ok(())
    }

    pub fn revoke_access(&mut self, tid: u32) -> Result<(), Code>
        ensures answer { result ≡ (revoked self.old tid).answer }
        ensures object { self.new ≡ (revoked self.old tid).object }
    {
        self.word &= !mask_of(tid)?;
        Ok(())
    }

    pub fn clear_thread_perm(&mut self, tid: u32) -> Result<(), Code>
        ensures answer { result ≡ (revoked self.old tid).answer }
        ensures object { self.new ≡ (revoked self.old tid).object }
    {
        self.revoke_access(tid)
    }

    pub fn clear_all_perms(&mut self)
        ensures { self.new ≡ cleared_all self.old }
    {
        self.word = 0;
    }

    #[tactic(auto, unfolding(crate::specs::Userspace::access, crate::specs::Userspace::holds, crate::specs::Userspace::bit_answer))]
    pub fn check_access(self, tid: u32, supervisor: bool) -> bool
        ensures { result ≡ access self tid supervisor }
    {
        supervisor
            || userspace_decide::access_decide(self.is_public(), self.has_perm(tid) == Ok(true))
    }

    pub fn validate(
        self,
        expected: u8,
        tid: u32,
        supervisor: bool,
        check: InitCheck,
    ) -> Result<(), Code>
        ensures { result ≡ validated self expected tid supervisor check }
    {
        let fits = type_fits(expected, self.obj_type);
        let allowed = self.check_access(tid, supervisor);
        let mode = userspace_names::init_check_number(check);
        userspace_decide::validate_decide(fits, allowed, self.is_initialized(), mode)
    }

    pub fn init_object(&mut self)
        ensures { self.new ≡ initiated self.old }
    {
        self.flags = userspace_decide::init_flags_decide(self.flags);
    }

    pub fn uninit_object(&mut self)
        ensures { self.new ≡ uninitiated self.old }
    {
        self.flags = userspace_decide::uninit_flags_decide(self.flags);
    }

    pub fn recycle(&mut self, caller: u32) -> Result<(), Code>
        ensures answer { result ≡ (recycled self.old caller).answer }
        ensures object { self.new ≡ (recycled self.old caller).object }
    {
        let only = mask_of(caller)?;
        self.flags = userspace_decide::recycle_flags_decide(self.flags);
        self.word = only;
        Ok(())
    }

    pub fn make_public(&mut self)
        ensures { self.new ≡ published self.old }
    {
        self.flags = userspace_decide::make_public_flags_decide(self.flags);
    }

    pub fn is_initialized(self) -> bool
        ensures { result ≡ initialised self }
    {
        self.flags & Self::INITIALIZED != 0
    }

    pub fn is_public(self) -> bool
        ensures { result ≡ public self }
    {
        self.flags & Self::PUBLIC != 0
    }

    // Upstream's record has these two as fields of their own, for everybody to read.
    pub fn is_alloc(self) -> bool
        ensures { result ≡ allocated self }
    {
        self.flags & Self::ALLOC != 0
    }

    pub fn is_driver(self) -> bool
        ensures { result ≡ driver self }
    {
        self.flags & Self::DRIVER != 0
    }

    // Whether the thread holds its bit.
    pub fn has_perm(self, tid: u32) -> Result<bool, Code>
        ensures { result ≡ bit_answer self tid }
    {
        Ok(self.word & mask_of(tid)? != 0)
    }

    pub fn obj_type_get(self) -> u8
        ensures { result ≡ self.obj_type }
    {
        self.obj_type
    }
}
