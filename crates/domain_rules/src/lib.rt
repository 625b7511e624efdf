// The rules of a memory domain, and the function that judges a record by them. The domain leaf takes any record literally; what plans, checks and
// stores domains answers VALUE by this. Promised: `is_sound` says true exactly when the rules hold (docs/SPEC.md, 3.33). The slots' own
// rules (3.32) are judged of whatever has sixteen slots (`Slots`), so that a record and a whole table of domains go through the same functions, and none is copied.
#![tactic(auto)]

ghost use Rattle.std.specs.Prelude.{◌≡◌, ◌<◌, ◌≤◌, List};
ghost use Rattle.domain_rules.specs.Sound.{attr_ok, slot_ok, apart_of, clear_of, slot_sound, slots_sound, domain_sound};
ghost use Rattle.mem_partition.specs.declared.MemPartition.{MemPartition as MemPartition·spec};
ghost use Rattle.mem_domain.specs.Domain.{slot_at};

use mem_domain::MemDomain;
use mem_partition::MemPartition;

const SLOTS: usize = mem_domain::MAX_PARTITIONS as usize;

// The attributes that a partition may have. Public for the call that adds one.
#[tactic(auto, unfolding(crate::specs::Sound::attr_ok))]
pub fn attr_ok(attr: u32) -> bool
    ensures { result ≡ attr_ok attr }
{
    matches!(attr, 1 | 3 | 5 | 7)
}

// One slot by itself: a free one is all zero, an active one is valid with an allowed attr.
#[tactic(auto, unfolding(crate::specs::Sound::slot_ok))]
pub fn slot_ok(p: MemPartition) -> bool
    ensures { result ≡ slot_ok p }
{
    if p.size == 0 {
        return p.start == 0 && p.attr == 0;
    }
    p.is_valid() && attr_ok(p.attr)
}

// Two slots: they are not both active and overlapping.
#[tactic(auto, unfolding(crate::specs::Sound::apart_of))]
pub fn is_apart(p: MemPartition, q: MemPartition) -> bool
    ensures { result ≡ apart_of p q }
{
    if p.size == 0 || q.size == 0 {
        return true;
    }
    !p.overlaps(q)
}

// Sixteen slots, wherever they stand: those of a record, or of a part of a table. They are judged where they are, and none is copied.
pub trait Slots {
    ghost held: { Self → List MemPartition·spec };

    // Behind the last one comes nothing but free slots.
    fn slot(&self, k: usize) -> MemPartition
        ensures { result ≡ slot_at (held self.now) k };
}

impl Slots for MemDomain {
    ghost held = { λ d. d.partitions };

    fn slot(&self, k: usize) -> MemPartition {
        self.partitions.get(k).copied().unwrap_or_default()
    }
}

// Whether q overlaps none of the first k slots.
fn is_clear<S: Slots>(at: &S, k: usize, q: MemPartition) -> bool
    requires { k ≤ 16 }
    ensures { result ≡ clear_of (S.held at.now) q k }
{
    for j in 0..k {
        if !is_apart(at.slot(j), q) {
            return false;
        }
    }
    true
}

// A free slot overlaps nothing: only pairs of active slots are looked at.
fn slot_sound<S: Slots>(at: &S, k: usize) -> bool
    requires { k < 16 }
    ensures { result ≡ slot_sound (S.held at.now) k }
{
    let q = at.slot(k);
    if !slot_ok(q) {
        return false;
    }
    if q.size == 0 {
        return true;
    }
    is_clear(at, k, q)
}

// Whether sixteen slots keep the rules, and no two of them overlap.
pub fn slots_sound<S: Slots>(at: &S) -> bool
    ensures { result ≡ slots_sound (S.held at.now) }
{
    for k in 0..SLOTS {
        if !slot_sound(at, k) {
            return false;
        }
    }
    true
}

// Whether a domain record keeps every rule (SPEC 3.33), that of its count too.
#[tactic(auto, unfolding(crate::specs::Sound::domain_sound, mem_domain::specs::Domain::with_count))]
pub fn is_sound(domain: MemDomain) -> bool
    ensures { result ≡ domain_sound domain }
{
    slots_sound(&domain) && domain.num_partitions == domain.counted().num_partitions
}
