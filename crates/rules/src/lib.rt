// The rules of a state, and the one function that judges three lent tables by them: of any length, with any content.
// Calls, image and writer answer VALUE by `keeps`. Promised: it says true exactly when the rules of docs/SPEC.md, 6, hold. One pass over each
// table; that over the threads gathers in a mask who lives, so that the rule about the bits (SPEC 6.7) is one test for each object.
#![tactic(auto)]

ghost use Rattle.std.specs.Prelude.{◌≡◌, ◌||◌, ◌<◌, eqb, ltb};
ghost use Rattle.domain_rules.specs.Scan.{all_to};
ghost use Rattle.domain_rules.specs.Sound.{slots_sound};
ghost use Rattle.tables.specs.Table.{DOMAINS as DOMAINS·spec};
ghost use Rattle.tables.specs.Table.{partition_at, partitions_at};
ghost use Rattle.rules.specs.Rules.{is_served, serving, thread_ok, judged_threads, object_ok, object_at_ok, domains_sound, keeps_test};

use domain_rules::Slots;
use mem_partition::MemPartition;
use tables::{
    DOMAINS, HANDLES, OBJECT_NUMBERS, SLOT_NUMBERS, SLOTS, THREAD_NUMBERS, THREADS, Thread,
};

// The limits as places, for the passes that count in them.
const ALL_HANDLES: usize = HANDLES as usize;

const ALL_DOMAINS: usize = DOMAINS as usize;

#[tactic(auto, unfolding(crate::specs::Rules::is_served, bits::specs::Bit::is_set, bits::specs::Bit::bit_of))]
fn is_served(set256: &[u64; 4], h: u32) -> bool
    requires { h < 256 }
    ensures { result ≡ is_served set256.now h }
{
    let i = (h / 64) as usize;
    (set256[i] >> (h % 64)) % 2 == 1
}

fn serve(set256: &mut [u64; 4], h: u32)
    requires { h < 256 }
    ensures { set256.new ≡ serving set256.old h }
{
    let i = (h / 64) as usize;
    set256[i] |= 1u64 << (h % 64);
}

// A thread's own rules; that no other has its handle is the pass's to see.
#[tactic(auto, unfolding(crate::specs::Rules::thread_ok))]
fn thread_ok(objects: &[u64], r: Thread) -> bool
    ensures { result ≡ thread_ok objects.now r }
{
    if r.role == 0 {
        return r.domain == 0 && r.handle == 0;
    }
    if 2 < r.role || !home_ok(r.domain) || HANDLES <= r.handle {
        return false;
    }
    object_table::load_object(objects, r.handle).obj_type == 1
}

fn home_ok(d: u32) -> bool
    ensures { result ≡ ltb d DOMAINS·spec || eqb d 255 }
{
    d < DOMAINS || d == 255
}

// One pass: each thread's own rules, no handle served twice, and the mask of the live ones for the pass over the objects.
fn judge_threads(objects: &[u64], threads: &[u32]) -> Option<u64>
    ensures { result ≡ judged_threads objects.now threads.now }
{
    let mut live = 0u64;
    let mut served = [0u64; 4];
    for t in 0..THREADS {
        let r = tables::load_thread(threads, t);
        if !thread_ok(objects, r) {
            return None;
        }
        if r.role != 0 {
            if is_served(&served, r.handle) {
                return None;
            }
            serve(&mut served, r.handle);
            live |= 1u64 << t;
        }
    }
    Some(live)
}

// The raw head is judged, before a record is made of it; that each bit is a live thread's is one test.
#[tactic(auto, unfolding(crate::specs::Rules::object_ok))]
fn object_ok(live: u64, head: u64, word: u64) -> bool
    ensures { result ≡ object_ok live head word }
{
    if head % 256 == 0 {
        return head == 0 && word == 0;
    }
    if 15 < head % 256 || 15 < head / 256 {
        return false;
    }
    word & live == word
}

fn objects_ok(objects: &[u64; OBJECT_NUMBERS], live: u64) -> bool
    ensures { result ≡ all_to (object_at_ok objects.now live) 256 }
{
    (0..ALL_HANDLES).all(|h| object_ok(live, objects[2 * h], objects[2 * h + 1]))
}

// Partition n of the table, within it: the pass over the slots tests no index.
#[tactic(auto, unfolding(tables::specs::Table::partition_at))]
fn partition_in(slots: &[u32; SLOT_NUMBERS], n: usize) -> MemPartition
    requires { n < 128 }
    ensures { result ≡ partition_at slots.now n }
{
    let i = 3 * n;
    MemPartition {
        start: slots[i],
        size: slots[i + 1],
        attr: slots[i + 2],
    }
}

// Domain d where it stands in the table: none of its slots is copied into a record.
#[derive(Clone, Copy)]
struct DomainIn<'a> {
    slots: &'a [u32; SLOT_NUMBERS],
    d: usize,
    ghost within: { d < 8 },
}

impl Slots for DomainIn<'_> {
    ghost held = { λ s. partitions_at s.slots.now s.d };

    fn slot(&self, k: usize) -> MemPartition {
        if k < SLOTS {
            partition_in(self.slots, SLOTS * self.d + k)
        } else {
            MemPartition::default()
        }
    }
}

fn domain_ok(slots: &[u32; SLOT_NUMBERS], d: usize) -> bool
    requires { d < 8 }
    ensures { result ≡ slots_sound (partitions_at slots.now d) }
{
    domain_rules::slots_sound(&DomainIn { slots, d })
}

fn domains_ok(slots: &[u32; SLOT_NUMBERS]) -> bool
    ensures { result ≡ domains_sound slots.now }
{
    (0..ALL_DOMAINS).all(|d| domain_ok(slots, d))
}

// Whether a state keeps the rules (SPEC 6): the tables of any length, with any content.
pub fn keeps(objects: &[u64], threads: &[u32], slots: &[u32]) -> bool
    ensures { result ≡ keeps_test objects.now threads.now slots.now }
{
    let Some(objects) = objects.as_array::<OBJECT_NUMBERS>() else {
        return false;
    };
    let Some(threads) = threads.as_array::<THREAD_NUMBERS>() else {
        return false;
    };
    let Some(slots) = slots.as_array::<SLOT_NUMBERS>() else {
        return false;
    };
    let Some(live) = judge_threads(objects, threads) else {
        return false;
    };
    objects_ok(objects, live) && domains_ok(slots)
}
