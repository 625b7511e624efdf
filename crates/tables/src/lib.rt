// The state: three tables of numbers that the caller lends, and the records in them: what stands where in all three (specs/), and the accessors of
// threads, slots and domains; those of objects are the crate object_table, over the same `load` and `store`.
// Every accessor is total: behind a table's end a load gives the all-zero record and a store does nothing, so nobody above has to be careful.
// What stands above speaks of records and of `State` (specs/State.antt) and never of an offset.
#![tactic(auto)]

ghost use Rattle.std.specs.Prelude.{◌≡◌, ◌<◌, ◌^◌, ◌*◌, ◌+◌, get_or, set};
ghost use Rattle.std.proofs.lemmas.List.Edits.{sets};
ghost use Rattle.tables.specs.Rows.{at3, row_of};
ghost use Rattle.tables.specs.Table.{sized, thread_at, put_thread, partition_at, put_partition, slot_at, put_slot, domain_at, put_domain};

use mem_domain::MemDomain;
use mem_partition::MemPartition;
use std::array;

// The limits: threads and slots are the leaves' own, handles and domains are named here.
pub const THREADS: u32 = userspace::MAX_THREADS;

pub const HANDLES: u32 = 256;

pub const DOMAINS: u32 = 8;

pub const SLOTS: usize = mem_domain::MAX_PARTITIONS as usize;

const WIDE_SLOTS: u64 = mem_domain::MAX_PARTITIONS as u64;

// How many numbers each table has.
pub const OBJECT_NUMBERS: usize = 2 * (HANDLES as usize);

pub const THREAD_NUMBERS: usize = 3 * (THREADS as usize);

pub const SLOT_NUMBERS: usize = 3 * SLOTS * (DOMAINS as usize);

// A thread's record: role 0 dead, 1 user, 2 supervisor; domain 0..7 or 255 for none; the handle of its thread object. The role stays a number: it is one
// of a table that C lends, and a table that breaks the rules, which every accessor takes and hands on as it stands, may hold any.
#[derive(Clone, Copy)]
pub struct Thread {
    pub role: u32,
    pub domain: u32,
    pub handle: u32,
}

// Whether three tables are as long as a state's.
#[tactic(auto, unfolding(crate::specs::Table::sized))]
pub fn is_sized(objects: usize, threads: usize, slots: usize) -> bool
    ensures { result ≡ sized objects threads slots }
{
    objects == OBJECT_NUMBERS && threads == THREAD_NUMBERS && slots == SLOT_NUMBERS
}

// The number at a place of a table, `none` behind its end. Places are worked in 64 bits and become an index once they are known to lie in the table, so that
// no product can wrap where `usize` is narrower.
#[inline]
pub fn load<T: Copy>(xs: &[T], i: u64, none: T) -> T
    ensures { result ≡ get_or xs.now i none }
{
    if i < xs.len() as u64 {
        xs[i as usize]
    } else {
        none
    }
}

// Behind the table's end nothing is stored.
#[inline]
pub fn store<T: Copy>(to: &mut [T], i: u64, v: T)
    ensures { to.new ≡ set to.old i v }
{
    if i < to.len() as u64 {
        to[i as usize] = v;
    }
}

// Row i of a table of rows of three numbers: those of threads and of slots.
fn load_row(xs: &[u32], i: u64) -> [u32; 3]
    requires { i < 2 ^ 40 }
    ensures { result ≡ at3 row_of xs.now i }
{
    let at = 3 * i;
    [load(xs, at, 0), load(xs, at + 1, 0), load(xs, at + 2, 0)]
}

fn store_row(xs: &mut [u32], i: u64, row: [u32; 3])
    requires { i < 2 ^ 40 }
    ensures { xs.new ≡ sets xs.old (3 * i) row }
{
    let [a, b, c] = row;
    let at = 3 * i;
    store(xs, at, a);
    store(xs, at + 1, b);
    store(xs, at + 2, c);
}

#[tactic(auto, unfolding(crate::specs::Table::thread_at))]
pub fn load_thread(threads: &[u32], t: u32) -> Thread
    ensures { result ≡ thread_at threads.now t }
{
    let [role, domain, handle] = load_row(threads, u64::from(t));
    Thread {
        role,
        domain,
        handle,
    }
}

#[tactic(auto, unfolding(crate::specs::Table::put_thread))]
pub fn store_thread(threads: &mut [u32], t: u32, r: Thread)
    ensures { threads.new ≡ put_thread threads.old t r }
{
    store_row(threads, u64::from(t), [r.role, r.domain, r.handle]);
}

// Partition number 16 d + k is slot k of domain d.
#[tactic(auto, unfolding(crate::specs::Table::partition_at))]
fn load_partition(slots: &[u32], n: u64) -> MemPartition
    requires { n < 2 ^ 40 }
    ensures { result ≡ partition_at slots.now n }
{
    let [start, size, attr] = load_row(slots, n);
    MemPartition { start, size, attr }
}

#[tactic(auto, unfolding(crate::specs::Table::put_partition))]
fn store_partition(slots: &mut [u32], n: u64, p: MemPartition)
    requires { n < 2 ^ 40 }
    ensures { slots.new ≡ put_partition slots.old n p }
{
    store_row(slots, n, [p.start, p.size, p.attr]);
}

#[tactic(auto, unfolding(crate::specs::Table::slot_at))]
pub fn load_slot(slots: &[u32], d: u32, k: u32) -> MemPartition
    ensures { result ≡ slot_at slots.now d k }
{
    if mem_domain::MAX_PARTITIONS <= k {
        return MemPartition {
            start: 0,
            size: 0,
            attr: 0,
        };
    }
    load_partition(slots, WIDE_SLOTS * u64::from(d) + u64::from(k))
}

#[tactic(auto, unfolding(crate::specs::Table::put_slot))]
pub fn store_slot(slots: &mut [u32], d: u32, k: u32, p: MemPartition)
    ensures { slots.new ≡ put_slot slots.old d k p }
{
    if k < mem_domain::MAX_PARTITIONS {
        store_partition(slots, WIDE_SLOTS * u64::from(d) + u64::from(k), p);
    }
}

pub fn load_domain(slots: &[u32], d: u32) -> MemDomain
    ensures { result ≡ domain_at slots.now d }
{
    let first = WIDE_SLOTS * u64::from(d);
    let partitions = array::from_fn(|k| load_partition(slots, first + k as u64));
    let m = MemDomain {
        partitions,
        num_partitions: 0,
    };
    m.counted()
}

pub fn store_domain(slots: &mut [u32], d: u32, m: MemDomain)
    ensures { slots.new ≡ put_domain slots.old d m }
{
    let base = WIDE_SLOTS * u64::from(d);
    for (k, p) in m.partitions.iter().enumerate() {
        store_partition(slots, base + k as u64, *p);
    }
}
