// What a call changes once it was answered OK: each of the three tables by itself. Whether it was, `step` in lib.rt has seen: here nothing is
// judged, and any call on any tables changes exactly what applying/specs/Apply.antt says; behind a table's end nothing is stored.
// Promised: each table after is `enact..` of the call's change (judging/specs/Change.antt). On a state's tables that is the state after
// (applying/proofs/Picture.antt: `applied`, `fit_after`). The code here is that of threads and domains; that of objects is enacting_objects.rt.
#![tactic(auto, unfolding(applying::specs::Apply::enact_in, applying::specs::Apply::thread_after, applying::specs::Apply::domain_after, judging::specs::Change::thread_change, judging::specs::Change::domain_change))]

ghost use Rattle.std.specs.Prelude.{◌≡◌, cond, eqb};
ghost use Rattle.tables.specs.Table.{nobody as nobody·spec, thread_at, put_thread, domain_at, put_domain};
ghost use Rattle.decoding.specs.Calls.{named};
ghost use Rattle.judging.specs.Change.{thread_change, domain_change};
ghost use Rattle.applying.specs.Apply.{enact_threads, enact_slots, thread_after, domain_after};

use decoding::{Call, Operation};
use mem_domain::MemDomain;
use mem_partition::MemPartition;
use tables::Thread;

// ---- threads

fn nobody() -> Thread
    ensures { result ≡ nobody·spec }
{
    Thread {
        role: 0,
        domain: 0,
        handle: 0,
    }
}

fn role_of(supervisor: u32) -> u32
    ensures { result ≡ cond (eqb supervisor 1) 2 1 }
{
    if supervisor == 1 { 2 } else { 1 }
}

fn thread_after(operation: Operation, c: Call, r: Thread) -> Thread
    ensures { result ≡ thread_after (named operation) c r }
{
    match operation {
        Operation::Exit => nobody(),
        Operation::CreateThread => Thread {
            role: role_of(c.c),
            domain: 255,
            handle: c.a,
        },
        Operation::End => nobody(),
        Operation::Assign => Thread { domain: c.c, ..r },
        _ => r,
    }
}

fn change_thread(threads: &mut [u32], t: u32, operation: Operation, c: Call)
    ensures { threads.new ≡ put_thread threads.old t (thread_after (named operation) c (thread_at threads.old t)) }
{
    let r = tables::load_thread(threads, t);
    tables::store_thread(threads, t, thread_after(operation, c, r));
}

// Exit names the caller, the others field b.
pub fn change_threads(threads: &mut [u32], operation: Operation, c: Call)
    ensures { threads.new ≡ enact_threads (thread_change (named operation) c) threads.old }
{
    match operation {
        Operation::Exit => change_thread(threads, c.caller, operation, c),
        Operation::CreateThread => change_thread(threads, c.b, operation, c),
        Operation::End => change_thread(threads, c.b, operation, c),
        Operation::Assign => change_thread(threads, c.b, operation, c),
        _ => {}
    }
}

// ---- domains

fn change(m: &mut MemDomain, operation: Operation, c: Call)
    ensures { m.new ≡ domain_after (named operation) c m.old }
{
    match operation {
        Operation::Add => {
            let _ = m.add_partition(MemPartition {
                start: c.b,
                size: c.c,
                attr: c.d,
            });
        }
        Operation::Remove => {
            let _ = m.remove_partition(c.b, c.c);
        }
        _ => {}
    }
}

// As `change_object` for objects: one function for both would be handed how to load, how to store and what they promise, for these three lines.
fn change_domain(slots: &mut [u32], d: u32, operation: Operation, c: Call)
    ensures { slots.new ≡ put_domain slots.old d (domain_after (named operation) c (domain_at slots.old d)) }
{
    let mut m = tables::load_domain(slots, d);
    change(&mut m, operation, c);
    tables::store_domain(slots, d, m);
}

pub fn change_slots(slots: &mut [u32], operation: Operation, c: Call)
    ensures { slots.new ≡ enact_slots (domain_change (named operation) c) slots.old }
{
    match operation {
        Operation::Add => change_domain(slots, c.a, operation, c),
        Operation::Remove => change_domain(slots, c.a, operation, c),
        _ => {}
    }
}
