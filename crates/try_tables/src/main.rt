// Runs a stored list of steps over three tables and prints what is loaded and how the state is judged. The list stands in `stdin`, four
// little-endian words to a step: its number, a place, and two words of a value. tests/tables/cases.py makes it, and works out `stdout` by a model.
#![tactic(auto)]

ghost use Rattle.std.specs.Prelude.{◌+◌, ◌≤◌};

use mem_partition::MemPartition;
use std::io;
use tables::Thread;
use userspace::KernelObject;

fn main(rt: HostRuntime) -> io::Result<()> {
    let mut cases = [0u8; 65536];
    let n = reading::read_full(&mut rt.stdin(), &mut cases)?;
    let mut objects = [0u64; 512];
    let mut threads = [0u32; 192];
    let mut slots = [0u32; 384];
    run(&rt, &mut objects, &mut threads, &mut slots, &cases, n)
}

fn run(
    rt: &impl Print,
    objects: &mut [u64],
    threads: &mut [u32],
    slots: &mut [u32],
    cases: &[u8; 65536],
    n: usize,
) -> io::Result<()> {
    for k in 0..n.min(65536).div_ceil(16) {
        step(rt, objects, threads, slots, cases, 16 * k)?;
    }
    Ok(())
}

fn step(
    rt: &impl Print,
    objects: &mut [u64],
    threads: &mut [u32],
    slots: &mut [u32],
    cases: &[u8; 65536],
    at: usize,
) -> io::Result<()> {
    if at > 65520 {
        return Ok(());
    }
    let op = number(cases, at);
    let a = number(cases, at + 4);
    let b = number(cases, at + 8);
    let c = number(cases, at + 12);
    // Steps are the numbers that the case file has: this is the one place that reads them.
    match op {
        0 => set_object(objects, a, b, c),
        1 => set_number(threads, a, b),
        2 => set_number(slots, a, b),
        3 => judge(rt, objects, threads, slots, a, b, c)?,
        4 => show_object(rt, objects, a)?,
        5 => show_thread(rt, threads, a)?,
        6 => show_slot(rt, slots, a, b)?,
        7 => show_domain(rt, slots, a)?,
        8 => store_object(objects, a, b, c),
        9 => store_thread(threads, a, b, c),
        10 => store_slot(slots, a, b, c),
        11 => move_domain(slots, a, b),
        12 => again(rt, objects, threads, slots, a, b, c)?,
        _ => word(rt, "?\n")?,
    }
    Ok(())
}

// Steps 0 to 2 write numbers, so that any state can be tried, unsound ones too.
fn set_object(objects: &mut [u64], a: u32, b: u32, c: u32) {
    tables::store(objects, u64::from(a), u64::from(c) << 32 | u64::from(b));
}

fn set_number(xs: &mut [u32], a: u32, b: u32) {
    tables::store(xs, u64::from(a), b);
}

// Judges the first a, b and c numbers of the tables.
fn judge(
    rt: &impl Print,
    objects: &[u64],
    threads: &[u32],
    slots: &[u32],
    a: u32,
    b: u32,
    c: u32,
) -> io::Result<()> {
    let x = a as usize;
    let y = b as usize;
    let z = c as usize;
    if x <= objects.len() && y <= threads.len() && z <= slots.len() {
        truth(rt, rules::keeps(&objects[..x], &threads[..y], &slots[..z]))?;
    }
    Ok(())
}

fn show_object(rt: &impl Print, objects: &[u64], h: u32) -> io::Result<()> {
    let o = object_table::load_object(objects, h);
    figure(rt, u64::from(o.obj_type))?;
    figure(rt, u64::from(o.flags))?;
    figure(rt, o.word)?;
    word(rt, "\n")
}

fn show_thread(rt: &impl Print, threads: &[u32], t: u32) -> io::Result<()> {
    let r = tables::load_thread(threads, t);
    figure(rt, u64::from(r.role))?;
    figure(rt, u64::from(r.domain))?;
    figure(rt, u64::from(r.handle))?;
    word(rt, "\n")
}

fn show_slot(rt: &impl Print, slots: &[u32], d: u32, k: u32) -> io::Result<()> {
    let p = tables::load_slot(slots, d, k);
    figure(rt, u64::from(p.start))?;
    figure(rt, u64::from(p.size))?;
    figure(rt, u64::from(p.attr))?;
    word(rt, "\n")
}

fn show_domain(rt: &impl Print, slots: &[u32], d: u32) -> io::Result<()> {
    let m = tables::load_domain(slots, d);
    figure(rt, u64::from(m.num_partitions))?;
    truth(rt, domain_rules::is_sound(m))
}

fn store_object(objects: &mut [u64], h: u32, b: u32, c: u32) {
    let o = KernelObject {
        obj_type: (b % 256) as u8,
        flags: (b / 256 % 256) as u8,
        word: u64::from(c),
    };
    object_table::store_object(objects, h, o);
}

fn store_thread(threads: &mut [u32], t: u32, b: u32, c: u32) {
    let r = Thread {
        role: b,
        domain: c % 65536,
        handle: c / 65536,
    };
    tables::store_thread(threads, t, r);
}

// Slot a % 32 of domain a / 32.
fn store_slot(slots: &mut [u32], a: u32, b: u32, c: u32) {
    let p = MemPartition {
        start: b,
        size: c,
        attr: 3,
    };
    tables::store_slot(slots, a / 32, a % 32, p);
}

// Domain b becomes what domain a is.
fn move_domain(slots: &mut [u32], a: u32, b: u32) {
    let m = tables::load_domain(slots, a);
    tables::store_domain(slots, b, m);
}

// Judges the state a times, for the benchmark; number b of the objects is c in every other round, so that no round can be left out.
fn again(
    rt: &impl Print,
    objects: &mut [u64],
    threads: &[u32],
    slots: &[u32],
    a: u32,
    b: u32,
    c: u32,
) -> io::Result<()> {
    let mut good = 0u64;
    for k in 0..a {
        good = round(objects, threads, slots, b, every_other(k, c), good);
    }
    figure(rt, good)?;
    word(rt, "\n")
}

fn every_other(k: u32, c: u32) -> u32 {
    if k % 2 == 0 { 0 } else { c }
}

fn round(objects: &mut [u64], threads: &[u32], slots: &[u32], b: u32, c: u32, good: u64) -> u64
    ensures { result ≤ good + 1 }
{
    set_object(objects, b, c, 0);
    if rules::keeps(objects, threads, slots) && good < 4294967295 {
        return good + 1;
    }
    good
}

fn truth(rt: &impl Print, b: bool) -> io::Result<()> {
    word(rt, if b { "yes\n" } else { "no\n" })
}

fn figure(rt: &impl Print, n: u64) -> io::Result<()> {
    rt.print(n)?;
    word(rt, " ")
}

fn word(rt: &impl Print, text: &str) -> io::Result<()> {
    rt.print(text)
}

// The little-endian word at a place of the list, and 0 past its end.
fn number(cases: &[u8; 65536], at: usize) -> u32 {
    if at > 65532 {
        return 0;
    }
    u32::from_le_bytes([cases[at], cases[at + 1], cases[at + 2], cases[at + 3]])
}
