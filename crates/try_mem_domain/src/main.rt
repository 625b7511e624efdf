// Runs a stored list of cases over the memory domain and prints each answer. The list stands in `stdin`, five little-endian
// words to a case: a number of `step`, then its four arguments. tests/mem_domain/cases.py makes it, and works out `stdout` by a model.
#![tactic(auto)]

use answer::{Answer, Code};
use mem_domain::MemDomain;
use mem_partition::MemPartition;
use std::fmt::Display;
use std::io;

// How many bytes a case has.
const CASE: usize = 20;

fn main(rt: HostRuntime) -> io::Result<()> {
    let mut cases = [0u8; 65536];
    let n = reading::read_full(&mut rt.stdin(), &mut cases)?;
    let mut d = MemDomain::init();
    for case in cases.chunks_exact(CASE).take(n.div_ceil(CASE)) {
        step(&rt, &mut d, case)?;
    }
    Ok(())
}

// One case. Steps 1 and 2 write into the record itself, so that any record can be tried, unsound ones too.
fn step(rt: &impl Print, d: &mut MemDomain, case: &[u8]) -> io::Result<()> {
    let op = number(case, 0);
    let a = number(case, 4);
    let b = number(case, 8);
    let c = number(case, 12);
    let e = number(case, 16);
    // Steps are the numbers that the case file has: this is the one place that reads them.
    match op {
        0 => made(rt, d)?,
        1 => put_slot(d, a, part(b, c, e)),
        2 => d.num_partitions = a,
        3 => {
            let r = d.add_partition(part(a, b, c));
            changed(rt, "add", r, *d)?;
        }
        4 => {
            let r = d.remove_partition(a, b);
            changed(rt, "remove", r, *d)?;
        }
        5 => asked(rt, *d, a)?,
        6 => windows(rt, part(a, b, 0), part(c, e, 0))?,
        _ => {}
    }
    Ok(())
}

fn made(rt: &impl Print, d: &mut MemDomain) -> io::Result<()> {
    word(rt, "init ")?;
    *d = MemDomain::init();
    state(rt, *d)
}

fn put_slot(d: &mut MemDomain, a: u32, p: MemPartition) {
    if let Some(slot) = d.partitions.get_mut(a as usize) {
        *slot = p;
    }
}

// The answer's number and value, and the domain after.
fn changed(rt: &impl Print, name: &str, r: Result<u32, Code>, d: MemDomain) -> io::Result<()> {
    word(rt, name)?;
    word(rt, " ")?;
    let told = Answer::from(r);
    figure(rt, told.code)?;
    figure(rt, told.value)?;
    state(rt, d)
}

// Every question that a domain answers, with a as slot and as address.
fn asked(rt: &impl Print, d: MemDomain, a: u32) -> io::Result<()> {
    word(rt, "ask ")?;
    figure(rt, d.num_partitions_get())?;
    truth(rt, d.has_free_slot())?;
    truth(rt, d.contains_addr(a))?;
    got(rt, d.partition_get(a))?;
    word(rt, "\n")
}

// The answer's number, and the slot's three fields, zeros on a refusal.
fn got(rt: &impl Print, r: Result<MemPartition, Code>) -> io::Result<()> {
    figure(rt, Answer::from(r.map(|_| ())).code)?;
    let p = r.unwrap_or_default();
    figure(rt, p.start)?;
    figure(rt, p.size)?;
    figure(rt, p.attr)
}

// Every question that windows answer, by the methods and by the free functions.
fn windows(rt: &impl Print, p: MemPartition, q: MemPartition) -> io::Result<()> {
    word(rt, "windows ")?;
    figure(rt, p.end_u64())?;
    truth(rt, p.is_valid())?;
    truth(rt, mem_partition::partition_valid_decide(p.start, p.size))?;
    truth(rt, p.overlaps(q))?;
    truth(
        rt,
        mem_partition::partitions_overlap_decide(p.start, p.size, q.start, q.size),
    )?;
    word(rt, "\n")
}

// The count, and each slot that is not all zero, by its number.
fn state(rt: &impl Print, d: MemDomain) -> io::Result<()> {
    figure(rt, d.num_partitions)?;
    for (k, p) in d.partitions.iter().enumerate() {
        slot(rt, k, *p)?;
    }
    word(rt, "\n")
}

fn slot(rt: &impl Print, k: usize, p: MemPartition) -> io::Result<()> {
    if p == MemPartition::default() {
        return Ok(());
    }
    word(rt, "| ")?;
    figure(rt, k)?;
    figure(rt, p.start)?;
    figure(rt, p.size)?;
    figure(rt, p.attr)
}

fn part(start: u32, size: u32, attr: u32) -> MemPartition {
    MemPartition { start, size, attr }
}

fn truth(rt: &impl Print, b: bool) -> io::Result<()> {
    word(rt, if b { "yes " } else { "no " })
}

fn figure(rt: &impl Print, n: impl Display + Drop) -> io::Result<()> {
    rt.print(n)?;
    word(rt, " ")
}

fn word(rt: &impl Print, text: &str) -> io::Result<()> {
    rt.print(text)
}

// The little-endian word at a place of a case, and 0 past its end.
fn number(case: &[u8], at: usize) -> u32 {
    match case.get(at..) {
        Some([b0, b1, b2, b3, ..]) => u32::from_le_bytes([*b0, *b1, *b2, *b3]),
        _ => 0,
    }
}
