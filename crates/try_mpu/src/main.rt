// Runs cases over the checker and the planner and prints each answer. A case is 86 little-endian words: 1 to check, 2 to plan or 3 to check
// again and again (bench/mpu), the number of words lent, the number of regions or of rounds, the record's count, its sixteen slots of start, size and attr, and 34 words of plan
// or of what lies in the lent run before. tests/mpu/cases.py makes cases, and works out the answers by a model.
#![tactic(auto)]

ghost use Rattle.std.specs.Prelude.{◌<◌};

use answer::Code;
use mem_domain::MemDomain;
use mem_partition::MemPartition;
use std::io;
use std::io::Read;

// What a case has in bytes, and the most cases that are read.
const CASE: usize = 344;

const CASES: u32 = 1000000;

fn main(rt: HostRuntime) -> io::Result<()> {
    let mut from = rt.stdin();
    for _ in 0..CASES {
        if !one(&rt, &mut from)? {
            break;
        }
    }
    Ok(())
}

// One case, where there is a whole one.
fn one(rt: &impl Print, from: &mut impl Read) -> io::Result<bool> {
    let mut case = [0u8; CASE];
    let n = reading::read_full(from, &mut case)?;
    if n < CASE {
        return Ok(false);
    }
    let lent = number(&case, 4) as usize;
    if lent > 34 {
        return Ok(false);
    }
    let op = number(&case, 0);
    let n = number(&case, 8);
    // Steps are the numbers that the case file has: this is the one place that reads them.
    match op {
        1 => check(rt, domain(&case), words(&case), lent)?,
        2 => plan(rt, domain(&case), n, words(&case), lent)?,
        _ => again(rt, domain(&case), words(&case), lent, n)?,
    }
    Ok(true)
}

fn check(rt: &impl Print, d: MemDomain, words: [u32; 34], lent: usize) -> io::Result<()>
    requires { lent < 35 }
{
    word(rt, "check ")?;
    answered(rt, mpu::check(d, &words[..lent]).map(|()| 0))?;
    word(rt, "\n")
}

// The same check a number of times. Each answer goes into the next round's plan, where an OK changes nothing, so that no round can be left out.
fn again(
    rt: &impl Print,
    d: MemDomain,
    words: [u32; 34],
    lent: usize,
    rounds: u32,
) -> io::Result<()>
    requires { lent < 35 }
{
    let mut w = words;
    for _ in 0..rounds {
        w[0] |= code_of(d, w, lent);
    }
    word(rt, "again ")?;
    figure(rt, code_of(d, w, lent))?;
    word(rt, "\n")
}

fn code_of(d: MemDomain, words: [u32; 34], lent: usize) -> u32
    requires { lent < 35 }
{
    match mpu::check(d, &words[..lent]) {
        Ok(()) => answer::OK,
        Err(code) => answer::number(code),
    }
}

// The lent run is printed as it is afterwards, the words behind it too.
fn plan(
    rt: &impl Print,
    d: MemDomain,
    regions: u32,
    words: [u32; 34],
    lent: usize,
) -> io::Result<()>
    requires { lent < 35 }
{
    let mut out = words;
    word(rt, "plan ")?;
    answered(rt, planner::plan(d, regions, &mut out[..lent]))?;
    run(rt, &out)?;
    word(rt, "\n")
}

fn run(rt: &impl Print, out: &[u32; 34]) -> io::Result<()> {
    for word in out {
        figure(rt, *word)?;
    }
    Ok(())
}

fn answered(rt: &impl Print, r: Result<u32, Code>) -> io::Result<()> {
    match r {
        Ok(value) => {
            figure(rt, answer::OK)?;
            figure(rt, value)
        }
        Err(code) => {
            figure(rt, answer::number(code))?;
            figure(rt, 0)
        }
    }
}

fn domain(case: &[u8; 344]) -> MemDomain {
    let mut d = MemDomain::init();
    d.num_partitions = number(case, 12);
    for (k, p) in d.partitions.iter_mut().enumerate() {
        *p = slot(case, 16 + k * 12);
    }
    d
}

fn slot(case: &[u8; 344], at: usize) -> MemPartition
    requires { at < 300 }
{
    MemPartition {
        start: number(case, at),
        size: number(case, at + 4),
        attr: number(case, at + 8),
    }
}

fn words(case: &[u8; 344]) -> [u32; 34] {
    let mut w = [0u32; 34];
    for (k, word) in w.iter_mut().enumerate() {
        *word = number(case, 208 + k * 4);
    }
    w
}

fn figure(rt: &impl Print, n: u32) -> io::Result<()> {
    rt.print(n)?;
    word(rt, " ")
}

fn word(rt: &impl Print, text: &str) -> io::Result<()> {
    rt.print(text)
}

// The little-endian word at a place of the case, and 0 past its end.
fn number(case: &[u8; 344], at: usize) -> u32 {
    if at > 340 {
        return 0;
    }
    u32::from_le_bytes([case[at], case[at + 1], case[at + 2], case[at + 3]])
}
