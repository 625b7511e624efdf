// Runs a stored list of steps over the latch and prints each answer with a digest of the three tables, so that a refusal can be seen to leave them.
// The list stands in `stdin`. A step is four little-endian words, its number and x, y, z; the bytes of a call or of a log follow it.
// Steps 0 to 3 write one number of objects, threads, slots or `out`, so that any state can be made, unsound ones too. Steps 4 and 5 are a call and
// a log: x has how many bytes and how many numbers of `out`, y and z have how much of each table is lent. tests/calls/cases.py makes the list.
#![tactic(auto)]

ghost use Rattle.std.specs.Prelude.{◌<◌, ◌≤◌, length, IfOk};

use std::io;
use std::io::Read;

// The most steps that are read.
const STEPS: u32 = 1000000;

// The digest is a polynomial at 31337 modulo a prime below 2^48: no product leaves 64 bits.
const PRIME: u64 = 281474976710597;

const BASE: u64 = 31337;

const HALF: u64 = 4294967296;

// What a call or a log is given: x, y, z of its step.
#[derive(Clone, Copy)]
struct Lent {
    x: u32,
    y: u32,
    z: u32,
}

// The tables have room for more than a state has, so that longer ones can be lent. They go as a parameter each: of a struct behind a `&mut` no two fields
// can be lent at once, tried in `call` and `run`.
fn main(rt: HostRuntime) -> io::Result<()> {
    let mut objects = [0; 520];
    let mut threads = [0; 200];
    let mut slots = [0; 392];
    let mut out = [0; 256];
    let mut bytes = [0; 4096];
    let mut from = rt.stdin();
    for _ in 0..STEPS {
        if !one(
            &rt,
            &mut from,
            &mut objects,
            &mut threads,
            &mut slots,
            &mut out,
            &mut bytes,
        )? {
            break;
        }
    }
    Ok(())
}

// One step, where there is a whole one.
fn one(
    rt: &impl Print,
    from: &mut impl Read,
    objects: &mut [u64],
    threads: &mut [u32],
    slots: &mut [u32],
    out: &mut [u32],
    bytes: &mut [u8],
) -> io::Result<bool> {
    let mut head = [0u8; 16];
    let n = reading::read_full(from, &mut head)?;
    if n < 16 {
        return Ok(false);
    }
    let lent = Lent {
        x: number(&head, 4),
        y: number(&head, 8),
        z: number(&head, 12),
    };
    match number(&head, 0) {
        0 => set_object(objects, lent),
        1 => set_number(threads, lent),
        2 => set_number(slots, lent),
        3 => set_number(out, lent),
        4 => call(rt, from, objects, threads, slots, bytes, lent)?,
        5 => run(rt, from, objects, threads, slots, out, bytes, lent)?,
        _ => word(rt, "?\n")?,
    }
    Ok(true)
}

fn set_object(objects: &mut [u64], lent: Lent) {
    if let Some(number) = objects.get_mut(lent.x as usize) {
        *number = u64::from(lent.y) + u64::from(lent.z) * HALF;
    }
}

fn set_number(xs: &mut [u32], lent: Lent) {
    if let Some(number) = xs.get_mut(lent.x as usize) {
        *number = lent.y;
    }
}

// The bytes of a call or of a log, from what follows the step.
fn listen(from: &mut impl Read, bytes: &mut [u8], x: u32) -> io::Result<usize>
    ensures { IfOk result (λ n. n ≤ length bytes.old) }
{
    let n = least(x % 65536, bytes.len());
    reading::read_full(from, &mut bytes[..n])?;
    Ok(n)
}

fn call(
    rt: &impl Print,
    from: &mut impl Read,
    objects: &mut [u64],
    threads: &mut [u32],
    slots: &mut [u32],
    bytes: &mut [u8],
    lent: Lent,
) -> io::Result<()> {
    let n = listen(from, bytes, lent.x)?;
    let o = least(lent.y % 65536, objects.len());
    let t = least(lent.y / 65536, threads.len());
    let s = least(lent.z, slots.len());
    let r = calls::call(
        &mut objects[..o],
        &mut threads[..t],
        &mut slots[..s],
        &bytes[..n],
    );
    word(rt, "call ")?;
    answered(
        rt,
        r.code,
        u64::from(r.value),
        state(objects, threads, slots),
    )?;
    word(rt, "\n")
}

fn run(
    rt: &impl Print,
    from: &mut impl Read,
    objects: &mut [u64],
    threads: &mut [u32],
    slots: &mut [u32],
    out: &mut [u32],
    bytes: &mut [u8],
    lent: Lent,
) -> io::Result<()> {
    let n = listen(from, bytes, lent.x)?;
    let m = least(lent.x / 65536, out.len());
    let o = least(lent.y % 65536, objects.len());
    let t = least(lent.y / 65536, threads.len());
    let s = least(lent.z, slots.len());
    let r = calls::run(
        &mut objects[..o],
        &mut threads[..t],
        &mut slots[..s],
        &bytes[..n],
        &mut out[..m],
    );
    word(rt, "run ")?;
    let (code, answers) = match r {
        Ok(answers) => (answer::OK, answers),
        Err(refusal) => (answer::number(refusal), 0),
    };
    answered(rt, code, answers as u64, state(objects, threads, slots))?;
    left_in(rt, out, m)
}

fn answered(rt: &impl Print, code: u32, value: u64, after: u64) -> io::Result<()> {
    figure(rt, u64::from(code))?;
    figure(rt, value)?;
    figure(rt, after)
}

// What a log has left in `out`: all of it as a digest, and the lent numbers.
fn left_in(rt: &impl Print, out: &[u32], m: usize) -> io::Result<()> {
    figure(rt, digest(out, 0))?;
    numbers(rt, out, m)?;
    word(rt, "\n")
}

// All numbers of the tables, those that were not lent too.
fn state(objects: &[u64], threads: &[u32], slots: &[u32]) -> u64 {
    digest(slots, digest(threads, digest_wide(objects, 0)))
}

fn digest(xs: &[u32], from: u64) -> u64 {
    xs.iter().fold(from, |d, x| mix(d, u64::from(*x)))
}

// A number of 64 bits goes in by halves, so that no two numbers count as the same.
fn digest_wide(xs: &[u64], from: u64) -> u64 {
    xs.iter().fold(from, |d, x| mix(mix(d, *x), *x / HALF))
}

fn mix(d: u64, x: u64) -> u64 {
    (d % PRIME * BASE + x % HALF) % PRIME
}

fn numbers(rt: &impl Print, out: &[u32], m: usize) -> io::Result<()> {
    for number in out.iter().take(m) {
        figure(rt, u64::from(*number))?;
    }
    Ok(())
}

fn least(n: u32, most: usize) -> usize
    ensures { result ≤ most }
{
    (n as usize).min(most)
}

fn figure(rt: &impl Print, n: u64) -> io::Result<()> {
    rt.print(n)?;
    word(rt, " ")
}

fn word(rt: &impl Print, text: &str) -> io::Result<()> {
    rt.print(text)
}

// The little-endian word at a place of a step's head, and 0 past its end.
fn number(head: &[u8; 16], at: usize) -> u32 {
    if at > 12 {
        return 0;
    }
    u32::from_le_bytes([head[at], head[at + 1], head[at + 2], head[at + 3]])
}
