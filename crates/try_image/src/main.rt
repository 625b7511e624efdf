// Runs a stored list of steps over an image's bytes and three tables: bytes are put, the image is read, the tables are written, what was written is
// read back. Prints each answer, the length and the first byte of the rest, and digests of the tables and of the bytes. The list stands in `stdin`,
// four little-endian words to a step, its number first; tests/image/cases.py makes it, and works out `stdout` by a model.
#![tactic(auto)]

ghost use Rattle.std.specs.Prelude.{◌<◌, ◌≤◌};

use std::io;

// The image's bytes stand in front, what is written behind them.
const HALF: usize = 8192;

fn main(rt: HostRuntime) -> io::Result<()> {
    let mut cases = [0u8; 65536];
    let n = reading::read_full(&mut rt.stdin(), &mut cases)?;
    let mut objects = [0u64; 512];
    let mut threads = [0u32; 192];
    let mut slots = [0u32; 384];
    let mut bytes = [0u8; 16384];
    run(
        &rt,
        &mut objects,
        &mut threads,
        &mut slots,
        &mut bytes,
        &cases,
        n,
    )
}

fn run(
    rt: &impl Print,
    objects: &mut [u64],
    threads: &mut [u32],
    slots: &mut [u32],
    bytes: &mut [u8],
    cases: &[u8; 65536],
    n: usize,
) -> io::Result<()> {
    let mut at = 0;
    // a step is as long as it says itself: no range has these places
    while at < n {
        if at > 65520 {
            break;
        }
        step(rt, objects, threads, slots, bytes, cases, at)?;
        at += length_of(cases, at);
    }
    Ok(())
}

// Step 0 has its bytes behind it, made up to whole steps.
fn length_of(cases: &[u8; 65536], at: usize) -> usize
    requires { at ≤ 65520 }
    ensures { (0 < result) × (result < 65536) }
{
    if number(cases, at) != 0 {
        return 16;
    }
    let n = (number(cases, at + 8) % 32768) as usize;
    16 + (n + 15) / 16 * 16
}

fn step(
    rt: &impl Print,
    objects: &mut [u64],
    threads: &mut [u32],
    slots: &mut [u32],
    bytes: &mut [u8],
    cases: &[u8; 65536],
    at: usize,
) -> io::Result<()>
    requires { at ≤ 65520 }
{
    let op = number(cases, at);
    let a = number(cases, at + 4);
    let b = number(cases, at + 8);
    let c = number(cases, at + 12);
    // Steps are the numbers that the case file has, by their groups.
    if op < 8 {
        put(bytes, cases, at + 16, op, a, b, c);
        return Ok(());
    }
    if op < 16 {
        number_step(objects, threads, slots, op, a, b, c);
        return Ok(());
    }
    act(rt, objects, threads, slots, bytes, op, a, b, c)
}

// Steps 0 to 3 write bytes: a run from the list, one byte, a byte many times, what was written over the image.
fn put(bytes: &mut [u8], cases: &[u8; 65536], from: usize, op: u32, a: u32, b: u32, c: u32)
    requires { from ≤ 65536 }
{
    let at = a as usize;
    let n = b as usize;
    match op {
        0 => load(bytes, at, cases, from, n),
        1 => fill(bytes, at, 1, (b % 256) as u8),
        2 => fill(bytes, at, n, (c % 256) as u8),
        _ => back(bytes, at),
    }
}

fn load(bytes: &mut [u8], at: usize, cases: &[u8; 65536], from: usize, n: usize)
    requires { from ≤ 65536 }
{
    let to = at.min(bytes.len());
    let len = n.min(cases.len() - from).min(bytes.len() - to);
    bytes[to..to + len].copy_from_slice(&cases[from..from + len]);
}

fn fill(bytes: &mut [u8], at: usize, n: usize, v: u8) {
    let to = at.min(bytes.len());
    let len = n.min(bytes.len() - to);
    bytes[to..to + len].fill(v);
}

fn back(bytes: &mut [u8], n: usize) {
    let half = HALF.min(bytes.len());
    let (front, behind) = bytes.split_at_mut(half);
    let len = n.min(front.len()).min(behind.len());
    front[..len].copy_from_slice(&behind[..len]);
}

// Steps 8 to 12 write a number of a table, so that any state can be written out, unsound ones too: b its lower word, c its upper.
fn number_step(
    objects: &mut [u64],
    threads: &mut [u32],
    slots: &mut [u32],
    op: u32,
    a: u32,
    b: u32,
    c: u32,
) {
    let i = u64::from(a);
    // Steps are the numbers that the case file has.
    match op {
        8 => tables::store(objects, i, u64::from(c) << 32 | u64::from(b)),
        9 => tables::store(threads, i, b),
        _ => tables::store(slots, i, b),
    }
}

fn act(
    rt: &impl Print,
    objects: &mut [u64],
    threads: &mut [u32],
    slots: &mut [u32],
    bytes: &mut [u8],
    op: u32,
    a: u32,
    b: u32,
    c: u32,
) -> io::Result<()> {
    let n = a as usize;
    match op {
        16 => read(rt, objects, threads, slots, bytes, n, b),
        17 => write(rt, objects, threads, slots, bytes, n),
        18 => read_again(rt, objects, threads, slots, bytes, a, b, c),
        19 => write_again(rt, objects, threads, slots, bytes, a, b, c),
        _ => word(rt, "?\n"),
    }
}

// Reads the first n bytes; the table that b names is lent one number short.
fn read(
    rt: &impl Print,
    objects: &mut [u64],
    threads: &mut [u32],
    slots: &mut [u32],
    bytes: &[u8],
    n: usize,
    b: u32,
) -> io::Result<()> {
    if n > bytes.len() {
        return Ok(());
    }
    let x = short_of(objects.len(), b == 1);
    let y = short_of(threads.len(), b == 2);
    let z = short_of(slots.len(), b == 3);
    let (code, rest) = match image::read(
        &bytes[..n],
        &mut objects[..x],
        &mut threads[..y],
        &mut slots[..z],
    ) {
        Ok(rest) => (answer::OK, rest),
        Err(code) => (answer::number(code), &bytes[..0]),
    };
    report(rt, code, rest, objects, threads, slots)
}

// The answer as the number that is printed.
fn report(
    rt: &impl Print,
    code: u32,
    rest: &[u8],
    objects: &[u64],
    threads: &[u32],
    slots: &[u32],
) -> io::Result<()> {
    figure(rt, u64::from(code))?;
    figure(rt, rest.len() as u64)?;
    figure(rt, rest.first().map_or(256, |b| u64::from(*b)))?;
    figure(rt, digest(objects))?;
    figure(rt, digest(threads))?;
    figure(rt, digest(slots))?;
    word(rt, "\n")
}

fn short_of(n: usize, cut: bool) -> usize
    ensures { result ≤ n }
{
    if cut { n.saturating_sub(1) } else { n }
}

// Writes the tables into n bytes.
fn write(
    rt: &impl Print,
    objects: &[u64],
    threads: &[u32],
    slots: &[u32],
    bytes: &mut [u8],
    n: usize,
) -> io::Result<()> {
    if n > HALF {
        return Ok(());
    }
    let end = HALF + n;
    if end > bytes.len() {
        return Ok(());
    }
    let (code, length) = match image_write::write(objects, threads, slots, &mut bytes[HALF..end]) {
        Ok(length) => (answer::OK, length),
        Err(code) => (answer::number(code), 0),
    };
    figure(rt, u64::from(code))?;
    figure(rt, u64::from(length))?;
    figure(rt, digest(bytes))?;
    word(rt, "\n")
}

// For the benchmark: reads a times; byte b is c in every other round, so that no round can be left out.
fn read_again(
    rt: &impl Print,
    objects: &mut [u64],
    threads: &mut [u32],
    slots: &mut [u32],
    bytes: &mut [u8],
    a: u32,
    b: u32,
    c: u32,
) -> io::Result<()> {
    let mut good = 0u64;
    for k in 0..a {
        fill(bytes, b as usize, 1, (every_other(k, c) % 256) as u8);
        good = read_once(objects, threads, slots, bytes, good);
    }
    figure(rt, good)?;
    word(rt, "\n")
}

fn read_once(
    objects: &mut [u64],
    threads: &mut [u32],
    slots: &mut [u32],
    bytes: &[u8],
    good: u64,
) -> u64 {
    one_more(good, image::read(bytes, objects, threads, slots).is_ok())
}

fn write_again(
    rt: &impl Print,
    objects: &mut [u64],
    threads: &[u32],
    slots: &[u32],
    bytes: &mut [u8],
    a: u32,
    b: u32,
    c: u32,
) -> io::Result<()> {
    let mut good = 0u64;
    for k in 0..a {
        tables::store(objects, u64::from(b), u64::from(every_other(k, c)));
        good = write_once(objects, threads, slots, bytes, good);
    }
    figure(rt, good)?;
    word(rt, "\n")
}

fn write_once(objects: &[u64], threads: &[u32], slots: &[u32], bytes: &mut [u8], good: u64) -> u64 {
    one_more(
        good,
        image_write::write(objects, threads, slots, bytes).is_ok(),
    )
}

fn one_more(good: u64, done: bool) -> u64 {
    if done && good < 4294967295 {
        return good + 1;
    }
    good
}

fn every_other(k: u32, c: u32) -> u32 {
    if k % 2 == 0 { 0 } else { c }
}

// A digest of a table or of the bytes: each number stirred into what was there.
fn stir(h: u64, x: u64) -> u64
    ensures { result < 1000000007 }
{
    (h % 1000000007 * 131 + x % 4294967296 + x / 4294967296 * 7 + 1) % 1000000007
}

fn digest<T: Copy + Into<u64>>(xs: &[T]) -> u64 {
    xs.iter().fold(0, |h, x| stir(h, (*x).into()))
}

fn figure(rt: &impl Print, n: u64) -> io::Result<()> {
    rt.print(n)?;
    word(rt, " ")
}

fn word(rt: &impl Print, text: &str) -> io::Result<()> {
    rt.print(text)
}

// The little-endian word at a place of the list, and 0 past its end.
fn number(cases: &[u8; 65536], at: usize) -> u32 {
    if at > 65532 {
        return 0;
    }
    u32::from_le_bytes([cases[at], cases[at + 1], cases[at + 2], cases[at + 3]])
}
