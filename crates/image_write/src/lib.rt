// The image's writer: a state that keeps the rules, as the bytes of docs/SPEC.md, 9, into a lent buffer.
// `encode` (specs/Encode.antt) is the layout; the reader (crate `image`) holds itself to it by writing what it read once more.
// Promised of `write`: VALUE for tables that break a rule, then ROOM, else the image and its length; what lies behind it stays.
#![tactic(auto)]

ghost use Rattle.answer.specs.Answer.{told};
ghost use Rattle.std.specs.Prelude.{◌≡◌, ◌++◌, ◌+◌, ◌*◌, ◌<◌, ◌≤◌, length};
ghost use Rattle.std.proofs.lemmas.List.Edits.{sets};
ghost use Rattle.answer.specs.Stores.{cat};
ghost use Rattle.image_write.specs.Bytes.{bytes, magic};
ghost use Rattle.image_write.specs.Encode.{object_bytes, thread_bytes, domain_bytes, domains_bytes, top, live, header, encode, Written, Roomy};
ghost use Rattle.image_write.specs.Told.{NamesRefusal};

use answer::Code;
use tables::{DOMAINS, HANDLES, OBJECT_NUMBERS, SLOT_NUMBERS, SLOTS, THREAD_NUMBERS, THREADS};

// The limits as places, for the passes that count in them.
const ALL_HANDLES: usize = HANDLES as usize;

const ALL_THREADS: usize = THREADS as usize;

const ALL_DOMAINS: usize = DOMAINS as usize;

const DOMAIN_COUNT: u64 = DOMAINS as u64;

// How many bytes each part of an image has, how many numbers a domain, and how short and how long an image can be.
pub const HEADER: usize = 16;

pub const OBJECT: usize = 12;

pub const THREAD: usize = 8;

pub const NUMBERS: usize = 3 * SLOTS;

pub const DOMAIN: usize = 4 * NUMBERS;

pub const LEAST: usize = HEADER + ALL_DOMAINS * DOMAIN;

pub const LONGEST: usize = LEAST + OBJECT * ALL_HANDLES + THREAD * ALL_THREADS;

// Writes the n lower bytes of v, the lower first.
fn put(out: &mut [u8], at: usize, n: usize, v: u64)
    requires { (n ≤ 8) × (at + n ≤ length out.old) }
    ensures { out.new ≡ sets out.old at (bytes n v) }
{
    out[at..at + n].copy_from_slice(&v.to_le_bytes()[..n]);
}

fn put_magic(out: &mut [u8])
    requires { 8 ≤ length out.old }
    ensures { out.new ≡ sets out.old 0 magic }
{
    out[..8].copy_from_slice(b"WLATCH01");
}

fn put_header(out: &mut [u8], m: usize, n: usize)
    requires { (16 ≤ length out.old) × ((m ≤ 256) × (n ≤ 64)) }
    ensures { out.new ≡ sets out.old 0 (header m n) }
{
    put_magic(out);
    put(out, 8, 2, m as u64);
    put(out, 10, 1, n as u64);
    put(out, 11, 1, DOMAIN_COUNT);
    put(out, 12, 4, (LEAST + OBJECT * m + THREAD * n) as u64);
}

// Up to the last object that is not free.
fn count_objects(objects: &[u64; OBJECT_NUMBERS]) -> usize
    ensures { (result ≡ top objects.now 256) × (result ≤ 256) }
{
    for h in (0..ALL_HANDLES).rev() {
        if objects[2 * h] != 0 {
            return h + 1;
        }
    }
    0
}

fn count_threads(threads: &[u32; THREAD_NUMBERS]) -> usize
    ensures { (result ≡ live threads.now 64) × (result ≤ 64) }
{
    (0..ALL_THREADS).filter(|t| threads[3 * *t] != 0).count()
}

fn put_objects(out: &mut [u8], at: usize, objects: &[u64; OBJECT_NUMBERS], n: usize)
    requires { (n ≤ 256) × (at + 12 * n ≤ length out.old) }
    ensures { out.new ≡ sets out.old at (cat (object_bytes objects.now) n) }
{
    for h in 0..n {
        let to = at + OBJECT * h;
        put(out, to, 4, objects[2 * h]);
        put(out, to + 4, 8, objects[2 * h + 1]);
    }
}

// A thread's record: the supervisor's byte is one less than the role, domain and handle have zeros above them.
fn put_record(out: &mut [u8], at: usize, id: u64, supervisor: u64, domain: u64, handle: u64)
    requires { at + 8 ≤ length out.old }
    ensures { out.new ≡ sets out.old at (bytes 1 id ++ bytes 1 supervisor ++ bytes 2 domain ++ bytes 4 handle) }
{
    put(out, at, 1, id);
    put(out, at + 1, 1, supervisor);
    put(out, at + 2, 2, domain);
    put(out, at + 4, 4, handle);
}

// A dead thread has no record. Hands back the place behind what was written.
fn put_thread(out: &mut [u8], at: usize, threads: &[u32; THREAD_NUMBERS], t: usize) -> usize
    requires { (t < 64) × (at + length (thread_bytes threads.now t) ≤ length out.old) }
    ensures { (out.new ≡ sets out.old at (thread_bytes threads.now t)) × (result ≡ at + length (thread_bytes threads.now t)) }
{
    let role = u64::from(threads[3 * t]);
    let domain = u64::from(threads[3 * t + 1]);
    let handle = u64::from(threads[3 * t + 2]);
    if role == 0 {
        return at;
    }
    put_record(out, at, t as u64, role - 1, domain, handle);
    at + THREAD
}

fn put_threads(out: &mut [u8], at: usize, threads: &[u32; THREAD_NUMBERS])
    requires { at + length (cat (thread_bytes threads.now) 64) ≤ length out.old }
    ensures { out.new ≡ sets out.old at (cat (thread_bytes threads.now) 64) }
{
    let mut to = at;
    for t in 0..ALL_THREADS {
        to = put_thread(out, to, threads, t);
    }
}

// The record is a part of the image and the numbers a part of the table, both of one domain: slices of longer ones.
fn put_domain(rec: &mut [u8], slots: &[u32])
    requires { (length rec.old ≡ 192) × (length slots.now ≡ 48) }
    ensures { rec.new ≡ domain_bytes slots.now }
{
    for (k, v) in slots.iter().enumerate() {
        put(rec, 4 * k, 4, u64::from(*v));
    }
}

// Each domain is written to a part of the buffer, which is lent on.
fn put_domains(out: &mut [u8], at: usize, slots: &[u32; SLOT_NUMBERS])
    requires { at + 1536 ≤ length out.old }
    ensures { out.new ≡ sets out.old at (domains_bytes slots.now) }
{
    for d in 0..ALL_DOMAINS {
        let to = at + DOMAIN * d;
        let from = NUMBERS * d;
        put_domain(&mut out[to..to + DOMAIN], &slots[from..from + NUMBERS]);
    }
}

// The whole image, of m objects and n threads.
fn put_image(
    objects: &[u64; OBJECT_NUMBERS],
    threads: &[u32; THREAD_NUMBERS],
    slots: &[u32; SLOT_NUMBERS],
    out: &mut [u8],
    m: usize,
    n: usize,
)
    requires { Roomy objects.now threads.now slots.now out.old m n }
    ensures { out.new ≡ sets out.old 0 (encode objects.now threads.now slots.now) }
{
    let a = HEADER + OBJECT * m;
    let b = a + THREAD * n;
    put_header(out, m, n);
    put_objects(out, HEADER, objects, m);
    put_threads(out, a, threads);
    put_domains(out, b, slots);
}

// The writer: any tables, of any length; the number of bytes, or why there are none.
pub fn write(objects: &[u64], threads: &[u32], slots: &[u32], out: &mut [u8]) -> Result<u32, Code>
    ensures written { Written objects.now threads.now slots.now out.old out.new (told result) }
    ensures named { NamesRefusal result }
{
    if !rules::keeps(objects, threads, slots) {
        return Err(Code::Value);
    }
    let Some(objects) = objects.as_array::<OBJECT_NUMBERS>() else {
        return Err(Code::Value);
    };
    let Some(threads) = threads.as_array::<THREAD_NUMBERS>() else {
        return Err(Code::Value);
    };
    let Some(slots) = slots.as_array::<SLOT_NUMBERS>() else {
        return Err(Code::Value);
    };
    let m = count_objects(objects);
    let n = count_threads(threads);
    let t = LEAST + OBJECT * m + THREAD * n;
    if out.len() < t {
        return Err(Code::Room);
    }
    put_image(objects, threads, slots, out, m, n);
    Ok(t as u32)
}
