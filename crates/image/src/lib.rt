// The image's reader: the bytes of docs/SPEC.md, 9, into three lent tables, and back what lies behind the image.
// The tables are read off into scratch, judged by the rules, written once more and compared with the bytes, and only then copied: so an image is
// accepted exactly when it is what the writer writes of a state that keeps the rules, and a refusal changes nothing.
#![tactic(auto)]

ghost use Rattle.answer.specs.Answer.{code_in};
ghost use Rattle.std.specs.Prelude.{◌≡◌, ◌+◌, ◌*◌, ◌≤◌, ◌<◌, ◌^◌, length};
ghost use Rattle.std.proofs.lemmas.List.Edits.{sets};
ghost use Rattle.answer.specs.Stores.{cat};
ghost use Rattle.image_write.specs.Bytes.{le, magic};
ghost use Rattle.image.specs.Read.{object_in, enter, entered, domain_of, domains_in, eqs, fields_ok, headed, is_image, ReadIs, Fresh, Decoded};
ghost use Rattle.image.specs.Told.{part_of};
ghost use Rattle.image_write.specs.Told.{NamesRefusal};

use answer::Code;
use image_write::{DOMAIN, HEADER, LEAST, LONGEST, NUMBERS, OBJECT, THREAD};
use tables::{DOMAINS, HANDLES, OBJECT_NUMBERS, SLOT_NUMBERS, THREAD_NUMBERS, THREADS};

// The limits as places and as numbers read.
const ALL_THREADS: usize = THREADS as usize;

const ALL_DOMAINS: usize = DOMAINS as usize;

const MOST_OBJECTS: u64 = HANDLES as u64;

const MOST_THREADS: u64 = THREADS as u64;

const DOMAIN_COUNT: u64 = DOMAINS as u64;

const LEAST_TOTAL: u64 = LEAST as u64;

const EACH_OBJECT: u64 = OBJECT as u64;

const EACH_THREAD: u64 = THREAD as u64;

// The number of the n bytes at a place, the lower first.
fn get(s: &[u8], at: usize, n: usize) -> u64
    requires { (n ≤ 8) × (at + n ≤ length s.now) }
    ensures { (result ≡ le n s.now at) × (result < 256 ^ n) }
{
    let mut r = 0u64;
    for k in (0..n).rev() {
        r = r * 256 + u64::from(s[at + k]);
    }
    r
}

fn is_magic(s: &[u8]) -> bool
    ensures { result ≡ eqs s.now magic }
{
    s == b"WLATCH01".as_slice()
}

// The slice is one domain's record, and so is the part of the table.
fn get_domain(rec: &[u8], slots: &mut [u32])
    requires { (length rec.now ≡ 192) × (length slots.old ≡ 48) }
    ensures { slots.new ≡ domain_of rec.now }
{
    for k in 0..NUMBERS {
        slots[k] = get(rec, 4 * k, 4) as u32;
    }
}

// Each domain is read from a part of the image, which is lent on.
fn get_domains(image: &[u8], at: usize, slots: &mut [u32; SLOT_NUMBERS])
    requires { at + 1536 ≤ length image.now }
    ensures { slots.new ≡ domains_in image.now at }
{
    for d in 0..ALL_DOMAINS {
        let from = at + DOMAIN * d;
        let to = NUMBERS * d;
        get_domain(&image[from..from + DOMAIN], &mut slots[to..to + NUMBERS]);
    }
}

// Type, flags and the two bytes that must be zero are one number: the rules refuse it from 4096 on.
fn get_objects(image: &[u8], objects: &mut [u64; OBJECT_NUMBERS], n: usize)
    requires { (16 + 12 * n ≤ length image.now) × (n ≤ 256) }
    ensures { objects.new ≡ sets objects.old 0 (cat (object_in image.now) n) }
{
    for h in 0..n {
        objects[2 * h] = get(image, HEADER + OBJECT * h, 4);
        objects[2 * h + 1] = get(image, 20 + OBJECT * h, 8);
    }
}

// The bytes that must be zero are read with the domain and the handle below them, so that the rules refuse them too.
fn get_thread(image: &[u8], from: usize, threads: &mut [u32; THREAD_NUMBERS])
    requires { from + 8 ≤ length image.now }
    ensures { threads.new ≡ enter image.now from threads.old }
{
    let id = get(image, from, 1) as usize;
    let role = get(image, from + 1, 1) as u32 + 1;
    let domain = get(image, from + 2, 2) as u32;
    let handle = get(image, from + 4, 4) as u32;
    if id < ALL_THREADS {
        threads[3 * id] = role;
        threads[3 * id + 1] = domain;
        threads[3 * id + 2] = handle;
    }
}

fn get_threads(image: &[u8], at: usize, threads: &mut [u32; THREAD_NUMBERS], n: usize)
    requires { (at + 8 * n ≤ length image.now) × (n ≤ 64) }
    ensures { threads.new ≡ entered image.now at threads.old n }
{
    for i in 0..n {
        get_thread(image, at + THREAD * i, threads);
    }
}

// The header's fields: m objects, n threads, d domains, t bytes.
#[tactic(auto, unfolding(crate::specs::Read::fields_ok))]
fn fields_ok(m: u64, n: u64, d: u64, t: u64) -> bool
    requires { (m < 65536) × (n < 256) }
    ensures { result ≡ fields_ok m n d t }
{
    let sum = LEAST_TOTAL + EACH_OBJECT * m + EACH_THREAD * n;
    m <= MOST_OBJECTS && n <= MOST_THREADS && d == DOMAIN_COUNT && t == sum
}

// What the header answers.
fn check_head(image: &[u8]) -> Result<(), Code>
    ensures head { code_in result ≡ headed image.now 0 }
    ensures named { NamesRefusal result }
{
    if image.len() < HEADER {
        return Err(Code::Short);
    }
    if !is_magic(&image[..8]) {
        return Err(Code::Magic);
    }
    let m = get(image, 8, 2);
    let n = get(image, 10, 1);
    let d = get(image, 11, 1);
    let t = get(image, 12, 4);
    if !fields_ok(m, n, d, t) {
        return Err(Code::Value);
    }
    if image.len() < t as usize {
        return Err(Code::Short);
    }
    Ok(())
}

// Reads the tables off an image with a good header, and hands back the place behind it.
fn decode(
    image: &[u8],
    objects: &mut [u64; OBJECT_NUMBERS],
    threads: &mut [u32; THREAD_NUMBERS],
    slots: &mut [u32; SLOT_NUMBERS],
) -> usize
    requires { Fresh image.now objects.old threads.old }
    ensures { Decoded image.now objects.new threads.new slots.new result }
{
    let m = get(image, 8, 2) as usize;
    let n = get(image, 10, 1) as usize;
    get_objects(image, objects, m);
    get_threads(image, HEADER + OBJECT * m, threads, n);
    get_domains(image, HEADER + OBJECT * m + THREAD * n, slots);
    LEAST + OBJECT * m + THREAD * n
}

// Whether the tables keep the rules and the first t bytes are what the writer makes of them: the writer judges, and what it writes is compared.
fn is_image(image: &[u8], t: usize, objects: &[u64], threads: &[u32], slots: &[u32]) -> bool
    requires { t ≤ length image.now }
    ensures { result ≡ is_image image.now t objects.now threads.now slots.now }
{
    let mut out = [0u8; LONGEST];
    let Ok(length) = image_write::write(objects, threads, slots, &mut out) else {
        return false;
    };
    let again = &out[..length as usize];
    let there = &image[..t];
    again == there
}

// The reader: any bytes, tables of any length. A refusal leaves every table as it was.
pub fn read<'a>(
    image: &'a [u8],
    objects: &mut [u64],
    threads: &mut [u32],
    slots: &mut [u32],
) -> Result<&'a [u8], Code>
    ensures read { ReadIs image.now objects.old threads.old slots.old objects.new threads.new slots.new (part_of result) (code_in result) }
    ensures named { NamesRefusal result }
{
    if !tables::is_sized(objects.len(), threads.len(), slots.len()) {
        return Err(Code::Value);
    }
    check_head(image)?;
    let mut o = [0u64; OBJECT_NUMBERS];
    let mut h = [0u32; THREAD_NUMBERS];
    let mut s = [0u32; SLOT_NUMBERS];
    let end = decode(image, &mut o, &mut h, &mut s);
    if !is_image(image, end, &o, &h, &s) {
        return Err(Code::Value);
    }
    objects.copy_from_slice(&o);
    threads.copy_from_slice(&h);
    slots.copy_from_slice(&s);
    Ok(&image[end..])
}
