// The planner: a memory domain as a PMSAv7 plan, a region for each active slot (docs/SPEC.md, 10). Nothing rests on it: mpu's checker judges any plan,
// and stands below it only so that proofs/Right.antt can say that every plan made here is accepted. What is promised: the answer,
// the value and the lent words equal their definitions in specs/, for any record, any number of regions and any run of words.
#![tactic(auto)]

ghost use Rattle.std.specs.Prelude.{◌≡◌, true, ◌++◌, ◌+◌, ◌*◌, ◌%◌, ◌^◌, ◌<◌, ◌≤◌, length, set, drop};
ghost use Rattle.mem_partition.specs.Partition.{is_active};
ghost use Rattle.planner.specs.Planner.{field_for, is_region, rbar_for, xn_for, ap_for, rasr_for, slot_fits, slots_fit, next_region, put_slot, plan_of, word_count, Made};

use answer::Code;
use mem_domain::MemDomain;
use mem_partition::MemPartition;

const MAX_REGIONS: u32 = 16;

// RASR's fields: XN, AP 3, AP 6, C, ENABLE.
const XN: u32 = 0x10000000;

const AP_WRITE: u32 = 0x03000000;

const AP_READ: u32 = 0x06000000;

const CACHED: u32 = 0x00020000;

const ENABLE: u32 = 1;

// RBAR's VALID.
const VALID: u32 = 16;

// The SIZE field, by counts of the size's bits; 0 for what is no power of two.
fn size_field(size: u32) -> u32
    ensures { result ≡ field_for size }
{
    let zeros = size.trailing_zeros();
    if size.count_ones() == 1 && zeros != 0 {
        zeros - 1
    } else {
        0
    }
}

#[tactic(auto, unfolding(crate::specs::Planner::is_region))]
fn is_region(p: MemPartition) -> bool
    ensures { result ≡ is_region p }
{
    4 <= size_field(p.size) && p.start % p.size == 0
}

#[tactic(auto, unfolding(crate::specs::Planner::slot_fits))]
fn slot_fits(p: MemPartition) -> bool
    ensures { result ≡ slot_fits p }
{
    p.size == 0 || is_region(p)
}

fn slots_fit(domain: MemDomain) -> bool
    ensures { result ≡ slots_fit domain.partitions }
{
    domain.partitions.iter().all(|p| slot_fits(*p))
}

#[tactic(auto, unfolding(crate::specs::Planner::rbar_for))]
fn rbar_for(start: u32, m: usize) -> u32
    requires { (start % 32 ≡ 0) × (m < 16) }
    ensures { result ≡ rbar_for start m }
{
    start + VALID + m as u32
}

#[tactic(auto, unfolding(crate::specs::Planner::xn_for))]
fn xn_for(attr: u32) -> u32
    ensures { (result ≡ xn_for attr) × (result ≤ 2 ^ 28) }
{
    if attr / 4 % 2 == 0 { XN } else { 0 }
}

#[tactic(auto, unfolding(crate::specs::Planner::ap_for))]
fn ap_for(attr: u32) -> u32
    ensures { (result ≡ ap_for attr) × (result < 2 ^ 27) }
{
    if attr / 2 % 2 == 1 { AP_WRITE } else { AP_READ }
}

#[tactic(auto, unfolding(crate::specs::Planner::rasr_for))]
fn rasr_for(field: u32, attr: u32) -> u32
    requires { field < 32 }
    ensures { result ≡ rasr_for field attr }
{
    xn_for(attr) + ap_for(attr) + CACHED + field * 2 + ENABLE
}

fn put_region(out: &mut [u32], m: usize, rbar: u32, rasr: u32)
    requires { m * 2 + 1 < length out.old }
    ensures { out.new ≡ set (set out.old (m * 2) rbar) (m * 2 + 1) rasr }
{
    out[m * 2] = rbar;
    out[m * 2 + 1] = rasr;
}

// The words of one slot, as region m where it is active; the next region's number.
fn fill_slot(p: MemPartition, m: usize, out: &mut [u32]) -> usize
    requires { (m < 16) × (slot_fits p ≡ true) × (is_active p ≡ true → m * 2 + 1 < length out.old) }
    ensures { (result ≡ next_region p m) × (out.new ≡ put_slot p m out.old) }
{
    if p.size == 0 {
        return m;
    }
    let rbar = rbar_for(p.start, m);
    let rasr = rasr_for(size_field(p.size), p.attr);
    put_region(out, m, rbar, rasr);
    m + 1
}

fn fill(domain: MemDomain, out: &mut [u32])
    requires { (slots_fit domain.partitions ≡ true) × (word_count domain.partitions ≤ length out.old) }
    ensures { out.new ≡ plan_of domain.partitions ++ drop (word_count domain.partitions) out.old }
{
    let mut m = 0;
    for p in &domain.partitions {
        m = fill_slot(*p, m, out);
    }
}

// The planner. The record's own count is its active slots, once it is sound.
pub fn plan(domain: MemDomain, regions: u32, out: &mut [u32]) -> Result<u32, Code>
    ensures { Made domain regions out.old out.new result }
{
    let n = domain.num_partitions;
    let words = n as usize * 2;
    if !domain_rules::is_sound(domain) {
        return Err(Code::Value);
    }
    if regions > MAX_REGIONS {
        return Err(Code::Einval);
    }
    if !slots_fit(domain) {
        return Err(Code::Noplan);
    }
    if n > regions {
        return Err(Code::Noplan);
    }
    if words > out.len() {
        return Err(Code::Room);
    }
    fill(domain, out);
    Ok(n * 2)
}
