// The checker: does a PMSAv7 plan give unprivileged code just the rights of a memory domain? It trusts neither the record nor
// whoever made the plan, and knows no planner. What is promised: `check` answers for every address below 2^32, though it looks only at
// the edges of slots and regions (proofs/Cover.antt); a record that is not sound (docs/SPEC.md, 3.33) is VALUE before all else.
#![tactic(auto)]

ghost use Rattle.std.specs.Prelude.{◌≡◌, not, ◌&&◌, ◌+◌, ◌/◌, ◌^◌, ◌<◌, ◌≤◌, eqb, length};
ghost use Rattle.mem_partition.specs.Partition.{is_active, holds};
ghost use Rattle.mem_domain.specs.Domain.{active_count};
ghost use Rattle.domain_rules.specs.Sound.{domain_sound};
ghost use Rattle.mpu.specs.Mpu.{base_of, size_of, within, ap_rights, with_execute, region_rights, region_holds, place_ok, reserved_ok, region_ok, rbar_at, rasr_at, regions_of, plan_ok, rights_of_plan, rights_of_domain, verdict};
ghost use Rattle.mpu.specs.Edges.{edge_agrees, ends_agree, slots_to, regions_to, edges_agree};

use answer::Code;
use mem_domain::MemDomain;
use mem_partition::MemPartition;

const MAX_WORDS: usize = 32;

// The first number that is no address.
const ADDRESSES: u64 = 4294967296;

#[tactic(auto, unfolding(crate::specs::Mpu::base_of))]
fn base_of(rbar: u32) -> u64
    ensures { (result ≡ base_of rbar) × (result < 2 ^ 32) }
{
    u64::from(rbar / 32 * 32)
}

fn size_of(rasr: u32) -> u64
    ensures { (result ≡ size_of rasr) × (result ≤ 2 ^ 32) × (1 < result) }
{
    1u64 << ((rasr >> 1) % 32 + 1)
}

fn is_within(lo: u64, size: u64, a: u64) -> bool
    requires { (lo < 2 ^ 32) × (size ≤ 2 ^ 32) }
    ensures { result ≡ within lo (lo + size) a }
{
    lo <= a && a < lo + size
}

#[tactic(auto, unfolding(crate::specs::Mpu::region_holds))]
fn region_holds(rbar: u32, rasr: u32, a: u64) -> bool
    ensures { result ≡ region_holds rbar rasr a }
{
    rasr % 2 == 1 && is_within(base_of(rbar), size_of(rasr), a)
}

#[tactic(auto, unfolding(crate::specs::Mpu::ap_rights))]
fn ap_rights(ap: u32) -> u32
    ensures { (result ≡ ap_rights ap) × (result ≤ 3) }
{
    match ap {
        2 => 1,
        3 => 3,
        5 => 0,
        6 => 1,
        7 => 1,
        _ => 0,
    }
}

#[tactic(auto, unfolding(crate::specs::Mpu::with_execute))]
fn with_execute(rights: u32, xn: u32) -> u32
    requires { rights ≤ 3 }
    ensures { result ≡ with_execute rights xn }
{
    if rights == 0 {
        0
    } else if xn == 0 {
        rights + 4
    } else {
        rights
    }
}

#[tactic(auto, unfolding(crate::specs::Mpu::region_rights))]
fn region_rights(rasr: u32) -> u32
    ensures { result ≡ region_rights rasr }
{
    with_execute(ap_rights((rasr >> 24) % 8), (rasr >> 28) % 2)
}

// A plan is words, as C lends them: region k has two, read by their places. Its number is its place, so the loops below count places and not pairs.
fn rbar_at(plan: &[u32], k: usize) -> u32
    requires { k < regions_of plan.now }
    ensures { result ≡ rbar_at plan.now k }
{
    plan[k * 2]
}

fn rasr_at(plan: &[u32], k: usize) -> u32
    requires { k < regions_of plan.now }
    ensures { result ≡ rasr_at plan.now k }
{
    plan[k * 2 + 1]
}

// From the highest-numbered region down: the first that holds the address decides.
fn plan_rights(plan: &[u32], a: u64) -> u32
    ensures { result ≡ rights_of_plan plan.now a }
{
    for k in (0..plan.len() / 2).rev() {
        let rasr = rasr_at(plan, k);
        if region_holds(rbar_at(plan, k), rasr, a) {
            return region_rights(rasr);
        }
    }
    0
}

#[tactic(auto, unfolding(mem_partition::specs::Partition::holds))]
fn slot_holds(p: MemPartition, a: u64) -> bool
    ensures { result ≡ is_active p && holds p a }
{
    p.size != 0 && is_within(u64::from(p.start), u64::from(p.size), a)
}

#[tactic(auto, using(crate::proofs::Table::turns), unfolding(crate::specs::Mpu::rights_of_domain))]
fn domain_rights(domain: MemDomain, a: u64) -> u32
    ensures { result ≡ rights_of_domain domain.partitions a }
{
    let mut rights = 0;
    for p in &domain.partitions {
        if slot_holds(*p, a) {
            rights = p.attr;
        }
    }
    rights
}

#[tactic(auto, unfolding(crate::specs::Edges::edge_agrees, crate::specs::Mpu::agree_at))]
fn edge_agrees(domain: MemDomain, plan: &[u32], e: u64) -> bool
    ensures { result ≡ edge_agrees domain.partitions plan.now e }
{
    e >= ADDRESSES || plan_rights(plan, e) == domain_rights(domain, e)
}

#[tactic(auto, unfolding(crate::specs::Edges::ends_agree))]
fn ends_agree(domain: MemDomain, plan: &[u32], lo: u64, size: u64) -> bool
    requires { (lo < 2 ^ 32) × (size ≤ 2 ^ 32) }
    ensures { result ≡ ends_agree domain.partitions plan.now lo size }
{
    edge_agrees(domain, plan, lo) && edge_agrees(domain, plan, lo + size)
}

#[tactic(auto, using(crate::proofs::Table::scans))]
fn slots_agree(domain: MemDomain, plan: &[u32]) -> bool
    ensures { result ≡ slots_to domain.partitions plan.now 16 }
{
    for p in &domain.partitions {
        if !ends_agree(domain, plan, u64::from(p.start), u64::from(p.size)) {
            return false;
        }
    }
    true
}

#[tactic(auto, using(crate::proofs::Table::scans))]
fn regions_agree(domain: MemDomain, plan: &[u32]) -> bool
    ensures { result ≡ regions_to domain.partitions plan.now (regions_of plan.now) }
{
    for k in 0..plan.len() / 2 {
        let base = base_of(rbar_at(plan, k));
        let size = size_of(rasr_at(plan, k));
        if !ends_agree(domain, plan, base, size) {
            return false;
        }
    }
    true
}

#[tactic(auto, unfolding(crate::specs::Edges::edges_agree))]
fn edges_agree(domain: MemDomain, plan: &[u32]) -> bool
    ensures { result ≡ edges_agree domain.partitions plan.now }
{
    edge_agrees(domain, plan, 0) && slots_agree(domain, plan) && regions_agree(domain, plan)
}

#[tactic(auto, unfolding(crate::specs::Mpu::place_ok))]
fn place_ok(rbar: u32, k: usize) -> bool
    requires { k < 16 }
    ensures { result ≡ place_ok rbar k }
{
    (rbar >> 4) % 2 == 1 && rbar % 16 == k as u32
}

#[tactic(auto, unfolding(crate::specs::Mpu::reserved_ok))]
fn reserved_ok(rasr: u32) -> bool
    ensures { result ≡ reserved_ok rasr }
{
    (rasr >> 29) % 8 == 0 && (rasr >> 27) % 2 == 0 && (rasr >> 22) % 4 == 0 && (rasr >> 6) % 4 == 0
}

#[tactic(auto, unfolding(crate::specs::Mpu::region_ok))]
fn region_ok(rbar: u32, rasr: u32, k: usize) -> bool
    requires { k < 16 }
    ensures { result ≡ region_ok rbar rasr k }
{
    place_ok(rbar, k)
        && reserved_ok(rasr)
        && (rasr >> 8) % 256 == 0
        && (rasr >> 24) % 8 != 4
        && 4 <= (rasr >> 1) % 32
        && base_of(rbar) % size_of(rasr) == 0
}

#[tactic(auto, using(crate::proofs::Table::scans), unfolding(crate::specs::Mpu::plan_ok))]
fn plan_ok(plan: &[u32]) -> bool
    ensures { result ≡ plan_ok plan.now }
{
    if plan.len() % 2 != 0 || plan.len() > MAX_WORDS {
        return false;
    }
    for k in 0..plan.len() / 2 {
        if !region_ok(rbar_at(plan, k), rasr_at(plan, k), k) {
            return false;
        }
    }
    true
}

// The checker: Ok exactly where the plan gives what the domain gives, at every address.
#[tactic(auto, using(crate::proofs::Plan::edges_same), unfolding(crate::specs::Mpu::verdict))]
pub fn check(domain: MemDomain, plan: &[u32]) -> Result<(), Code>
    ensures { result ≡ verdict domain plan.now }
{
    if !domain_rules::is_sound(domain) || !plan_ok(plan) {
        Err(Code::Value)
    } else if edges_agree(domain, plan) {
        Ok(())
    } else {
        Err(Code::Differs)
    }
}
