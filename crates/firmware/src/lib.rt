// What firmware links: the latch's functions over numbers and lent slices only. Each is total: any tables, any bytes, any words.
// The crate firmware_c exports each to C under its name. Promised: what the function below promises; a value comes back in a lent number.
// A domain is lent as 48 words, sixteen slots of start, size, attr; another number of words is VALUE before all else. include/wardlatch.h declares all.
#![tactic(auto)]

ghost use Rattle.std.specs.Prelude.{◌≡◌};
ghost use Rattle.answer.specs.Answer.{code_in, errno_in, errno_of};
ghost use Rattle.answer.specs.declared.Answer.{Answer};
ghost use Rattle.calls.specs.Calls.{Called, Ran, Run};
ghost use Rattle.image_write.specs.Encode.{Written};
ghost use Rattle.mem_partition.specs.Partition.{window_of, is_valid, overlap_of};
ghost use Rattle.mem_domain.specs.Domain.{added, removed, has_free, contains_addr};
ghost use Rattle.tables.specs.Table.{partition_of};
ghost use Rattle.mpu.specs.Mpu.{checked};
ghost use Rattle.userspace_c.specs.Exported.{Grants, Revokes, Recycles, Queries, may_use, valid_code};
ghost use Rattle.firmware.specs.Lent.{domain_in, lent, judged, said, slot_in, got_in, Changes, Plans, ReadsLeft};

use answer::{Answer, Code};
use image_write::NUMBERS;
use mem_domain::MemDomain;
use mem_partition::MemPartition;

// One call; returns the answer's number.
pub fn wardlatch_call(
    objects: &mut [u64],
    threads: &mut [u32],
    slots: &mut [u32],
    bytes: &[u8],
    value: &mut u32,
) -> u32
    ensures { Called objects.old threads.old slots.old bytes.now (record { code = result; value = value.new }) objects.new threads.new slots.new }
{
    let r = calls::call(objects, threads, slots, bytes);
    *value = r.value;
    r.code
}

// A log of calls; returns the answer's number, and in `answers` how many answers stand in `out`.
pub fn wardlatch_run(
    objects: &mut [u64],
    threads: &mut [u32],
    slots: &mut [u32],
    log: &[u8],
    out: &mut [u32],
    answers: &mut usize,
) -> u32
    ensures { Run objects.old threads.old slots.old log.now out.old (record { code = result; answers = answers.new }) objects.new threads.new slots.new out.new }
{
    match calls::run(objects, threads, slots, log, out) {
        Ok(count) => {
            *answers = count;
            answer::OK
        }
        Err(fault) => {
            *answers = 0;
            answer::number(fault)
        }
    }
}

// Reads an image into the tables; in `left` how many bytes lie behind it, 0 on a refusal.
pub fn wardlatch_read(
    image: &[u8],
    objects: &mut [u64],
    threads: &mut [u32],
    slots: &mut [u32],
    left: &mut usize,
) -> u32
    ensures { ReadsLeft image.now objects.old threads.old slots.old objects.new threads.new slots.new left.new result }
{
    match image::read(image, objects, threads, slots) {
        Ok(rest) => {
            *left = rest.len();
            answer::OK
        }
        Err(why) => {
            *left = 0;
            answer::number(why)
        }
    }
}

// Writes the tables as an image; in `written` its bytes.
pub fn wardlatch_write(
    objects: &[u64],
    threads: &[u32],
    slots: &[u32],
    out: &mut [u8],
    written: &mut u32,
) -> u32
    ensures { Written objects.now threads.now slots.now out.old out.new (record { code = result; value = written.new }) }
{
    let wrote = Answer::from(image_write::write(objects, threads, slots, out));
    *written = wrote.value;
    wrote.code
}

// The domain that 48 words are; VALUE for another number of words.
#[tactic(auto, unfolding(crate::specs::Lent::lent))]
fn domain_of(words: &[u32]) -> Result<MemDomain, Code>
    ensures { result ≡ lent words.now }
{
    if words.len() == NUMBERS {
        Ok(tables::load_domain(words, 0))
    } else {
        Err(Code::Value)
    }
}

// Plans a domain; in `words` how many words of `out` the plan has.
pub fn wardlatch_plan(domain: &[u32], regions: u32, out: &mut [u32], words: &mut u32) -> u32
    ensures { Plans domain.now regions out.old (record { code = result; value = words.new }) out.new }
{
    let Ok(record) = domain_of(domain) else {
        *words = 0;
        return answer::VALUE;
    };
    let made = Answer::from(planner::plan(record, regions, out));
    *words = made.value;
    made.code
}

// Checks any plan against a domain.
pub fn wardlatch_check(domain: &[u32], plan: &[u32]) -> u32
    ensures { result ≡ (judged domain.now (checked (domain_in domain.now) plan.now)).code }
{
    let Ok(record) = domain_of(domain) else {
        return answer::VALUE;
    };
    Answer::from(mpu::check(record, plan)).code
}

// What add and remove answer is stored where it is OK; a refusal leaves the words alone.
fn settle(domain: &mut [u32], answer: Result<u32, Code>, next: MemDomain, slot: &mut u32) -> u32
    ensures { Changes domain.old (record { answer = answer; domain = next }) (record { code = result; value = slot.new }) domain.new }
{
    if domain.len() != NUMBERS {
        *slot = 0;
        return answer::VALUE;
    }
    let told = Answer::from(answer);
    *slot = told.value;
    if told.code == answer::OK {
        tables::store_domain(domain, 0, next);
    }
    told.code
}

pub fn wardlatch_domain_add(
    domain: &mut [u32],
    start: u32,
    size: u32,
    attr: u32,
    slot: &mut u32,
) -> u32
    ensures { Changes domain.old (added (domain_in domain.old) (partition_of start size attr)) (record { code = result; value = slot.new }) domain.new }
{
    let mut next = tables::load_domain(domain, 0);
    let answer = next.add_partition(MemPartition { start, size, attr });
    settle(domain, answer, next, slot)
}

pub fn wardlatch_domain_remove(domain: &mut [u32], start: u32, size: u32, slot: &mut u32) -> u32
    ensures { Changes domain.old (removed (domain_in domain.old) start size) (record { code = result; value = slot.new }) domain.new }
{
    let mut next = tables::load_domain(domain, 0);
    let answer = next.remove_partition(start, size);
    settle(domain, answer, next, slot)
}

fn slot_of(domain: &[u32], index: u32) -> Result<MemPartition, Code>
    ensures { result ≡ slot_in domain.now index }
{
    domain_of(domain)?.partition_get(index)
}

// A refusal's three fields are zeros.
pub fn wardlatch_domain_get(
    domain: &[u32],
    index: u32,
    start: &mut u32,
    size: &mut u32,
    attr: &mut u32,
) -> u32
    ensures { record { code = result; start = start.new; size = size.new; attr = attr.new } ≡ got_in domain.now index }
{
    let got = slot_of(domain, index);
    let window = got.unwrap_or_default();
    *start = window.start;
    *size = window.size;
    *attr = window.attr;
    match got {
        Ok(_) => answer::OK,
        Err(refusal) => answer::number(refusal),
    }
}

pub fn wardlatch_domain_has_free(domain: &[u32], value: &mut u32) -> u32
    ensures { record { code = result; value = value.new } ≡ judged domain.now (said (has_free (domain_in domain.now).partitions)) }
{
    let Ok(record) = domain_of(domain) else {
        *value = 0;
        return answer::VALUE;
    };
    *value = u32::from(record.has_free_slot());
    answer::OK
}

pub fn wardlatch_domain_contains(domain: &[u32], addr: u32, value: &mut u32) -> u32
    ensures { record { code = result; value = value.new } ≡ judged domain.now (said (contains_addr (domain_in domain.now).partitions addr)) }
{
    let Ok(record) = domain_of(domain) else {
        *value = 0;
        return answer::VALUE;
    };
    *value = u32::from(record.contains_addr(addr));
    answer::OK
}

pub fn wardlatch_partition_valid(start: u32, size: u32) -> bool
    ensures { result ≡ is_valid (window_of start size) }
{
    mem_partition::partition_valid_decide(start, size)
}

pub fn wardlatch_partitions_overlap(
    start: u32,
    size: u32,
    other_start: u32,
    other_size: u32,
) -> bool
    ensures { result ≡ overlap_of (window_of start size) (window_of other_start other_size) }
{
    mem_partition::partitions_overlap_decide(start, size, other_start, other_size)
}

// The permission leaf, as userspace_c has it.
pub fn wardlatch_grant(word: &mut u64, tid: u32) -> u32
    ensures { Grants word.old tid result word.new }
{
    userspace_c::userspace_grant(word, tid)
}

pub fn wardlatch_revoke(word: &mut u64, tid: u32) -> u32
    ensures { Revokes word.old tid result word.new }
{
    userspace_c::userspace_revoke(word, tid)
}

pub fn wardlatch_recycle(flags: &mut u8, word: &mut u64, tid: u32) -> u32
    ensures { Recycles flags.old word.old tid result flags.new word.new }
{
    userspace_c::userspace_recycle(flags, word, tid)
}

pub fn wardlatch_has_perm(word: u64, tid: u32, value: &mut u32) -> u32
    ensures { Queries word tid result value.new }
{
    userspace_c::userspace_has_perm(word, tid, value)
}

pub fn wardlatch_check_access(flags: u8, word: u64, tid: u32, supervisor: bool) -> bool
    ensures { result ≡ may_use flags word tid supervisor }
{
    userspace_c::userspace_check_access(flags, word, tid, supervisor)
}

pub fn wardlatch_validate(
    kind: u8,
    flags: u8,
    word: u64,
    expected: u8,
    tid: u32,
    supervisor: bool,
    mode: i32,
) -> u32
    ensures { result ≡ valid_code kind flags word expected tid supervisor mode }
{
    userspace_c::userspace_validate(kind, flags, word, expected, tid, supervisor, mode)
}

// Upstream's number for an answer.
pub fn wardlatch_to_errno(answer: u32, value: &mut i32) -> u32
    ensures { (result ≡ code_in (errno_of answer)) × (value.new ≡ errno_in (errno_of answer)) }
{
    let errno = answer::to_errno(answer);
    *value = errno.unwrap_or(0);
    match errno {
        Ok(_) => answer::OK,
        Err(refusal) => answer::number(refusal),
    }
}
