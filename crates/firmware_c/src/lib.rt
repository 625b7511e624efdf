// The archive that firmware links: each function of the crate firmware under its own name and with its own clauses, with C's calling convention.
// A slice is a pointer and a number of elements behind it. Nothing is decided here: tools/audit, rule 7, holds each to be the call of the library's
// function of that name. include/wardlatch.h declares all.
#![tactic(auto)]

ghost use Rattle.std.specs.Prelude.{◌≡◌};
ghost use Rattle.answer.specs.Answer.{code_in, errno_in, errno_of};
ghost use Rattle.calls.specs.Calls.{Called, Run};
ghost use Rattle.image_write.specs.Encode.{Written};
ghost use Rattle.mem_partition.specs.Partition.{window_of, is_valid, overlap_of};
ghost use Rattle.mem_domain.specs.Domain.{added, removed, has_free, contains_addr};
ghost use Rattle.tables.specs.Table.{partition_of};
ghost use Rattle.mpu.specs.Mpu.{checked};
ghost use Rattle.userspace_c.specs.Exported.{Grants, Revokes, Recycles, Queries, may_use, valid_code};
ghost use Rattle.firmware.specs.Lent.{domain_in, judged, said, got_in, Changes, Plans, ReadsLeft};

#[unsafe(no_mangle)]
pub extern "C" fn wardlatch_call(
    objects: &mut [u64],
    threads: &mut [u32],
    slots: &mut [u32],
    bytes: &[u8],
    value: &mut u32,
) -> u32
    ensures { Called objects.old threads.old slots.old bytes.now (record { code = result; value = value.new }) objects.new threads.new slots.new }
{
    firmware::wardlatch_call(objects, threads, slots, bytes, value)
}

#[unsafe(no_mangle)]
pub extern "C" fn wardlatch_run(
    objects: &mut [u64],
    threads: &mut [u32],
    slots: &mut [u32],
    log: &[u8],
    out: &mut [u32],
    answers: &mut usize,
) -> u32
    ensures { Run objects.old threads.old slots.old log.now out.old (record { code = result; answers = answers.new }) objects.new threads.new slots.new out.new }
{
    firmware::wardlatch_run(objects, threads, slots, log, out, answers)
}

#[unsafe(no_mangle)]
pub extern "C" fn wardlatch_read(
    image: &[u8],
    objects: &mut [u64],
    threads: &mut [u32],
    slots: &mut [u32],
    left: &mut usize,
) -> u32
    ensures { ReadsLeft image.now objects.old threads.old slots.old objects.new threads.new slots.new left.new result }
{
    firmware::wardlatch_read(image, objects, threads, slots, left)
}

#[unsafe(no_mangle)]
pub extern "C" fn wardlatch_write(
    objects: &[u64],
    threads: &[u32],
    slots: &[u32],
    out: &mut [u8],
    written: &mut u32,
) -> u32
    ensures { Written objects.now threads.now slots.now out.old out.new (record { code = result; value = written.new }) }
{
    firmware::wardlatch_write(objects, threads, slots, out, written)
}

#[unsafe(no_mangle)]
pub extern "C" fn wardlatch_plan(
    domain: &[u32],
    regions: u32,
    out: &mut [u32],
    words: &mut u32,
) -> u32
    ensures { Plans domain.now regions out.old (record { code = result; value = words.new }) out.new }
{
    firmware::wardlatch_plan(domain, regions, out, words)
}

#[unsafe(no_mangle)]
pub extern "C" fn wardlatch_check(domain: &[u32], plan: &[u32]) -> u32
    ensures { result ≡ (judged domain.now (checked (domain_in domain.now) plan.now)).code }
{
    firmware::wardlatch_check(domain, plan)
}

#[unsafe(no_mangle)]
pub extern "C" fn wardlatch_domain_add(
    domain: &mut [u32],
    start: u32,
    size: u32,
    attr: u32,
    slot: &mut u32,
) -> u32
    ensures { Changes domain.old (added (domain_in domain.old) (partition_of start size attr)) (record { code = result; value = slot.new }) domain.new }
{
    firmware::wardlatch_domain_add(domain, start, size, attr, slot)
}

#[unsafe(no_mangle)]
pub extern "C" fn wardlatch_domain_remove(
    domain: &mut [u32],
    start: u32,
    size: u32,
    slot: &mut u32,
) -> u32
    ensures { Changes domain.old (removed (domain_in domain.old) start size) (record { code = result; value = slot.new }) domain.new }
{
    firmware::wardlatch_domain_remove(domain, start, size, slot)
}

#[unsafe(no_mangle)]
pub extern "C" fn wardlatch_domain_get(
    domain: &[u32],
    index: u32,
    start: &mut u32,
    size: &mut u32,
    attr: &mut u32,
) -> u32
    ensures { record { code = result; start = start.new; size = size.new; attr = attr.new } ≡ got_in domain.now index }
{
    firmware::wardlatch_domain_get(domain, index, start, size, attr)
}

#[unsafe(no_mangle)]
pub extern "C" fn wardlatch_domain_has_free(domain: &[u32], value: &mut u32) -> u32
    ensures { record { code = result; value = value.new } ≡ judged domain.now (said (has_free (domain_in domain.now).partitions)) }
{
    firmware::wardlatch_domain_has_free(domain, value)
}

#[unsafe(no_mangle)]
pub extern "C" fn wardlatch_domain_contains(domain: &[u32], addr: u32, value: &mut u32) -> u32
    ensures { record { code = result; value = value.new } ≡ judged domain.now (said (contains_addr (domain_in domain.now).partitions addr)) }
{
    firmware::wardlatch_domain_contains(domain, addr, value)
}

#[unsafe(no_mangle)]
pub extern "C" fn wardlatch_partition_valid(start: u32, size: u32) -> bool
    ensures { result ≡ is_valid (window_of start size) }
{
    firmware::wardlatch_partition_valid(start, size)
}

#[unsafe(no_mangle)]
pub extern "C" fn wardlatch_partitions_overlap(
    start: u32,
    size: u32,
    other_start: u32,
    other_size: u32,
) -> bool
    ensures { result ≡ overlap_of (window_of start size) (window_of other_start other_size) }
{
    firmware::wardlatch_partitions_overlap(start, size, other_start, other_size)
}

#[unsafe(no_mangle)]
pub extern "C" fn wardlatch_grant(word: &mut u64, tid: u32) -> u32
    ensures { Grants word.old tid result word.new }
{
    firmware::wardlatch_grant(word, tid)
}

#[unsafe(no_mangle)]
pub extern "C" fn wardlatch_revoke(word: &mut u64, tid: u32) -> u32
    ensures { Revokes word.old tid result word.new }
{
    firmware::wardlatch_revoke(word, tid)
}

#[unsafe(no_mangle)]
pub extern "C" fn wardlatch_recycle(flags: &mut u8, word: &mut u64, tid: u32) -> u32
    ensures { Recycles flags.old word.old tid result flags.new word.new }
{
    firmware::wardlatch_recycle(flags, word, tid)
}

#[unsafe(no_mangle)]
pub extern "C" fn wardlatch_has_perm(word: u64, tid: u32, value: &mut u32) -> u32
    ensures { Queries word tid result value.new }
{
    firmware::wardlatch_has_perm(word, tid, value)
}

#[unsafe(no_mangle)]
pub extern "C" fn wardlatch_check_access(flags: u8, word: u64, tid: u32, supervisor: bool) -> bool
    ensures { result ≡ may_use flags word tid supervisor }
{
    firmware::wardlatch_check_access(flags, word, tid, supervisor)
}

#[unsafe(no_mangle)]
pub extern "C" fn wardlatch_validate(
    kind: u8,
    flags: u8,
    word: u64,
    expected: u8,
    tid: u32,
    supervisor: bool,
    mode: i32,
) -> u32
    ensures { result ≡ valid_code kind flags word expected tid supervisor mode }
{
    firmware::wardlatch_validate(kind, flags, word, expected, tid, supervisor, mode)
}

#[unsafe(no_mangle)]
pub extern "C" fn wardlatch_to_errno(answer: u32, value: &mut i32) -> u32
    ensures { (result ≡ code_in (errno_of answer)) × (value.new ≡ errno_in (errno_of answer)) }
{
    firmware::wardlatch_to_errno(answer, value)
}
