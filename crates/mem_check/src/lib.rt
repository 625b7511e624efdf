// The memory check: whether every byte of a range lies in a partition of a domain with the right asked for. It goes by windows, not by bytes: each scan
// of the sixteen slots jumps to the end of one window, and no window is jumped twice, so 17 scans are the most.
// Promised, for any table: the answer of the byte-by-byte definition (specs/Memory.antt), the first address that is not covered included.
#![tactic(auto)]

ghost use Rattle.std.specs.Prelude.{◌≡◌, ◌+◌, ◌*◌, ◌<◌, ◌≤◌, length};
ghost use Rattle.bits.specs.Bit.{is_set};
ghost use Rattle.tables.specs.Table.{partition_at, partitions_at};
ghost use Rattle.mem_check.specs.Memory.{covered_run, slots_in, memory_rule, right_bit};
ghost use Rattle.mem_check.specs.Windows.{run_in, Run, Ahead};

use answer::{Answer, Code};
use tables::SLOTS;

const WIDE_SLOTS: u64 = SLOTS as u64;

// The highest end of a range: the last address itself lies in none.
const LAST: u64 = 4294967295;

fn is_given(attr: u32, write: bool) -> bool
    ensures { result ≡ is_set attr (right_bit write) }
{
    if write {
        return attr & 2 != 0;
    }
    attr & 1 != 0
}

// How far x lies behind start; where it lies before, a number that no size reaches. So one comparison with the size tells whether a window holds x.
fn ahead_of(start: u32, x: u32) -> u64
    ensures { Ahead start x result }
{
    u64::from(x).wrapping_sub(u64::from(start))
}

// What slot n of the table covers from x on, 0 where it does not cover x. It lies within the table, so no index is tested.
fn run_in(slots: &[u32], n: usize, x: u32, write: bool) -> u32
    requires { 3 * n + 2 < length slots.now }
    ensures { result ≡ run_in (partition_at slots.now n) write x }
{
    let i = 3 * n;
    let start = slots[i];
    let size = slots[i + 1];
    if u64::from(size) <= ahead_of(start, x) {
        return 0;
    }
    if is_given(slots[i + 2], write) {
        return size - (x - start);
    }
    0
}

// One scan: the run of the first slot that covers x.
fn run_at(slots: &[u32], d: u32, x: u32, write: bool) -> u32
    requires { 3 * (16 * d + 16) ≤ length slots.now }
    ensures { Run (partitions_at slots.now d) write x result }
{
    let first = SLOTS * (d as usize);
    for k in 0..SLOTS {
        let n = run_in(slots, first + k, x, write);
        if 0 < n {
            return n;
        }
    }
    0
}

// How many of the len bytes are covered in a row. Each turn but the last leaves a window behind for good (it goes on from its end), so there are at
// most 17; that it ends needs no more than that `done` grows.
fn covered(slots: &[u32], d: u32, from: u32, len: u32, write: bool) -> u32
    requires { (from + len ≤ 4294967295) × (3 * (16 * d + 16) ≤ length slots.now) }
    ensures { result ≡ covered_run (partitions_at slots.now d) write from len }
{
    let mut done: u32 = 0;
    // a turn goes on by as many bytes as its scan has found: no range has these places
    while done < len {
        let n = run_at(slots, d, from + done, write);
        if n == 0 {
            return done;
        }
        if len - done <= n {
            return len;
        }
        done += n;
    }
    done
}

// A domain that the table does not hold whole covers nothing. The test is worked in 64 bits: behind it no place of the domain can wrap.
fn covered_in(slots: &[u32], d: u32, from: u32, len: u32, write: bool) -> u32
    requires { from + len ≤ 4294967295 }
    ensures { result ≡ covered_run (slots_in slots.now d) write from len }
{
    if (slots.len() as u64) < 3 * (WIDE_SLOTS * u64::from(d) + WIDE_SLOTS) {
        return 0;
    }
    covered(slots, d, from, len, write)
}

#[tactic(auto, unfolding(crate::specs::Memory::memory_rule, crate::specs::Memory::reached))]
pub fn memory_check(
    slots: &[u32],
    domain: u32,
    supervisor: bool,
    from: u32,
    len: u32,
    write: bool,
) -> Answer
    ensures { result ≡ memory_rule (slots_in slots.now domain) supervisor from len write }
{
    if len == 0 {
        return Code::Einval.into();
    }
    if LAST < u64::from(from) + u64::from(len) {
        return Code::Einval.into();
    }
    if supervisor {
        return Code::Ok.into();
    }
    let n = covered_in(slots, domain, from, len, write);
    if len <= n {
        return Code::Ok.into();
    }
    // The one refusal with a value: the first address that is not covered.
    Answer {
        code: answer::EPERM,
        value: from + n,
    }
}
