// The latch: one call, or a log of them, on three lent tables. Whatever the tables, the bytes and the log are, there is an answer (docs/SPEC.md, 7).
// `call` and `run` are all that another crate can call: what judges a call and what applies it are private modules, and `call` and `run` come to them only
// once the state was found to keep the rules.
// Promised: `call` answers and leaves what judging/specs says; `run` is the fold of it, with the state judged once; a refusal changes nothing.
// Inside, a step has the rules as what it requires and as what it ensures again, so no call of a log can meet a state that breaks one.
#![tactic(auto)]

ghost use Rattle.std.specs.Prelude.{◌≡◌, ◌+◌, ◌*◌, ◌<◌, ◌≤◌, ◌^◌, length};
ghost use Rattle.tables.specs.State.{state_of};
ghost use Rattle.rules.specs.Rules.{Sound};
ghost use Rattle.decoding.specs.Calls.{named};
ghost use Rattle.judging.specs.Judge.{judge as judge·spec, heard};
ghost use Rattle.judging.specs.Change.{after, left};
ghost use Rattle.calls.specs.Calls.{Called, Ends, parts_in, part_at, put_answer};
ghost use Rattle.calls.specs.Steps.{Applied, Stepped, Told, Ranged};

use answer::{Answer, Code};
use decoding::{Call, Operation};

mod deciding;
mod enacting;
mod enacting_objects;

// How many bytes a call has.
const CALL: usize = 16;

// What an operation changes. The calls of every day, validate, grant, release and check, change objects alone: they end early.
#[tactic(auto, unfolding(applying::specs::Apply::enact_in, judging::specs::Change::thread_change, judging::specs::Change::domain_change))]
fn apply(objects: &mut [u64], threads: &mut [u32], slots: &mut [u32], operation: Operation, c: Call)
    ensures { Applied (named operation) c objects.old threads.old slots.old objects.new threads.new slots.new }
{
    enacting_objects::change_objects(objects, operation, c);
    match operation {
        Operation::Validate | Operation::Grant | Operation::Release | Operation::Check => {}
        _ => {
            enacting::change_threads(threads, operation, c);
            enacting::change_slots(slots, operation, c);
        }
    }
}

// One call, judged and, if it is answered OK, applied. Here and below the tables go as a parameter each: of a struct that holds three `&mut` each function
// would have to promise besides that each is still the same reference, and what lies behind it no shorter.
fn step(objects: &mut [u64], threads: &mut [u32], slots: &mut [u32], c: Call) -> Answer
    requires { Sound objects.old threads.old slots.old }
    ensures { Stepped (judge·spec (state_of objects.old threads.old slots.old) c) (after (state_of objects.old threads.old slots.old) c) result objects.new threads.new slots.new }
{
    let r = deciding::judge(objects, threads, slots, c);
    if r.code != answer::OK {
        return r;
    }
    if let Some(operation) = decoding::operation_of(c.op) {
        apply(objects, threads, slots, operation, c);
    }
    r
}

fn put_answer(out: &mut [u32], k: usize, a: Answer)
    requires { 2 * k + 1 < length out.old }
    ensures { out.new ≡ put_answer out.old k a }
{
    let i = 2 * k;
    out[i] = a.code;
    out[i + 1] = a.value;
}

// The k-th call of a log, its answer put in its place. By number: of iterators over sixteen bytes and two numbers each, a proof would have to say where they
// stand, in the log's length and the buffer's.
fn turn(
    objects: &mut [u64],
    threads: &mut [u32],
    slots: &mut [u32],
    log: &[u8],
    k: usize,
    out: &mut [u32],
)
    requires { Sound objects.old threads.old slots.old × ((16 * k + 16 ≤ length log.now) × (2 * k + 1 < length out.old)) }
    ensures { Told (state_of objects.old threads.old slots.old) (part_at log.now k) k out.old objects.new threads.new slots.new out.new }
{
    let from = CALL * k;
    let c = decoding::decode(&log[from..from + CALL]);
    let a = step(objects, threads, slots, c);
    put_answer(out, k, a);
}

// The first n calls of a log.
fn run_whole(
    objects: &mut [u64],
    threads: &mut [u32],
    slots: &mut [u32],
    log: &[u8],
    n: usize,
    out: &mut [u32],
)
    requires { Sound objects.old threads.old slots.old × ((16 * n ≤ length log.now) × (2 * n ≤ length out.old)) }
    ensures { Ranged (state_of objects.old threads.old slots.old) log.now out.old n objects.new threads.new slots.new out.new }
{
    for k in 0..n {
        turn(objects, threads, slots, log, k, out);
    }
}

// Bytes as they come: fewer than sixteen are SHORT, more EINVAL. Sixteen are a log of one call, so that the loop above is the only place that steps, and is
// compiled as one piece.
fn hear(objects: &mut [u64], threads: &mut [u32], slots: &mut [u32], bytes: &[u8]) -> Answer
    requires { Sound objects.old threads.old slots.old }
    ensures { Stepped (heard (state_of objects.old threads.old slots.old) bytes.now) (left (state_of objects.old threads.old slots.old) bytes.now) result objects.new threads.new slots.new }
{
    if bytes.len() < CALL {
        return Code::Short.into();
    }
    if CALL < bytes.len() {
        return Code::Einval.into();
    }
    let mut out = [0u32; 2];
    run_whole(objects, threads, slots, bytes, 1, &mut out);
    Answer {
        code: out[0],
        value: out[1],
    }
}

// One call: any tables, any bytes. A state that breaks a rule is VALUE before all else. An `Answer` and no Result: a refused memory check has a value (SPEC 7.45).
pub fn call(objects: &mut [u64], threads: &mut [u32], slots: &mut [u32], bytes: &[u8]) -> Answer
    ensures { Called objects.old threads.old slots.old bytes.now result objects.new threads.new slots.new }
{
    if rules::keeps(objects, threads, slots) {
        hear(objects, threads, slots, bytes)
    } else {
        Code::Value.into()
    }
}

// How many parts a log of n bytes has: the last may be short.
fn parts_in(n: usize) -> usize
    ensures { (result ≡ parts_in n) × (result < 2 ^ 61) }
{
    n.div_ceil(CALL)
}

// Every part of a log: a last one under sixteen bytes is SHORT, and changes nothing.
fn run_parts(
    objects: &mut [u64],
    threads: &mut [u32],
    slots: &mut [u32],
    log: &[u8],
    out: &mut [u32],
)
    requires { Sound objects.old threads.old slots.old × (2 * parts_in (length log.now) ≤ length out.old) }
    ensures { Ranged (state_of objects.old threads.old slots.old) log.now out.old (parts_in (length log.now)) objects.new threads.new slots.new out.new }
{
    let n = log.len() / CALL;
    run_whole(objects, threads, slots, log, n, out);
    if log.len() % CALL != 0 {
        put_answer(out, n, Code::Short.into());
    }
}

// A whole log: the state is judged once; how many answers were written. `out` takes code and value of each answer; what lies behind them stays.
pub fn run(
    objects: &mut [u64],
    threads: &mut [u32],
    slots: &mut [u32],
    log: &[u8],
    out: &mut [u32],
) -> Result<usize, Code>
    ensures { Ends objects.old threads.old slots.old log.now out.old result objects.new threads.new slots.new out.new }
{
    if !rules::keeps(objects, threads, slots) {
        return Err(Code::Value);
    }
    let n = parts_in(log.len());
    if out.len() < 2 * n {
        return Err(Code::Room);
    }
    run_parts(objects, threads, slots, log, out);
    Ok(n)
}
