// Judging a call: the answer that docs/SPEC.md, 7, has for it in a state. Nothing is changed here.
// Promised, for any tables and any call: the answer of the order in judging/specs/Judge.antt; VALUE for tables of other lengths than a state's.
// An answer is no Result: where the memory check refuses, it has a value, the address (judging/specs/Judge.antt, `rule`).
// Calls that are open to all come first: they are what a pump does all day.
#![tactic(auto, using(judging::proofs::Order::refuses_by), unfolding(judging::specs::Judge::judge_op, judging::specs::Judge::well_formed, judging::specs::Judge::use_of, judging::specs::Judge::with_handle, judging::specs::Judge::taken_in, judging::specs::Judge::rule, judging::specs::Judge::sup_rule, tables::specs::State::object, tables::specs::State::thread, tables::specs::State::domain))]

ghost use Rattle.std.specs.Prelude.{◌≡◌, true, ◌&&◌, ◌||◌, not, ◌<◌, ◌≤◌, eqb, ltb, leb, get_or, length};
ghost use Rattle.mem_domain.specs.Domain.{with_count};
ghost use Rattle.tables.specs.State.{object, thread, domain};
ghost use Rattle.rules.specs.Rules.{is_live, is_supervisor};
ghost use Rattle.decoding.specs.Calls.{named, validate as validate·op, grant as grant·op, release as release·op, check as check·op, exit as exit·op, sup, create as create·op, delete as delete·op, revoke as revoke·op, init as init·op, thread as thread·op, end as end·op, inherit as inherit·op, assign as assign·op, add as add·op, remove as remove·op};
ghost use Rattle.judging.specs.Judge.{is_mode, mode_of, well_formed, live, supervisor, serves_at, serves, may_use, rule, judge_op, judge as judge·spec, judge_in, taken_in, is_privileged, bare_fields, thread_fields};
ghost use Rattle.calls.specs.Seen.{seen};

use answer::{Answer, Code};
use decoding::{Call, Operation};
use mem_domain::MemDomain;
use mem_partition::MemPartition;
use tables::{DOMAINS, HANDLES, OBJECT_NUMBERS, SLOT_NUMBERS, THREAD_NUMBERS, THREADS, Thread};
use userspace::KernelObject;
use userspace_names::InitCheck;

// The three tables of a state, each as long as a state's.
#[derive(Clone, Copy)]
pub struct Tables<'a> {
    pub objects: &'a [u64; OBJECT_NUMBERS],
    pub threads: &'a [u32; THREAD_NUMBERS],
    pub slots: &'a [u32; SLOT_NUMBERS],
}

impl Tables<'_> {
    #[tactic(auto, using(tables::specs::State::object_of_lem), unfolding(tables::specs::State::object))]
    fn object(self, h: u32) -> KernelObject
        ensures { result ≡ object (seen self.entry) h }
    {
        let objects = self.objects;
        object_table::load_object(objects, h)
    }

    #[tactic(auto, using(tables::specs::State::thread_of_lem), unfolding(tables::specs::State::thread))]
    fn thread(self, t: u32) -> Thread
        ensures { result ≡ thread (seen self.entry) t }
    {
        let threads = self.threads;
        tables::load_thread(threads, t)
    }

    #[tactic(auto, using(tables::specs::State::domain_of_lem), unfolding(tables::specs::State::domain))]
    fn domain(self, d: u32) -> MemDomain
        requires { d < 8 }
        ensures { result ≡ with_count (domain (seen self.entry) d) }
    {
        let slots = self.slots;
        tables::load_domain(slots, d)
    }

    fn is_live(self, t: u32) -> bool
        ensures { result ≡ live (seen self.entry) t }
    {
        self.thread(t).role != 0
    }

    fn is_supervisor(self, t: u32) -> bool
        ensures { result ≡ supervisor (seen self.entry) t }
    {
        self.thread(t).role == 2
    }

    fn may_use(self, t: u32, h: u32) -> bool
        ensures { result ≡ may_use (seen self.entry) t h }
    {
        self.object(h).check_access(t, self.is_supervisor(t))
    }

    fn is_taken(self, h: u32) -> bool
        ensures { result ≡ taken_in (seen self.entry).objects h }
    {
        h < HANDLES && self.object(h).obj_type != 0
    }

    // Whether thread t lives and has object h as its handle.
    fn is_serving(self, t: u32, h: u32) -> bool
        ensures { result ≡ serves_at (seen self.entry) h t }
    {
        let who = self.thread(t);
        who.role != 0 && who.handle == h
    }

    // Whether object h serves a live thread.
    fn serves(self, h: u32) -> bool
        ensures { result ≡ serves (seen self.entry) h }
    {
        for t in 0..THREADS {
            if self.is_serving(t, h) {
                return true;
            }
        }
        false
    }
}

// ---- fields

// Fields c and d unused.
fn no_more(c: Call) -> bool
    ensures { result ≡ eqb c.c 0 && eqb c.d 0 }
{
    c.c == 0 && c.d == 0
}

// A handle and nothing else.
fn bare_fields(c: Call) -> bool
    ensures { result ≡ bare_fields c }
{
    c.b == 0 && no_more(c)
}

// A handle and a thread.
fn thread_fields(c: Call) -> bool
    ensures { result ≡ thread_fields c }
{
    c.b < THREADS && no_more(c)
}

fn is_mode(n: u32) -> bool
    ensures { result ≡ is_mode n }
{
    n == 0 || n == 1 || n == 4294967295
}

fn mode_of(n: u32) -> InitCheck
    ensures { result ≡ mode_of n }
{
    match n {
        0 => InitCheck::MustBeInit,
        1 => InitCheck::DontCare,
        _ => InitCheck::MustNotBeInit,
    }
}

// A handle, a thread and a rank.
fn new_thread_fields(c: Call) -> bool
    ensures { result ≡ well_formed (sup thread·op) c }
{
    c.b < THREADS && c.c < 2 && c.d == 0
}

// As `rules` asks it of a state's threads, inside: made public there it were one more promise, with edits of its own, for one line.
fn is_home(d: u32) -> bool
    ensures { result ≡ ltb d 8 || eqb d 255 }
{
    d < DOMAINS || d == 255
}

// ---- the calls that are open to all

// A type that was found below 16 is stored in a byte: the cast loses nothing.
fn validate_rule(t: Tables, c: Call) -> Answer
    requires { c.b < 16 }
    ensures { result ≡ rule validate·op (seen t.entry) c }
{
    let supervisor = t.is_supervisor(c.caller);
    let found = t
        .object(c.a)
        .validate(c.b as u8, c.caller, supervisor, mode_of(c.c));
    found.into()
}

fn validate(t: Tables, c: Call) -> Answer
    ensures { result ≡ judge_op validate·op (seen t.entry) c }
{
    if !(c.b < 16 && is_mode(c.c) && c.d == 0) {
        return Code::Einval.into();
    }
    if !t.is_taken(c.a) {
        return Code::Ebadf.into();
    }
    validate_rule(t, c)
}

fn grant_rule(t: Tables, c: Call) -> Answer
    ensures { result ≡ rule grant·op (seen t.entry) c }
{
    if !t.may_use(c.caller, c.a) {
        return Code::Eperm.into();
    }
    let target = t.thread(c.b);
    if target.role == 0 {
        return Code::Einval.into();
    }
    if !t.may_use(c.caller, target.handle) {
        return Code::Eperm.into();
    }
    Code::Ok.into()
}

fn grant(t: Tables, c: Call) -> Answer
    ensures { result ≡ judge_op grant·op (seen t.entry) c }
{
    if !thread_fields(c) {
        return Code::Einval.into();
    }
    if !t.is_taken(c.a) {
        return Code::Ebadf.into();
    }
    grant_rule(t, c)
}

fn release(t: Tables, c: Call) -> Answer
    ensures { result ≡ judge_op release·op (seen t.entry) c }
{
    if !bare_fields(c) {
        return Code::Einval.into();
    }
    if !t.is_taken(c.a) {
        return Code::Ebadf.into();
    }
    if !t.may_use(c.caller, c.a) {
        return Code::Eperm.into();
    }
    Code::Ok.into()
}

#[tactic(auto, using(judging::proofs::Order::refuses_by, mem_check::proofs::Memory::slots_in_lem), unfolding(judging::specs::Judge::judge_op, judging::specs::Judge::well_formed, judging::specs::Judge::use_of, judging::specs::Judge::with_handle, judging::specs::Judge::rule, tables::specs::State::thread, tables::specs::State::domain))]
fn check(t: Tables, c: Call) -> Answer
    ensures { result ≡ judge_op check·op (seen t.entry) c }
{
    if c.a != 0 || 1 < c.d {
        return Code::Einval.into();
    }
    let slots = t.slots;
    let me = t.thread(c.caller);
    mem_check::memory_check(slots, me.domain, me.role == 2, c.b, c.c, c.d == 1)
}

fn exit(t: Tables, c: Call) -> Answer
    ensures { result ≡ judge_op exit·op (seen t.entry) c }
{
    if c.a != 0 || !bare_fields(c) {
        return Code::Einval.into();
    }
    Code::Ok.into()
}

// ---- the calls of supervisors that name a handle

fn create(t: Tables, c: Call) -> Answer
    ensures { result ≡ judge_op (sup create·op) (seen t.entry) c }
{
    if c.b == 0 || 15 < c.b || !no_more(c) {
        return Code::Einval.into();
    }
    if HANDLES <= c.a {
        return Code::Ebadf.into();
    }
    if t.object(c.a).obj_type != 0 {
        return Code::Eaddrinuse.into();
    }
    Code::Ok.into()
}

fn delete(t: Tables, c: Call) -> Answer
    ensures { result ≡ judge_op (sup delete·op) (seen t.entry) c }
{
    if !bare_fields(c) {
        return Code::Einval.into();
    }
    if !t.is_taken(c.a) {
        return Code::Ebadf.into();
    }
    if t.serves(c.a) {
        return Code::Eaddrinuse.into();
    }
    Code::Ok.into()
}

fn revoke(t: Tables, c: Call) -> Answer
    ensures { result ≡ judge_op (sup revoke·op) (seen t.entry) c }
{
    if !thread_fields(c) {
        return Code::Einval.into();
    }
    if !t.is_taken(c.a) {
        return Code::Ebadf.into();
    }
    if !t.is_live(c.b) {
        return Code::Einval.into();
    }
    Code::Ok.into()
}

// Init, uninit, recycle and make public: a taken handle is all that they want.
fn bare(t: Tables, c: Call) -> Answer
    ensures { result ≡ judge_op (sup init·op) (seen t.entry) c }
{
    if !bare_fields(c) {
        return Code::Einval.into();
    }
    if !t.is_taken(c.a) {
        return Code::Ebadf.into();
    }
    Code::Ok.into()
}

fn create_thread_rule(t: Tables, c: Call) -> Answer
    ensures { result ≡ rule (sup thread·op) (seen t.entry) c }
{
    if t.is_live(c.b) {
        return Code::Eaddrinuse.into();
    }
    if t.object(c.a).obj_type != 1 {
        return Code::Ebadf.into();
    }
    if t.serves(c.a) {
        return Code::Eaddrinuse.into();
    }
    Code::Ok.into()
}

fn create_thread(t: Tables, c: Call) -> Answer
    ensures { result ≡ judge_op (sup thread·op) (seen t.entry) c }
{
    if !new_thread_fields(c) {
        return Code::Einval.into();
    }
    if !t.is_taken(c.a) {
        return Code::Ebadf.into();
    }
    create_thread_rule(t, c)
}

// ---- the calls of supervisors on threads and domains

fn end(t: Tables, c: Call) -> Answer
    ensures { result ≡ judge_op (sup end·op) (seen t.entry) c }
{
    if c.a != 0 || !thread_fields(c) {
        return Code::Einval.into();
    }
    if !t.is_live(c.b) {
        return Code::Einval.into();
    }
    Code::Ok.into()
}

fn inherit(t: Tables, c: Call) -> Answer
    ensures { result ≡ judge_op (sup inherit·op) (seen t.entry) c }
{
    if c.a != 0 || THREADS <= c.b || THREADS <= c.c || c.d != 0 {
        return Code::Einval.into();
    }
    if !t.is_live(c.b) || !t.is_live(c.c) {
        return Code::Einval.into();
    }
    Code::Ok.into()
}

fn assign(t: Tables, c: Call) -> Answer
    ensures { result ≡ judge_op (sup assign·op) (seen t.entry) c }
{
    if c.a != 0 || THREADS <= c.b || !is_home(c.c) || c.d != 0 {
        return Code::Einval.into();
    }
    if !t.is_live(c.b) {
        return Code::Einval.into();
    }
    Code::Ok.into()
}

fn add(t: Tables, c: Call) -> Answer
    ensures { result ≡ judge_op (sup add·op) (seen t.entry) c }
{
    if DOMAINS <= c.a || !domain_rules::attr_ok(c.d) {
        return Code::Einval.into();
    }
    let p = MemPartition {
        start: c.b,
        size: c.c,
        attr: c.d,
    };
    t.domain(c.a).add_partition(p).into()
}

fn remove(t: Tables, c: Call) -> Answer
    ensures { result ≡ judge_op (sup remove·op) (seen t.entry) c }
{
    if DOMAINS <= c.a || c.d != 0 {
        return Code::Einval.into();
    }
    t.domain(c.a).remove_partition(c.b, c.c).into()
}

// ---- the order

#[tactic(auto, unfolding(judging::specs::Judge::is_privileged))]
fn is_privileged(operation: Operation) -> bool
    ensures { result ≡ is_privileged (named operation) }
{
    match operation {
        Operation::Validate => false,
        Operation::Grant => false,
        Operation::Release => false,
        Operation::Check => false,
        Operation::Exit => false,
        _ => true,
    }
}

// Fields, handle and rule.
#[tactic(auto, unfolding(judging::specs::Judge::judge_op, judging::specs::Judge::well_formed, judging::specs::Judge::use_of, judging::specs::Judge::rule, judging::specs::Judge::sup_rule))]
fn judge_operation(t: Tables, operation: Operation, c: Call) -> Answer
    ensures { result ≡ judge_op (named operation) (seen t.entry) c }
{
    match operation {
        Operation::Validate => validate(t, c),
        Operation::Grant => grant(t, c),
        Operation::Check => check(t, c),
        Operation::Release => release(t, c),
        Operation::Exit => exit(t, c),
        Operation::Create => create(t, c),
        Operation::Delete => delete(t, c),
        Operation::Revoke => revoke(t, c),
        Operation::Init => bare(t, c),
        Operation::Uninit => bare(t, c),
        Operation::Recycle => bare(t, c),
        Operation::MakePublic => bare(t, c),
        Operation::CreateThread => create_thread(t, c),
        Operation::End => end(t, c),
        Operation::Inherit => inherit(t, c),
        Operation::Assign => assign(t, c),
        Operation::Add => add(t, c),
        Operation::Remove => remove(t, c),
    }
}

fn judge_state(t: Tables, c: Call) -> Answer
    ensures { result ≡ judge·spec (seen t.entry) c }
{
    if THREADS <= c.caller {
        return Code::Einval.into();
    }
    let me = t.thread(c.caller);
    if me.role == 0 {
        return Code::Eperm.into();
    }
    let Some(operation) = decoding::operation_of(c.op) else {
        return Code::Einval.into();
    };
    if is_privileged(operation) && me.role != 2 {
        return Code::Eperm.into();
    }
    judge_operation(t, operation, c)
}

// The answer to a call: of tables with any content and any lengths. Whether the state keeps the rules is not asked here: `call` and `run` have asked it.
pub fn judge(objects: &[u64], threads: &[u32], slots: &[u32], c: Call) -> Answer
    ensures { result ≡ judge_in objects.now threads.now slots.now c }
{
    let Ok(objects) = objects.try_into() else {
        return Code::Value.into();
    };
    let Ok(threads) = threads.try_into() else {
        return Code::Value.into();
    };
    let Ok(slots) = slots.try_into() else {
        return Code::Value.into();
    };
    let state = Tables {
        objects,
        threads,
        slots,
    };
    judge_state(state, c)
}
