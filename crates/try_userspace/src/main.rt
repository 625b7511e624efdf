// Runs a stored list of cases over the permission leaf and prints each answer. The list stands in `stdin`, sixteen bytes to a case:
// a number of `step`, three bytes a, b, c, a thread or number n, and a word w, little-endian. tests/userspace/cases.py makes it, and works
// out `stdout` by a model that keeps a list of 64 yes or no, as upstream does.
#![tactic(auto)]

use answer::{Answer, Code};
use std::fmt::Display;
use std::io;
use userspace::KernelObject;
use userspace_names::InitCheck;

// How many bytes a case has.
const CASE: usize = 16;

fn main(rt: HostRuntime) -> io::Result<()> {
    let mut cases = [0u8; 65536];
    let n = reading::read_full(&mut rt.stdin(), &mut cases)?;
    let mut o = KernelObject::new(0);
    for case in cases.chunks_exact(CASE).take(n.div_ceil(CASE)) {
        step(&rt, &mut o, case)?;
    }
    Ok(())
}

// One case. Step 0 puts the record itself, so that any record can be tried, unsound ones too.
fn step(rt: &impl Print, o: &mut KernelObject, case: &[u8]) -> io::Result<()> {
    let [op, a, b, c, ..] = case else {
        return Ok(());
    };
    let n = number(case, 4);
    match *op {
        0..=9 => changes(rt, o, *op, *a, *b, n, wide(case, 8)),
        10 => asks(rt, *o, n, *a == 1),
        11 => validates(rt, *o, *a, n, *b == 1, *c),
        12 => decides(rt, *a, *b, *c),
        13 => names(rt, n, *c),
        14 => constants(rt),
        _ => word(rt, "?\n"),
    }
}

fn changes(
    rt: &impl Print,
    o: &mut KernelObject,
    op: u8,
    a: u8,
    b: u8,
    n: u32,
    w: u64,
) -> io::Result<()> {
    // Steps are the numbers that the case file has: this is the one place that reads them.
    match op {
        0 => {
            *o = KernelObject {
                obj_type: a,
                flags: b,
                word: w,
            };
            return Ok(());
        }
        1 => {
            *o = KernelObject::new(a);
            word(rt, "new ")?;
        }
        2 => answered(rt, "grant ", o.grant_access(n))?,
        3 => answered(rt, "revoke ", o.revoke_access(n))?,
        4 => answered(rt, "clear-thread ", o.clear_thread_perm(n))?,
        5 => {
            o.clear_all_perms();
            word(rt, "clear-all ")?;
        }
        6 => {
            o.init_object();
            word(rt, "init ")?;
        }
        7 => {
            o.uninit_object();
            word(rt, "uninit ")?;
        }
        8 => answered(rt, "recycle ", o.recycle(n))?,
        _ => {
            o.make_public();
            word(rt, "make-public ")?;
        }
    }
    became(rt, *o)
}

// The answer's number and value.
fn answered(rt: &impl Print, name: &str, r: Result<(), Code>) -> io::Result<()> {
    word(rt, name)?;
    let told = Answer::from(r);
    figure(rt, told.code)?;
    figure(rt, told.value)
}

// The record after.
fn became(rt: &impl Print, o: KernelObject) -> io::Result<()> {
    figure(rt, o.obj_type)?;
    figure(rt, o.flags)?;
    rt.print(o.word)?;
    word(rt, "\n")
}

// Every question that a record answers.
fn asks(rt: &impl Print, o: KernelObject, n: u32, supervisor: bool) -> io::Result<()> {
    word(rt, "ask ")?;
    truth(rt, o.check_access(n, supervisor))?;
    truth(rt, o.is_initialized())?;
    truth(rt, o.is_public())?;
    truth(rt, o.is_alloc())?;
    truth(rt, o.is_driver())?;
    let told = Answer::from(o.has_perm(n).map(|held| u32::from(held)));
    figure(rt, told.code)?;
    figure(rt, told.value)?;
    figure(rt, o.obj_type_get())?;
    word(rt, "\n")
}

fn validates(
    rt: &impl Print,
    o: KernelObject,
    a: u8,
    n: u32,
    supervisor: bool,
    c: u8,
) -> io::Result<()> {
    let check = match c {
        0 => InitCheck::MustBeInit,
        1 => InitCheck::MustNotBeInit,
        _ => InitCheck::DontCare,
    };
    word(rt, "validate ")?;
    verdict(rt, o.validate(a, n, supervisor, check))?;
    word(rt, "\n")
}

// The free functions: bits 0 to 2 of a are the yes or no, b the flags, c the mode.
fn decides(rt: &impl Print, a: u8, b: u8, c: u8) -> io::Result<()> {
    word(rt, "decide ")?;
    let x = a & 1 != 0;
    let y = a & 2 != 0;
    let z = a & 4 != 0;
    truth(rt, userspace_decide::access_decide(x, y))?;
    verdict(rt, userspace_decide::validate_decide(x, y, z, mode(c)))?;
    figure(rt, userspace_decide::init_flags_decide(b))?;
    figure(rt, userspace_decide::uninit_flags_decide(b))?;
    figure(rt, userspace_decide::recycle_flags_decide(b))?;
    figure(rt, userspace_decide::make_public_flags_decide(b))?;
    word(rt, "\n")
}

// The number of the type that n names, and of the mode that c stands for.
fn names(rt: &impl Print, n: u32, c: u8) -> io::Result<()> {
    word(rt, "name ")?;
    match userspace_names::obj_type_of(n) {
        Some(t) => figure(rt, userspace_names::obj_type_number(t))?,
        None => word(rt, "- ")?,
    }
    match userspace_names::init_check_of(wide_mode(c)) {
        Some(k) => rt.print(userspace_names::init_check_number(k))?,
        None => word(rt, "-")?,
    }
    word(rt, "\n")
}

fn constants(rt: &impl Print) -> io::Result<()> {
    word(rt, "constants ")?;
    figure(rt, KernelObject::INITIALIZED)?;
    figure(rt, KernelObject::PUBLIC)?;
    figure(rt, KernelObject::ALLOC)?;
    figure(rt, KernelObject::DRIVER)?;
    figure(rt, userspace::MAX_THREADS)?;
    word(rt, "\n")
}

fn verdict(rt: &impl Print, v: Result<(), Code>) -> io::Result<()> {
    match v {
        Ok(()) => word(rt, "ok "),
        Err(c) => figure(rt, answer::number(c)),
    }
}

// The modes that are tried, by a number.
fn mode(c: u8) -> i8 {
    match c {
        0 => 0,
        1 => -1,
        2 => 1,
        3 => -2,
        4 => 2,
        5 => 127,
        _ => -128,
    }
}

// The same for the functions that C calls, by numbers of its `int`.
fn wide_mode(c: u8) -> i32 {
    match c {
        0 => 0,
        1 => -1,
        2 => 1,
        3 => -2,
        4 => 255,
        5 => 2147483647,
        _ => -2147483648,
    }
}

fn truth(rt: &impl Print, b: bool) -> io::Result<()> {
    word(rt, if b { "yes " } else { "no " })
}

fn figure(rt: &impl Print, n: impl Display + Drop) -> io::Result<()> {
    rt.print(n)?;
    word(rt, " ")
}

fn word(rt: &impl Print, text: &str) -> io::Result<()> {
    rt.print(text)
}

// The little-endian words at a place of a case, and 0 past its end. Each test program reads its cases by itself, as long as they are there.
fn number(case: &[u8], at: usize) -> u32 {
    match case.get(at..) {
        Some([b0, b1, b2, b3, ..]) => u32::from_le_bytes([*b0, *b1, *b2, *b3]),
        _ => 0,
    }
}

// No conversion: it reads a place, and gives 0 past the end.
fn wide(case: &[u8], at: usize) -> u64 {
    match case.get(at..) {
        Some([b0, b1, b2, b3, b4, b5, b6, b7, ..]) => {
            u64::from_le_bytes([*b0, *b1, *b2, *b3, *b4, *b5, *b6, *b7])
        }
        _ => 0,
    }
}
