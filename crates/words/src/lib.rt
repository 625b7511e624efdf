// One call, and one answer, in words, for people.
// Promised of `put_call` and `put_answer`: the words of specs/Words.antt at the place that was asked for, where the widest words would have room there, and the
// place behind them; else nothing is put, and the place is the one asked for (`Placed`, specs/Placed.antt). What lies around them stays.
#![tactic(auto)]

ghost use Rattle.std.specs.Prelude.{◌≡◌, ◌+◌, ◌*◌, ◌<◌, ◌≤◌, ◌++◌, length, if◌then◌else◌};
ghost use Rattle.text.specs.Text.{ascii, decimal};
ghost use Rattle.lines.specs.Pens.{Writes};
ghost use Rattle.words.specs.Placed.{Placed};
ghost use Rattle.words.specs.Words.{nth, texts, longest, unknown, rank, operation, answer_name, address, size, told, labelled, unused, named};
ghost use Rattle.words.specs.Words.{type as type-spec, role, access, rights, home, mode_number, mode, on_handle, on_thread, on_domain, field_a, other_b, field_b, other_c, field_c, field_d, fields};
ghost use Rattle.words.specs.Words.{call_words, answer_words, widest_operation, widest_field, widest_call, widest_answer};

use decoding::Call;
use lines::Pen;

// The widest words of a field, of a call (the operation, the caller, four fields), and of an answer.
const FIELD: usize = 25;

pub const CALL: usize = 20 + 18 + 4 * FIELD;

pub const ANSWER: usize = 24;

// How many operations have names: 0 to 4, and behind them 16 to 28.
const NAMED: usize = 18;

// No domain's number.
const NONE: u32 = 255;

// The least mode below zero.
const SIGN: u32 = 2147483648;

// How a number is told.
#[derive(Clone, Copy)]
enum Shape {
    Decimal,
    Address,
    Size,
}

fn put_told(pen: &mut Pen, shape: Shape, n: u32)
    ensures { Writes pen.old pen.new 10 (told shape n) }
{
    match shape {
        Shape::Decimal => pen.number(n),
        Shape::Address => {
            pen.word(b"0x");
            pen.hex(8, n)
        }
        Shape::Size => {
            pen.word(b"0x");
            pen.hex(1, n)
        }
    }
}

fn put_nth(pen: &mut Pen, names: &[&[u8]], k: usize)
    requires { k < length names.now }
    ensures { Writes pen.old pen.new (length (nth k (texts names.now))) (nth k (texts names.now)) }
{
    pen.word(names[k])
}

fn put_unknown(pen: &mut Pen, op: u32)
    ensures { Writes pen.old pen.new widest_operation (unknown op) }
{
    pen.word(b"operation ");
    pen.number(op)
}

// Operations are numbers in this crate: a line is written of any number, named or not, and what each column says of it (`field_a` .. `field_d`) goes by
// the number. With an `Option<Operation>` each test had an arm for None, and each promise a second argument.
// Where an operation stands among the names; behind them all it has none.
#[tactic(auto, unfolding(crate::specs::Words::rank))]
fn rank_of(op: u32) -> usize
    ensures { result ≡ rank op }
{
    match op {
        0..=4 => op as usize,
        5..=15 => NAMED,
        _ => op as usize - 11,
    }
}

fn put_operation(pen: &mut Pen, op: u32)
    ensures { Writes pen.old pen.new widest_operation (operation op) }
{
    const OPERATIONS: [&[u8]; NAMED] = [
        b"validate",
        b"grant",
        b"release",
        b"memory check",
        b"exit",
        b"create object",
        b"delete object",
        b"revoke",
        b"init",
        b"uninit",
        b"recycle",
        b"make public",
        b"create thread",
        b"end thread",
        b"inherit",
        b"assign",
        b"add partition",
        b"remove partition",
    ];
    let k = rank_of(op);
    if k < NAMED {
        return put_nth(pen, &OPERATIONS, k);
    }
    put_unknown(pen, op)
}

fn put_name(pen: &mut Pen, code: u32)
    ensures { Writes pen.old pen.new 10 (answer_name code) }
{
    const ANSWERS: [&[u8]; 13] = [
        b"OK",
        b"EINVAL",
        b"EPERM",
        b"EBADF",
        b"EADDRINUSE",
        b"ENOSPC",
        b"ENOENT",
        b"SHORT",
        b"MAGIC",
        b"VALUE",
        b"NOPLAN",
        b"ROOM",
        b"DIFFERS",
    ];
    let k = code as usize;
    if k < ANSWERS.len() {
        return put_nth(pen, &ANSWERS, k);
    }
    pen.number(code)
}

fn put_field(pen: &mut Pen, name: &[u8], shape: Shape, n: u32)
    requires { length name.now ≤ 10 }
    ensures { Writes pen.old pen.new widest_field (labelled name.now (told shape n)) }
{
    pen.word(b", ");
    pen.word(name);
    pen.word(b" ");
    put_told(pen, shape, n)
}

fn put_unused(pen: &mut Pen, name: &[u8], n: u32)
    requires { length name.now ≤ 10 }
    ensures { Writes pen.old pen.new widest_field (unused name.now n) }
{
    if n == 0 {
        return;
    }
    put_field(pen, name, Shape::Decimal, n)
}

fn put_named(pen: &mut Pen, front: &[u8], names: &[&[u8]], name: &[u8], n: u32)
    requires { (length front.now + longest (texts names.now) ≤ widest_field) × (length name.now ≤ 10) }
    ensures { Writes pen.old pen.new widest_field (named front.now (texts names.now) name.now n) }
{
    let k = n as usize;
    if k < names.len() {
        pen.word(front);
        return put_nth(pen, names, k);
    }
    put_field(pen, name, Shape::Decimal, n)
}

fn put_type(pen: &mut Pen, n: u32)
    ensures { Writes pen.old pen.new widest_field (type-spec n) }
{
    const TYPES: [&[u8]; 16] = [
        b"Any",
        b"Thread",
        b"Sem",
        b"Mutex",
        b"CondVar",
        b"MsgQ",
        b"Stack",
        b"Pipe",
        b"Timer",
        b"Event",
        b"MemSlab",
        b"Fifo",
        b"Lifo",
        b"SysMutex",
        b"Futex",
        b"Mbox",
    ];
    put_named(pen, b", type ", &TYPES, b"type", n)
}

// As the type, the access and the rights: each has a table and words of its own, and `put_named` is what they share.
fn put_role(pen: &mut Pen, n: u32)
    ensures { Writes pen.old pen.new widest_field (role n) }
{
    const ROLES: [&[u8]; 2] = [b"user", b"supervisor"];
    put_named(pen, b", as ", &ROLES, b"supervisor", n)
}

fn put_access(pen: &mut Pen, n: u32)
    ensures { Writes pen.old pen.new widest_field (access n) }
{
    const ACCESSES: [&[u8]; 2] = [b"read", b"write"];
    put_named(pen, b", ", &ACCESSES, b"access", n)
}

fn put_rights(pen: &mut Pen, n: u32)
    ensures { Writes pen.old pen.new widest_field (rights n) }
{
    // 1 read, 2 write, 4 execute.
    const RIGHTS: [&[u8]; 8] = [
        b"attr 0", b"r--", b"attr 2", b"rw-", b"attr 4", b"r-x", b"attr 6", b"rwx",
    ];
    put_named(pen, b", ", &RIGHTS, b"attr", n)
}

fn put_home(pen: &mut Pen, n: u32)
    ensures { Writes pen.old pen.new widest_field (home n) }
{
    if n == NONE {
        return pen.word(b", no domain");
    }
    put_field(pen, b"domain", Shape::Decimal, n)
}

// A mode has a sign: the upper half of the numbers are those below zero.
fn put_mode_number(pen: &mut Pen, n: u32)
    ensures { Writes pen.old pen.new widest_field (mode_number n) }
{
    if n < SIGN {
        return put_field(pen, b"mode", Shape::Decimal, n);
    }
    pen.word(b", mode -");
    pen.number(u32::MAX - n + 1)
}

fn put_mode(pen: &mut Pen, n: u32)
    ensures { Writes pen.old pen.new widest_field (mode n) }
{
    // The modes -1, 0 and 1.
    const MODES: [&[u8]; 3] = [
        b"must not be initialised",
        b"must be initialised",
        b"initialised or not",
    ];
    let k = n.wrapping_add(1) as usize;
    if k < MODES.len() {
        pen.word(b", ");
        return put_nth(pen, &MODES, k);
    }
    put_mode_number(pen, n)
}

#[tactic(auto, unfolding(crate::specs::Words::on_handle))]
fn on_handle(op: u32) -> bool
    ensures { result ≡ on_handle op }
{
    matches!(op, 0..=2 | 16..=23)
}

#[tactic(auto, unfolding(crate::specs::Words::on_thread))]
fn on_thread(op: u32) -> bool
    ensures { result ≡ on_thread op }
{
    matches!(op, 23 | 24 | 26)
}

#[tactic(auto, unfolding(crate::specs::Words::on_domain))]
fn on_domain(op: u32) -> bool
    ensures { result ≡ on_domain op }
{
    matches!(op, 27 | 28)
}

// The four fields go by tests and words of their own (`field_a` .. `field_d`); `put_field` is what they share.
fn put_a(pen: &mut Pen, op: u32, n: u32)
    ensures { Writes pen.old pen.new widest_field (field_a op n) }
{
    if on_handle(op) {
        return put_field(pen, b"handle", Shape::Decimal, n);
    }
    if on_domain(op) {
        return put_field(pen, b"domain", Shape::Decimal, n);
    }
    put_unused(pen, b"unused a", n)
}

// The fields b and c in two functions each: what operations share, by a test, and what is one operation's own.
fn put_other_b(pen: &mut Pen, op: u32, n: u32)
    ensures { Writes pen.old pen.new widest_field (other_b op n) }
{
    if on_thread(op) {
        return put_field(pen, b"thread", Shape::Decimal, n);
    }
    if on_domain(op) {
        return put_field(pen, b"start", Shape::Address, n);
    }
    put_unused(pen, b"unused b", n)
}

fn put_b(pen: &mut Pen, op: u32, n: u32)
    ensures { Writes pen.old pen.new widest_field (field_b op n) }
{
    match op {
        0 | 16 => put_type(pen, n),
        1 => put_field(pen, b"to", Shape::Decimal, n),
        3 => put_field(pen, b"address", Shape::Address, n),
        18 => put_field(pen, b"from", Shape::Decimal, n),
        25 => put_field(pen, b"parent", Shape::Decimal, n),
        _ => put_other_b(pen, op, n),
    }
}

fn put_other_c(pen: &mut Pen, op: u32, n: u32)
    ensures { Writes pen.old pen.new widest_field (other_c op n) }
{
    if on_domain(op) {
        return put_field(pen, b"size", Shape::Size, n);
    }
    put_unused(pen, b"unused c", n)
}

fn put_c(pen: &mut Pen, op: u32, n: u32)
    ensures { Writes pen.old pen.new widest_field (field_c op n) }
{
    match op {
        0 => put_mode(pen, n),
        3 => put_field(pen, b"length", Shape::Size, n),
        23 => put_role(pen, n),
        25 => put_field(pen, b"child", Shape::Decimal, n),
        26 => put_home(pen, n),
        _ => put_other_c(pen, op, n),
    }
}

fn put_d(pen: &mut Pen, op: u32, n: u32)
    ensures { Writes pen.old pen.new widest_field (field_d op n) }
{
    match op {
        3 => put_access(pen, n),
        27 => put_rights(pen, n),
        _ => put_unused(pen, b"unused d", n),
    }
}

fn put_fields(pen: &mut Pen, c: Call)
    ensures { Writes pen.old pen.new (4 * widest_field) (fields c) }
{
    put_a(pen, c.op, c.a);
    put_b(pen, c.op, c.b);
    put_c(pen, c.op, c.c);
    put_d(pen, c.op, c.d)
}

fn spell_call(pen: &mut Pen, c: Call)
    ensures { Writes pen.old pen.new widest_call (call_words c) }
{
    put_operation(pen, c.op);
    pen.word(b" caller ");
    pen.number(c.caller);
    put_fields(pen, c)
}

// A place, the old one where there is no room, and no `Option`: `Placed` promises it.
pub fn put_call(text: &mut [u8], at: usize, c: Call) -> usize
    ensures { Placed widest_call text.old at (call_words c) result text.new }
{
    if !text::has_room(text, at, CALL) {
        return at;
    }
    let mut pen = Pen { text, at };
    spell_call(&mut pen, c);
    pen.at
}

// The value is a number, or an address.
fn put_value(pen: &mut Pen, place: bool, value: u32)
    ensures { Writes pen.old pen.new 10 (if place then address value else decimal value) }
{
    if place {
        return put_told(pen, Shape::Address, value);
    }
    put_told(pen, Shape::Decimal, value)
}

fn spell_answer(pen: &mut Pen, place: bool, code: u32, value: u32)
    ensures { Writes pen.old pen.new widest_answer (answer_words place code value) }
{
    pen.word(b": ");
    put_name(pen, code);
    pen.word(b" ");
    put_value(pen, place, value);
    pen.word(b"\n")
}

// Whether the value is a place stays a flag, as `answer_words` has it. A place comes back, as from `put_call`.
pub fn put_answer(text: &mut [u8], at: usize, place: bool, code: u32, value: u32) -> usize
    ensures { Placed widest_answer text.old at (answer_words place code value) result text.new }
{
    if !text::has_room(text, at, ANSWER) {
        return at;
    }
    let mut pen = Pen { text, at };
    spell_answer(&mut pen, place, code, value);
    pen.at
}
