// What replay does between reading and writing: a log as it comes, its answers, their lines.
// Promised of `feed`: of the bytes at a buffer's front, those that were kept and those that came, the whole calls are answered (at the input's end, where
// none came, every part), the three tables are what `run` leaves, the
// text is their lines in order, in numbers or in words, and the bytes of a call that is not yet whole stand at the buffer's front, with their number. VALUE and
// ROOM change nothing. `put_refusal` puts the line of an image that was refused. What pieces the log comes in makes no difference (proofs/Pieces.antt).
#![tactic(auto)]

ghost use Rattle.std.specs.Prelude.{◌≡◌, ℕ, ◌+◌, ◌*◌, ◌<◌, ◌≤◌, min, false, List, [], ◌∷◌, ◌++◌, length, take, drop, if◌then◌else◌, ◌==◌, nat_le};
ghost use Rattle.answer.specs.declared.Code.TheVariants.{Value, Room};
ghost use Rattle.text.specs.Text.{ascii};
ghost use Rattle.lines.specs.Lines.{Lines};
ghost use Rattle.lines.specs.Pens.{Writes};
ghost use Rattle.words.specs.Words.{answer_words};
ghost use Rattle.calls.specs.Calls.{parts_in};
ghost use Rattle.rules.specs.Rules.{keeps_test};
ghost use Rattle.replaying.specs.Printing.{longest, line_in, refusal_of, laid, Printed};
ghost use Rattle.replaying.specs.Feeding.{cut_at, FedIs};

use answer::Code;
use lines::Pen;

// How many bytes a call has.
const CALL: usize = 16;

// Room for the line of a refused image.
pub const REFUSAL: usize = 30;

// How answers are told: in numbers for machines, in words for people.
#[derive(Clone, Copy)]
pub enum Style {
    Numbers,
    Words,
}

// What feeding answers: how many bytes the text has, how many bytes of the log are kept, and the next call's number.
#[derive(Clone, Copy)]
pub struct Fed {
    pub put: Result<usize, Code>,
    pub left: usize,
    pub next: u32,
}

fn longest_line(style: Style) -> usize
    ensures { result ≡ longest style }
{
    match style {
        Style::Numbers => lines::LONGEST,
        Style::Words => explain::LONGEST,
    }
}

// Whether each part of a log of n bytes has `each` bytes of the room.
fn has_room(n: usize, each: usize, room: usize) -> bool
    requires { 0 < each }
    ensures { result ≡ nat_le (each * parts_in n) room }
{
    n.div_ceil(CALL) <= room / each
}

// The lines of the first n answers.
fn put_text(
    first: u32,
    log: &[u8],
    out: &[u32],
    n: usize,
    style: Style,
    text: &mut [u8],
) -> Result<usize, Code>
    ensures { Lines (line_in style first log.now out.now) (longest style) out.now n text.old result text.new }
{
    match style {
        Style::Numbers => lines::put_lines(out, n, text),
        Style::Words => explain::put_explained(first, log, out, n, text),
    }
}

// Why a log is refused whose lines have no room: that is said of a state only.
fn without_room(objects: &[u64], threads: &[u32], slots: &[u32]) -> Code
    ensures { result ≡ (if keeps_test objects.now threads.now slots.now then Room else Value) }
{
    if rules::keeps(objects, threads, slots) {
        return Code::Room;
    }
    Code::Value
}

// A whole log.
fn print(
    objects: &mut [u64],
    threads: &mut [u32],
    slots: &mut [u32],
    first: u32,
    log: &[u8],
    style: Style,
    out: &mut [u32],
    text: &mut [u8],
) -> Result<usize, Code>
    ensures { Printed style first objects.old threads.old slots.old log.now out.old text.old result objects.new threads.new slots.new out.new text.new }
{
    if !has_room(log.len(), longest_line(style), text.len()) {
        return Err(without_room(objects, threads, slots));
    }
    let answers = calls::run(objects, threads, slots, log, out)?;
    put_text(first, log, out, answers, style, text)
}

fn cut_at(n: usize, last: bool) -> usize
    ensures { (result ≡ cut_at last n) × (result ≤ n) }
{
    if last {
        return n;
    }
    n - n % CALL
}

// Moves the bytes from a place on, up to n, to the front.
fn keep(log: &mut [u8], from: usize, n: usize)
    requires { (from ≤ n) × (n ≤ length log.old) }
    ensures { log.new ≡ laid (drop from (take n log.old)) log.old }
{
    // By itself, byte for byte: std has no `copy_within`, and what is kept is less than a call.
    for i in 0..n - from {
        log[i] = log[from + i];
    }
}

// `have` bytes were kept, and `more` came behind them, as far as the buffer goes: none at the input's end.
// The tables and buffers are ten parameters and no struct: `FedIs` promises what each of them holds, and callers lend them one by one.
pub fn feed(
    objects: &mut [u64],
    threads: &mut [u32],
    slots: &mut [u32],
    first: u32,
    log: &mut [u8],
    have: usize,
    more: usize,
    style: Style,
    out: &mut [u32],
    text: &mut [u8],
) -> Fed
    ensures { FedIs style (more == 0) first objects.old threads.old slots.old log.old (have + more) out.old text.old result objects.new threads.new slots.new log.new out.new text.new }
{
    let n = have.saturating_add(more).min(log.len());
    let cut = cut_at(n, more == 0);
    let put = print(
        objects,
        threads,
        slots,
        first,
        &log[..cut],
        style,
        out,
        text,
    );
    if put.is_err() {
        return Fed {
            put,
            left: n,
            next: first,
        };
    }
    keep(log, cut, n);
    Fed {
        put,
        left: n - cut,
        next: explain::line_number(first, cut / CALL),
    }
}

fn put_image(pen: &mut Pen, code: u32)
    ensures { Writes pen.old pen.new 29 (ascii "image" ++ answer_words false code 0) }
{
    pen.word(b"image");
    pen.at = words::put_answer(pen.text, pen.at, false, code, 0);
}

// The line of a refused image, where the longest would have room: its answer and 0.
pub fn put_refusal(code: u32, style: Style, text: &mut [u8]) -> Result<usize, Code>
    ensures { Lines (λ _. refusal_of style code) 30 (code ∷ 0 ∷ []) 1 text.old result text.new }
{
    if text.len() < REFUSAL {
        return Err(Code::Room);
    }
    match style {
        Style::Numbers => lines::put_lines(&[code, 0], 1, text),
        Style::Words => {
            let mut pen = Pen { text, at: 0 };
            put_image(&mut pen, code);
            Ok(pen.at)
        }
    }
}
