// A log and its answers in words: what replay prints for people.
// Promised of `put_explained`: for each of the first n parts of a log one line, its number, the call and its answer in the words of `words`,
// as specs/Words.antt has them; how many bytes they have; what lies behind them stays. The refusals are those of `lines`.
#![tactic(auto)]

ghost use Rattle.std.specs.Prelude.{◌≡◌, ◌+◌, ◌*◌, ◌^◌, ◌<◌, ◌≤◌, length};
ghost use Rattle.std.proofs.Common.{lit<};
ghost use Rattle.lines.specs.Lines.{Lines};
ghost use Rattle.lines.specs.Pens.{Writes, Stays};
ghost use Rattle.calls.specs.Calls.{part_at};
ghost use Rattle.words.specs.Words.{widest_call};
ghost use Rattle.explain.specs.Words.{cut_off, part_words, number_at, is_address, explained, explained_at, longest_line};

use answer::Code;
use lines::{Form, Pen};

// How many bytes a call has, and the operation's number of a memory check.
const CALL: usize = 16;

const CHECK: u8 = 3;

// Lines have numbers of 32 bits.
const NUMBERS: usize = 1 << 32;

// The longest line: its number with a colon and a space, a call, an answer.
pub const LONGEST: usize = 12 + words::CALL + words::ANSWER;

fn put_cut_off(pen: &mut Pen, n: u32)
    ensures { Writes pen.old pen.new widest_call (cut_off n) }
{
    pen.word(b"cut off after ");
    pen.number(n);
    pen.word(b" bytes")
}

fn put_part(pen: &mut Pen, bytes: &[u8])
    ensures { Writes pen.old pen.new widest_call (part_words bytes.now) }
{
    if bytes.len() < CALL {
        return put_cut_off(pen, bytes.len() as u32);
    }
    pen.at = words::put_call(pen.text, pen.at, decoding::decode_bytewise(bytes));
}

// Whether a part's value is an address: that of a memory check that is EPERM.
#[tactic(auto, unfolding(crate::specs::Words::is_address))]
fn is_address(bytes: &[u8], code: u32) -> bool
    ensures { result ≡ is_address bytes.now code }
{
    code == answer::EPERM && matches!(bytes, [CHECK, ..])
}

// The k-th part of a log: sixteen bytes, what is left at the end, or nothing past it.
fn part_of(log: &[u8], k: usize) -> &[u8]
    ensures { result.now ≡ part_at log.now k }
{
    let rest = &log[log.len().min(CALL.saturating_mul(k))..];
    &rest[..rest.len().min(CALL)]
}

// The number of the k-th line behind one; behind the greatest they begin again at 0.
pub fn line_number(first: u32, k: usize) -> u32
    ensures { result ≡ number_at first k }
{
    first.wrapping_add((k % NUMBERS) as u32)
}

// The parts of a log, the first of which has a number.
#[derive(Clone, Copy)]
struct Explained<'a> {
    first: u32,
    log: &'a [u8],
}

impl<'a> Explained<'a> {
    fn put(&self, pen: &mut Pen, k: usize, code: u32, value: u32)
        ensures { Writes pen.old pen.new longest_line (explained (number_at self.now.first k) (part_at self.now.log.now k) code value) }
    {
        let part = part_of(self.log, k);
        pen.number(line_number(self.first, k));
        pen.word(b": ");
        put_part(pen, part);
        pen.at = words::put_answer(pen.text, pen.at, is_address(part, code), code, value);
    }
}

impl Form for Explained<'_> {
    ghost longest = { longest_line };

    ghost line = { λ it k code value. explained (number_at it.first k) (part_at it.log.now k) code value };

    fn longest(&self) -> usize
        ensures { result ≡ longest_line }
    {
        LONGEST
    }

    fn put_line(&self, pen: &mut Pen, k: usize, code: u32, value: u32)
        ensures with_room { Writes pen.old pen.new longest_line (explained (number_at self.now.first k) (part_at self.now.log.now k) code value) }
        ensures without { Stays pen.old pen.new longest_line }
    {
        if LONGEST <= pen.text.len().saturating_sub(pen.at) {
            self.put(pen, k, code, value)
        }
    }

    ghost some_bytes = { lit< tt };
}

// The first part's number is `first`.
pub fn put_explained(
    first: u32,
    log: &[u8],
    out: &[u32],
    n: usize,
    text: &mut [u8],
) -> Result<usize, Code>
    ensures { Lines (explained_at first log.now out.now) longest_line out.now n text.old result text.new }
{
    lines::put_lines_as(&Explained { first, log }, out, n, text)
}
