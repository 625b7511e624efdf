// Answers as lines of text: what replay prints for machines.
// Promised of `put_lines`: the decimal lines of the first n answers, and how many bytes they have; what lies behind them stays. More answers than were
// lent are EINVAL, a buffer that might be too small is ROOM, and then nothing is written. `put_lines_as` promises the same of lines of any form.
// A `Pen` puts one piece behind the other.
#![tactic(auto)]

ghost use Rattle.std.specs.Prelude.{◌≡◌, ℕ, ◌+◌, ◌*◌, ◌<◌, ◌≤◌, List, length, max};
ghost use Rattle.std.proofs.Common.{lit<};
ghost use Rattle.answer.specs.Stores.{cat};
ghost use Rattle.text.specs.Text.{decimal, hex};
ghost use Rattle.lines.specs.Lines.{line, line_at, line_in, Lines};
ghost use Rattle.lines.specs.Steps.{Piece};
ghost use Rattle.lines.specs.Pens.{put_by, Room, Wrote, Writes, Stays};

use answer::Code;

// A lent buffer, and the place in it where the next piece goes. A piece that has no room there is not put, and the pen stays.
#[derive(Drop)]
pub struct Pen<'a> {
    pub text: &'a mut [u8],
    pub at: usize,
}

impl<'a> Pen<'a> {
    pub fn word(&mut self, word: &[u8])
        ensures exact { self.new ≡ put_by self.old word.now }
        ensures with_room { Writes self.old self.new (length word.now) word.now }
    {
        self.at += text::put_word(self.text, self.at, word);
    }

    pub fn number(&mut self, n: u32)
        ensures exact { self.new ≡ put_by self.old (decimal n) }
        ensures with_room { Writes self.old self.new 10 (decimal n) }
    {
        self.at += text::put_number(self.text, self.at, n);
    }

    // In base 16, with at least so many digits.
    pub fn hex(&mut self, least: usize, n: u32)
        ensures exact { self.new ≡ put_by self.old (hex least n) }
        ensures with_room { Writes self.old self.new (max least 8) (hex least n) }
    {
        self.at += text::put_hex(self.text, self.at, least, n);
    }
}

// A form of lines: how many bytes the longest has, and what the k-th line says of an answer and its value, two numbers as the lent run of answers has them.
pub trait Form {
    ghost longest: { ℕ };

    ghost line: { Self → ℕ → ℕ → ℕ → List ℕ };

    fn longest(&self) -> usize
        ensures { result ≡ longest };

    // A line is put where the longest has room behind the pen, and else none.
    fn put_line(&self, pen: &mut Pen, k: usize, code: u32, value: u32)
        ensures with_room { Writes pen.old pen.new longest (line self.now k code value) }
        ensures without { Stays pen.old pen.new longest };

    ghost some_bytes: { 0 < longest };
}

// Ten digits, a space, ten digits and the line's end.
pub const LONGEST: usize = 22;

// A line of four bytes, which most are: an answer below ten with value 0. It costs no counting of digits, and one test for room, the line's.
fn put_short(pen: &mut Pen, code: u32)
    requires { (code < 10) × Room pen.old 22 }
    ensures { Wrote pen.old pen.new 22 (line code 0) }
{
    let end = pen.at + 4;
    pen.text[pen.at..end].copy_from_slice(&[b'0' + code as u8, b' ', b'0', b'\n']);
    pen.at = end;
}

fn put_numbers(pen: &mut Pen, code: u32, value: u32)
    requires { Room pen.old 22 }
    ensures { Wrote pen.old pen.new 22 (line code value) }
{
    if value == 0 && code < 10 {
        return put_short(pen, code);
    }
    pen.number(code);
    pen.word(b" ");
    pen.number(value);
    pen.word(b"\n")
}

// The answer and its value in decimal.
struct Numbers;

impl Form for Numbers {
    ghost longest = { 22 };

    ghost line = { λ _ _. line };

    fn longest(&self) -> usize {
        LONGEST
    }

    fn put_line(&self, pen: &mut Pen, _k: usize, code: u32, value: u32) {
        if LONGEST <= pen.text.len().saturating_sub(pen.at) {
            put_numbers(pen, code, value)
        }
    }

    ghost some_bytes = { lit< tt };
}

fn put_all<F: Form>(form: &F, text: &mut [u8], out: &[u32], n: usize) -> usize
    requires { (F.longest * n ≤ length text.old) × (2 * n ≤ length out.now) }
    ensures { Piece text.old 0 (F.longest * n) (cat (line_in (F.line form.now) out.now) n) result text.new }
{
    let mut pen = Pen { text, at: 0 };
    for k in 0..n {
        form.put_line(&mut pen, k, out[2 * k], out[2 * k + 1]);
    }
    pen.at
}

pub fn put_lines_as<F: Form>(
    form: &F,
    out: &[u32],
    n: usize,
    text: &mut [u8],
) -> Result<usize, Code>
    ensures { Lines (line_in (F.line form.now) out.now) F.longest out.now n text.old result text.new }
{
    if out.len() / 2 < n {
        return Err(Code::Einval);
    }
    if text.len() / form.longest() < n {
        return Err(Code::Room);
    }
    Ok(put_all(form, text, out, n))
}

pub fn put_lines(out: &[u32], n: usize, text: &mut [u8]) -> Result<usize, Code>
    ensures { Lines (line_at out.now) 22 out.now n text.old result text.new }
{
    put_lines_as(&Numbers, out, n, text)
}
