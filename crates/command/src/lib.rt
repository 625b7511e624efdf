// The command `replay`, whole, as one function that returns its exit status: 0 done, 1 the image was refused, 2 bad usage, or a file or an output that failed.
// The program crates/replay calls it and ends with that status.
// Here bytes are only moved: an image is judged by `image::read`, calls are answered and their lines made by `replaying::feed`. Promised inside: at each turn
// the state keeps the rules and every buffer has its room (specs/Ready.antt), so no answer of those two is VALUE or ROOM. What the system is handed, and
// in which order, no contract can say.
#![tactic(auto)]

ghost use Rattle.std.specs.Prelude.{◌≡◌, ◌^◌, ◌<◌, ◌==◌, ◌&&◌, not, eqb, length, get_or, if◌then◌else◌, IfOk};
ghost use Rattle.rules.specs.Rules.{Sound};
ghost use Rattle.command.specs.Ready.{Roomy, IsReady};
ghost use Rattle.command.specs.Counts.{IsPrefixLen};
ghost use Rattle.command.specs.declared.Stopped.TheVariants.{Failed};
ghost use Rattle.command.specs.declared.Course.TheVariants.{Ended, GoesOn};

use replaying::Style;
use std::env::{Env, FillError};
use std::fs::Files;
use std::io::{Print, Read, Stderr, Stdin, Stdout, Write};
use std::{fs, io, str};

// Why the command ends otherwise than it was asked: the image was refused, or something failed; either was told.
#[derive(Clone, Copy)]
enum Stopped {
    Refused,
    Failed,
}

// The longest image; what a file has behind an image is ignored.
const IMAGE: usize = 5136;

// Calls at a time: every buffer is made of this number.
const CALLS: usize = 16384;

const LOG: usize = 16 * CALLS;

const ANSWERS: usize = 2 * CALLS;

const LINES: usize = lines::LONGEST * CALLS;

// In words a line is longer, so fewer at a time.
const FEW: usize = CALLS / 32;

const FEW_LOG: usize = 16 * FEW;

const FEW_ANSWERS: usize = 2 * FEW;

const FEW_LINES: usize = explain::LONGEST * FEW;

// The longest word of the command line that is read; a longer one counts as empty.
const WORD: usize = 4096;

// The standard streams.
#[derive(Clone, Copy)]
pub struct Streams {
    pub input: Stdin,
    pub output: Stdout,
    pub errors: Stderr,
}

// ---- what is said

// One line on standard error.
fn complain(errors: Stderr, line: &[u8]) -> Stopped
    ensures { result ≡ Failed }
{
    let _ = Print::write_all(&errors, line);
    Stopped::Failed
}

// The system's words for why; std puts the error's number behind them, which is not said here.
fn put_words(errors: Stderr, why: io::Error) {
    let mut text = [0u8; 128];
    let mut free: &mut [u8] = &mut text;
    let _ = write!(free, "{why}");
    let n = 128usize.saturating_sub(free.len());
    let Ok(text) = str::from_utf8(&text[..n]) else {
        return;
    };
    let words = match text.split_once(" (os error ") {
        Some((words, _)) => words,
        None => text,
    };
    let _ = Print::write_all(&errors, words.as_bytes());
}

// What failed, and the system's words for why.
fn fail(errors: Stderr, what: &[u8], why: io::Error) -> Stopped
    ensures { result ≡ Failed }
{
    complain(errors, b"replay: ");
    complain(errors, what);
    complain(errors, b": ");
    put_words(errors, why);
    complain(errors, b"\n")
}

// To standard output; where it fails, that was told.
fn print(streams: Streams, text: &[u8]) -> Result<(), Stopped> {
    Print::write_all(&streams.output, text).map_err(|why| fail(
        streams.errors,
        b"standard output",
        why,
    ))
}

fn help(streams: Streams) -> Result<(), Stopped> {
    print(
        streams,
        b"replay IMAGE < CALLS            an answer and a value a call, in decimal\nreplay --explain IMAGE < CALLS  the same in words\n",
    )?;
    print(
        streams,
        b"replay --help, -h               this text\nreplay --version                what this is\nreplay [--explain] -- IMAGE     an IMAGE whose name begins with -\n",
    )?;
    print(
        streams,
        b"IMAGE is a state as docs/SPEC.md has it; a call is sixteen bytes. A refused image\nprints its answer and 0, and no call is read. A last part under sixteen bytes is 7 0.\nExit status: 0 done, 1 the image was refused, 2 usage, or a file or output that failed.\n",
    )
}

// ---- what is asked for

// What the words up to here ask for: a file is the number of the argument that names it. A word can only raise it.
#[derive(Clone, Copy, PartialEq, Eq, PartialOrd, Ord)]
enum Task {
    NoFile,
    OneFile(usize),
    MoreFiles,
    Unknown,
    Version,
    Help,
}

// The task, how answers are to be told, and whether an option may still come.
#[derive(Clone, Copy)]
struct Asked {
    task: Task,
    style: Style,
    options: bool,
}

fn raised(a: Asked, task: Task) -> Asked {
    Asked {
        task: a.task.max(task),
        ..a
    }
}

fn with_file(a: Asked, i: usize) -> Asked {
    match a.task {
        Task::NoFile => raised(a, Task::OneFile(i)),
        _ => raised(a, Task::MoreFiles),
    }
}

fn with_option(a: Asked, word: &[u8]) -> Asked {
    match word {
        b"--" => Asked {
            options: false,
            ..a
        },
        b"--explain" => Asked {
            style: Style::Words,
            ..a
        },
        b"--version" => raised(a, Task::Version),
        b"--help" | b"-h" => raised(a, Task::Help),
        _ => raised(a, Task::Unknown),
    }
}

fn is_option(word: &[u8]) -> bool
    ensures { result ≡ (not (eqb (length word.now) 0) && eqb (get_or word.now 0 0) 45) }
{
    matches!(word, [b'-', ..])
}

fn with_word(a: Asked, word: &[u8], i: usize) -> Asked {
    if a.options && is_option(word) {
        return with_option(a, word);
    }
    with_file(a, i)
}

// An argument's bytes, at the start of a buffer.
fn argument<R: Env>(rt: &R, i: usize, word: &mut [u8]) -> usize
    ensures { IsPrefixLen result word.new }
{
    rt.arg(i, word).unwrap_or(0)
}

fn is_there<R: Env>(rt: &R, i: usize) -> bool {
    let mut none = [0u8; 0];
    !matches!(rt.arg(i, &mut none), Err(FillError::NotPresent))
}

// The program's name is the first.
fn argument_count<R: Env>(rt: &R) -> usize {
    (0..usize::MAX).take_while(|i| is_there(rt, *i)).count()
}

fn with_argument<R: Env>(rt: &R, a: Asked, i: usize) -> Asked {
    let mut word = [0u8; WORD];
    let n = argument(rt, i, &mut word);
    with_word(a, &word[..n], i)
}

fn all_asked<R: Env>(rt: &R) -> Asked {
    let mut a = Asked {
        task: Task::NoFile,
        style: Style::Numbers,
        options: true,
    };
    for i in 1..argument_count(rt) {
        a = with_argument(rt, a, i);
    }
    a
}

// ---- the calls

// A state, and the buffers through which calls come and answers go.
#[derive(Drop)]
struct Session<'a> {
    objects: &'a mut [u64],
    threads: &'a mut [u32],
    slots: &'a mut [u32],
    log: &'a mut [u8],
    out: &'a mut [u32],
    text: &'a mut [u8],
    style: Style,
    // The bytes at the log's front that wait for more, and the next call's number.
    have: usize,
    first: u32,
}

// How the input stands.
#[derive(Clone, Copy)]
enum Course {
    Ended,
    GoesOn,
}

// Where nothing came, the input has ended.
fn course_after(came: usize) -> Course
    ensures { result ≡ (if came == 0 then Ended else GoesOn) }
{
    if came == 0 {
        return Course::Ended;
    }
    Course::GoesOn
}

// What has come by now is answered and printed.
fn turn(streams: Streams, session: &mut Session) -> Result<Course, Stopped>
    requires { IsReady session.old }
    ensures { IsReady session.new }
{
    let mut input = streams.input;
    let came = input
        .read(&mut session.log[session.have..])
        .map_err(|why| fail(streams.errors, b"standard input", why))?;
    let fed = replaying::feed(
        session.objects,
        session.threads,
        session.slots,
        session.first,
        session.log,
        session.have,
        came,
        session.style,
        session.out,
        session.text,
    );
    session.have = fed.left;
    session.first = fed.next;
    print(streams, &session.text[..fed.put.unwrap()])?;
    Ok(course_after(came))
}

// A proved loop has to end, and nothing says that the input does: the turns are counted up to a number that no run reaches. What the last turn said of the
// input is handed back, so that the loop is left, where nothing failed, with an input that has ended.
fn every(streams: Streams, session: &mut Session) -> Result<Course, Stopped>
    requires { IsReady session.old }
    ensures { IfOk result (λ course. course ≡ Ended) }
{
    for _ in 0..u64::MAX {
        let course = turn(streams, session)?;
        if matches!(course, Course::Ended) {
            return Ok(course);
        }
    }
    Err(complain(streams.errors, b"replay: standard input does not end\n"))
}

// With buffers for so many calls at a time: sixteen bytes and two numbers each, and the longest line.
fn answer_all<const LOG: usize, const ANSWERS: usize, const LINES: usize>(
    streams: Streams,
    objects: &mut [u64],
    threads: &mut [u32],
    slots: &mut [u32],
    style: Style,
) -> Result<(), Stopped>
    requires sound { Sound objects.old threads.old slots.old }
    requires room { Roomy style LOG ANSWERS LINES }
    requires small { (LOG < 2 ^ 40) × ((ANSWERS < 2 ^ 40) × (LINES < 2 ^ 40)) }
{
    let mut log = [0u8; LOG];
    let mut out = [0u32; ANSWERS];
    let mut text = [0u8; LINES];
    let mut session = Session {
        objects,
        threads,
        slots,
        log: &mut log,
        out: &mut out,
        text: &mut text,
        style,
        have: 0,
        first: 1,
    };
    every(streams, &mut session)?;
    Ok(())
}

// ---- the image

// A refused image: its answer and 0, and no call is read.
fn refuse(streams: Streams, code: u32, style: Style) -> Result<(), Stopped> {
    let mut text = [0u8; replaying::REFUSAL];
    let bytes = replaying::put_refusal(code, style, &mut text).unwrap();
    print(streams, &text[..bytes])?;
    Err(Stopped::Refused)
}

// The image as bytes and, where it is a state, the calls.
fn replay(streams: Streams, file: &[u8], style: Style) -> Result<(), Stopped> {
    let mut objects = [0u64; 512];
    let mut threads = [0u32; 192];
    let mut slots = [0u32; 384];
    if let Err(code) = image::read(file, &mut objects, &mut threads, &mut slots) {
        return refuse(streams, answer::number(code), style);
    }
    match style {
        Style::Numbers => answer_all::<LOG, ANSWERS, LINES>(
            streams,
            &mut objects,
            &mut threads,
            &mut slots,
            style,
        ),
        Style::Words => answer_all::<FEW_LOG, FEW_ANSWERS, FEW_LINES>(
            streams,
            &mut objects,
            &mut threads,
            &mut slots,
            style,
        ),
    }
}

// The system's number for bytes that are no text.
const EILSEQ: i32 = 84;

// The name as text, since std opens no other.
fn name_of(path: &[u8]) -> io::Result<&str>
    ensures { IfOk result (λ name. name.now ≡ path.now) }
{
    str::from_utf8(path).map_err(|_| io::Error::from_raw_os_error(EILSEQ))
}

// As much of the file as has room. It is closed behind that, before a call is read: where standard input is closed, the file has its number.
fn load<R: Files>(rt: &R, path: &[u8], file: &mut [u8]) -> io::Result<usize>
    ensures { IfOk result (λ n. IsPrefixLen n file.new) }
{
    let mut opened = fs::open(rt, name_of(path)?)?;
    reading::read_full(&mut opened, file)
}

fn open<R: Files>(rt: &R, streams: Streams, path: &[u8], style: Style) -> Result<(), Stopped> {
    let mut file = [0u8; IMAGE];
    match load(rt, path, &mut file) {
        Ok(n) => replay(streams, &file[..n], style),
        Err(why) => Err(fail(streams.errors, path, why)),
    }
}

fn open_argument<R: Env + Files>(
    rt: &R,
    streams: Streams,
    i: usize,
    style: Style,
) -> Result<(), Stopped> {
    let mut path = [0u8; WORD];
    let n = argument(rt, i, &mut path);
    open(rt, streams, &path[..n], style)
}

// ---- the command

fn run<R: Env + Files>(rt: &R, streams: Streams) -> Result<(), Stopped> {
    let a = all_asked(rt);
    match a.task {
        Task::NoFile => Err(complain(
            streams.errors,
            b"replay: an image file is needed; replay --help says more\n",
        )),
        Task::OneFile(i) => open_argument(rt, streams, i, a.style),
        Task::MoreFiles => Err(complain(
            streams.errors,
            b"replay: one image file is needed, not two: the calls come from standard input; replay --help says more\n",
        )),
        Task::Unknown => Err(complain(
            streams.errors,
            b"replay: no such option; replay --help says more\n",
        )),
        Task::Version => print(
            streams,
            b"replay 1, of wardlatch: images WLATCH01, calls of sixteen bytes\n",
        ),
        Task::Help => help(streams),
    }
}

// The whole of it. The status is 0, 1 or 2: a number, since that is its promise.
pub fn wardlatch_replay<R: Env + Files>(rt: &R, streams: Streams) -> u32
    ensures { result < 3 }
{
    match run(rt, streams) {
        Ok(()) => 0,
        Err(Stopped::Refused) => 1,
        Err(Stopped::Failed) => 2,
    }
}
