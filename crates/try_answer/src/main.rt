// Prints the table of answers (docs/SPEC.md, 1) as the crate `answer` has it: each number, the number of its name (or -), and what the
// translation answers: code and upstream's value. The stored output is that table written by hand, with error.rs beside it.
#![tactic(auto)]

use answer::Answer;
use std::io;

fn main(rt: HostRuntime) -> io::Result<()> {
    for n in 0..15 {
        line(&rt, n)?;
    }
    line(&rt, u32::MAX)
}

fn line(rt: &impl Print, n: u32) -> io::Result<()> {
    let errno = answer::to_errno(n);
    let code = Answer::from(errno.map(|_| ())).code;
    let value = errno.unwrap_or(0);
    match answer::code_of(n) {
        Some(name) => {
            let again = answer::number(name);
            println!(rt; "{n} {again} {code} {value}")
        }
        None => println!(rt; "{n} - {code} {value}"),
    }
}
