// The program `replay`: the command, whose exit status it ends with (docs/DECISIONS.md, "Replay").
#![tactic(auto)]

use command::Streams;
use std::process::ExitCode;

fn main(rt: HostRuntime) -> ExitCode {
    let streams = Streams {
        input: rt.stdin(),
        output: rt.stdout(),
        errors: rt.stderr(),
    };
    ExitCode::from(command::wardlatch_replay(&rt, streams) as u8)
}
