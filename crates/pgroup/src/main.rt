//! The program `pgroup`: the command line on the streams of its process.
#![tactic(auto)]

use command_arguments::arguments_of;
use command_line::{command, explain};
use std::io;
use std::process::ExitCode;

fn main(rt: HostRuntime) -> ExitCode {
    let status = match arguments_of(&rt) {
        Ok(arguments) => command(
            &rt,
            arguments.as_slice(),
            &mut rt.reader(),
            &mut io::writer(&rt),
            &mut rt.stderr(),
        ),
        Err(reason) => explain(&mut io::writer(&rt), &mut rt.stderr(), reason),
    };
    ExitCode::from(status)
}
