//! The work of the commands. Each is done by the crate that has it, and ends in a `Conclusion`.
use crate::conclusion::{Conclusion, Refusal};
use crate::datagram::show;
use crate::environment::{if_said, is_log_asked, level_asked, trace_asked};
use command_arguments::{NodeArguments, Request};
use group_log::LogLevel;
use group_sim::{ScriptRefusal, sim_file};
use machine_frozen::write_frozen;
use machine_run::{Counting, MachineRefusal, RunIo, check_file, list_file, run_file};
use machine_state::write_state;
use net_run::{NetPlan, net_file};
use node_run::RunPlan;
use node_udp::{NodePlan, node_file};
use paxos_msg::Group;
use std::fs::File;
use std::io::{BufWriter, Read, Write};
use std::net::Net;
use std::rt::{Env, Files};
use std::time::Clock;

/// Writes what is left of what a script said. Returns false if a write has failed, now or before.
fn is_written<W: Write + Drop>(said: &mut BufWriter<W>, done: &Result<(), ScriptRefusal>) -> bool {
    match done {
        Err(ScriptRefusal::Machine(MachineRefusal::Run(RunIo::Write))) => false,
        _ => said.flush().is_ok(),
    }
}

/// Runs the script of `sim`, and writes what it says in large parts. What was said before a refusal
/// is written.
fn sim<H: Files + AllocGlobal, W: Write>(
    rt: &H,
    file: &str,
    script: &str,
    writer: &mut W,
) -> Result<(), Refusal> {
    let Ok(mut said) = BufWriter::new(rt.alloc(), writer) else {
        return Err(Refusal::Machine(MachineRefusal::Run(RunIo::Memory)));
    };
    let done = sim_file(rt, file, script, &mut said);
    let is_written = is_written(&mut said, &done);
    // What a failed write did not write is not tried again.
    let _ = said.into_parts();
    if !is_written {
        return Err(Refusal::Machine(MachineRefusal::Run(RunIo::Write)));
    }
    Ok(done?)
}

/// Runs a code file, one byte after another.
fn run<H: Files + AllocGlobal, R: Read, W: Write>(
    rt: &H,
    file: &str,
    steps: u32,
    reader: &mut R,
    writer: &mut W,
) -> Conclusion {
    let mut reader = Counting::new(reader);
    let mut writer = Counting::new(writer);
    Conclusion::of_run(run_file(rt, file, steps, &mut reader, &mut writer))
}

/// Runs the node of a plan.
fn run_plan<
    H: Files<File = File> + Net + Clock + Env + AllocGlobal + Copy + Drop,
    R: Read,
    W: Write,
    E: Write,
>(
    rt: &H,
    file: &str,
    plan: &NodePlan<'_>,
    reader: &mut R,
    writer: &mut W,
    errors: &mut E,
) -> Conclusion {
    let mut writer = Counting::new(writer);
    Conclusion::of_done(node_file(rt, file, plan, reader, &mut writer, errors))
}

/// Returns the plan of the arguments of `node`, with the log and the trace that the environment
/// asks for.
fn plan_of<'a>(
    arguments: &'a NodeArguments<'a>,
    trace: Option<&'a str>,
    log: LogLevel,
) -> NodePlan<'a> {
    NodePlan {
        node: arguments.node,
        group: Group {
            size: arguments.size,
            session: arguments.session,
        },
        record: arguments.record,
        addresses: arguments.addresses.as_slice(),
        run: RunPlan {
            turns: arguments.turns,
            seen: arguments.seen,
            campaigns: arguments.campaigns,
        },
        keys: arguments.keys,
        trace,
        log,
    }
}

/// Runs the node of the arguments of `node`.
fn node<
    H: Files<File = File> + Net + Clock + Env + AllocGlobal + Copy + Drop,
    R: Read,
    W: Write,
    E: Write,
>(
    rt: &H,
    arguments: &NodeArguments<'_>,
    reader: &mut R,
    writer: &mut W,
    errors: &mut E,
) -> Conclusion {
    let asked = trace_asked(rt);
    let plan = plan_of(arguments, if_said(asked.as_str()), level_asked(rt));
    run_plan(rt, arguments.file, &plan, reader, writer, errors)
}

/// Does what is asked. Returns how that ended.
pub fn perform<
    H: Files<File = File> + Net + Clock + Env + AllocGlobal + Copy + Drop,
    R: Read,
    W: Write,
    E: Write,
>(rt: &H, asked: &Request<'_>, reader: &mut R, writer: &mut W, errors: &mut E) -> Conclusion {
    match *asked {
        Request::Check { file } => Conclusion::of_done(check_file(rt, file, writer)),
        Request::List { file } => Conclusion::of_done(list_file(rt, file, writer)),
        Request::Run { file, steps } => run(rt, file, steps, reader, writer),
        Request::State { file, steps } => {
            Conclusion::of_state(write_state(rt, file, steps, reader, writer))
        }
        Request::Frozen { file, steps } => {
            Conclusion::of_state(write_frozen(rt, file, steps, reader, writer))
        }
        Request::Show {
            size,
            session,
            digits,
        } => Conclusion::of_show(show(rt.alloc(), Group { size, session }, digits, writer)),
        Request::Sim { file, script } => Conclusion::of_done(sim(rt, file, script, writer)),
        Request::Net { file, size, turns } => {
            let plan = NetPlan {
                size,
                turns,
                is_logged: is_log_asked(rt),
            };
            Conclusion::of_done(net_file(rt, file, &plan, reader, writer, errors))
        }
        Request::Node(ref arguments) => node(rt, arguments, reader, writer, errors),
    }
}
