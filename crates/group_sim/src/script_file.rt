//! The work of the command `sim` on a code file and the file of a script.
use crate::refusal::ScriptRefusal;
use crate::simulation::sim;
use group_world::{Script, read_script};
use machine_run::{Counting, MachineRefusal, load_file, read_file};
use std::io::Write;
use std::rt::Files;

/// Reads the script of a file. Fails with `File` if it can't be read or is not UTF-8.
fn load_script<H: Files + AllocGlobal>(rt: &H, file: &str) -> Result<Script, ScriptRefusal> {
    let bytes = read_file(rt, file).map_err(MachineRefusal::from)?;
    let Ok(text) = str::from_utf8(bytes.as_slice()) else {
        return Err(ScriptRefusal::Machine(MachineRefusal::File));
    };
    Ok(read_script(rt.alloc(), text)?)
}

/// Performs the script of a file on a group that runs the program of a code file.
pub fn sim_file<H: Files + AllocGlobal, W: Write>(
    rt: &H,
    file: &str,
    script: &str,
    writer: &mut W,
) -> Result<(), ScriptRefusal> {
    let program = load_file(rt, file)?;
    let script = load_script(rt, script)?;
    let mut writer = Counting::new(writer);
    match sim(rt.alloc(), &program, &script, &mut writer).map_err(MachineRefusal::Run)? {
        None => Ok(()),
        Some(halted) => Err(ScriptRefusal::from(halted)),
    }
}
