//! What the environment asks for.
use group_log::LogLevel;
use std::env;
use std::rt::Env;

/// The variable that asks for a log, by the value 1.
const LOG: &str = "PGROUP_LOG";

/// The variable that asks for counts in this log, by the value 1.
const COUNTS: &str = "PGROUP_COUNTS";

/// The variable that names the file of a node's trace.
const TRACE: &str = "PGROUP_TRACE";

/// Returns true if a variable of the environment has the value 1.
fn is_one<H: Env + AllocGlobal>(rt: &H, name: &str) -> bool {
    match env::var(rt, name) {
        Ok(value) => value.as_str() == "1",
        Err(_) => false,
    }
}

/// Returns true if the environment asks for a log.
pub fn is_log_asked<H: Env + AllocGlobal>(rt: &H) -> bool {
    is_one(rt, LOG)
}

/// Returns what the environment asks for in the log of a node.
pub fn level_asked<H: Env + AllocGlobal>(rt: &H) -> LogLevel {
    if !is_log_asked(rt) {
        LogLevel::Off
    } else if is_one(rt, COUNTS) {
        LogLevel::Counts
    } else {
        LogLevel::Notes
    }
}

/// Returns the path of the trace that the environment asks for, or an empty text.
pub fn trace_asked<H: Env + AllocGlobal>(rt: &H) -> String {
    env::var(rt, TRACE).unwrap_or(String::new(rt.alloc()))
}

/// Returns a text, if it is not empty.
pub fn if_said(text: &str) -> Option<&str> {
    if text.is_empty() { None } else { Some(text) }
}
