//! The trace of a node: a file in which it writes down its calls, and what it sends at each.
use crate::kinds::may_save;
use group_log::{Call, Recent, Traced, millis_now, traced_line};
use group_wire::TraceEvent;
use paxos_msg::Group;
use std::fs::{self, OpenOptions};
use std::io::{ErrorKind, Write};
use std::net::SocketAddr;
use std::rt::Files;
use std::time::Clock;

/// Returns the bytes of a file, none of one that is not there, or `None` if they cannot be read.
fn bytes_of<H: Files + AllocGlobal>(rt: &H, path: &str) -> Option<Vec<u8>> {
    match fs::read(rt, path) {
        Ok(bytes) => Some(bytes),
        Err(fault) if fault.kind() == ErrorKind::NotFound => Some(Vec::new(rt.alloc())),
        Err(_) => None,
    }
}

/// The trace of one process of a node. Its lines are appended to a file, each whole and at once. If
/// one cannot be written, none is from then on.
pub struct Trace<'a, H: Files> {
    rt: &'a H,
    file: Option<H::File>,
    /// The datagrams that it has lately, or `None` if there is no memory for them.
    recent: Option<Recent>,
    /// The bytes of the record's file before the start, or `None` if they could not be read.
    record: Option<Vec<u8>>,
    /// The call that may save and has begun last.
    begun: Call,
    /// The node's own address, and the source of the datagram that was received last.
    own: SocketAddr,
    source: SocketAddr,
    is_loss_said: bool,
}

impl<'a, H: Files> Drop for Trace<'a, H> {
    fn drop(self) {
        let Trace {
            rt: _rt,
            file: _file,
            recent: _recent,
            record: _record,
            begun: _begun,
            own: _own,
            source: _source,
            is_loss_said: _is_loss_said,
        } = self;
    }
}

impl<'a, H: Files + Clock + AllocGlobal> Trace<'a, H> {
    /// Opens the trace at `path`, which is made if there is none, of a node with the address `own`
    /// and its record at `record`. Writes that a process begins, and that its node begins to start.
    /// If that fails, the trace is lost.
    pub fn open(
        rt: &'a H,
        path: &str,
        own: SocketAddr,
        record: &str,
        node: u8,
        group: Group,
    ) -> Trace<'a, H> {
        let file = OpenOptions::new().append(true).create(true).open(rt, path);
        let mut trace = Trace {
            rt,
            file: file.ok(),
            recent: Recent::new(rt.alloc()).ok(),
            record: bytes_of(rt, record),
            begun: Call::Start,
            own,
            source: own,
            is_loss_said: false,
        };
        trace.write(&Traced::Process { node, group });
        trace.write(&Traced::BeginsStart);
        trace
    }

    /// Returns true if no line is written any more, the first time after that.
    pub fn take_loss(&mut self) -> bool {
        let is_first = self.file.is_none() && !self.is_loss_said;
        self.is_loss_said = self.file.is_none();
        is_first
    }

    /// Notes where the datagram came from that was received last: from this source, or from the
    /// node itself.
    pub fn came_from(&mut self, source: Option<SocketAddr>) {
        self.source = source.unwrap_or(self.own);
    }

    /// Writes a line.
    fn write(&mut self, traced: &Traced<'_>) {
        let is_written = match (&mut self.file, &mut self.recent) {
            (None, _) => return,
            (Some(_), None) => false,
            (Some(file), Some(recent)) => {
                match traced_line(self.rt.alloc(), millis_now(self.rt), traced, recent) {
                    Ok(line) => file.write_all(line.as_slice()).is_ok(),
                    Err(_) => false,
                }
            }
        };
        if !is_written {
            self.file = None;
        }
    }

    /// Writes that the node has started, and frees what the file of its record had. If that could
    /// not be read, the trace is lost.
    fn write_started(&mut self) {
        match self.record.take() {
            None => self.file = None,
            Some(record) if record.is_empty() => self.write(&Traced::StartedNew),
            Some(record) => self.write(&Traced::Started(record.as_slice())),
        }
    }

    /// Writes what begins, where it may save.
    fn begins(&mut self, call: Call, traced: &Traced<'_>) {
        self.begun = call;
        self.write(traced);
    }

    /// Writes an event of the node.
    pub fn write_event(&mut self, event: &TraceEvent<'_>) {
        match *event {
            TraceEvent::Started => self.write_started(),
            TraceEvent::BeginsToHear(bytes) => {
                if may_save(bytes) {
                    self.begins(Call::Hear, &Traced::BeginsHear(bytes));
                }
            }
            TraceEvent::Heard(bytes) => self.write(&Traced::Heard(self.source, bytes)),
            TraceEvent::Pressed(byte) => self.write(&Traced::Pressed(byte)),
            TraceEvent::BeginsToCampaign => self.begins(Call::Campaign, &Traced::BeginsCampaign),
            TraceEvent::Campaigned => self.write(&Traced::Campaigned),
            TraceEvent::Ticked => self.write(&Traced::Ticked),
            TraceEvent::Ran(steps) => self.write(&Traced::Ran(steps)),
            TraceEvent::Released(number, byte) => self.write(&Traced::Released(number, byte)),
            TraceEvent::Sends(to, bytes) => self.write(&Traced::Sent(to, bytes)),
            TraceEvent::Failed => self.write(&Traced::Failed(self.begun)),
            TraceEvent::Ended(status) => self.write(&Traced::Ended(status)),
        }
    }
}
