//! The lines of a trace, which says what the calls of a node were.
ghost use Rattle.std.specs.Prelude.{◌≡◌, ◌<◌, ◌++◌, IfOk};
ghost use Rattle.std.specs.Option.{option_map};
ghost use Rattle.digits.specs.Digits.{hex_text};
ghost use Rattle.group_log.specs.Traces.{IsTraceLine, bytes_traced, datagram_traced, shown_bytes, traced_line};

use crate::recent::Recent;
use digits::hex_digits;
use group_protocol::To;
use paxos_msg::Group;
use std::alloc::{AllocError, Global};
use std::fmt;
use std::net::SocketAddr;

/// A call of a node that may save.
#[derive(Clone, Copy, Debug, PartialEq, Eq)]
pub enum Call {
    Start,
    Hear,
    Campaign,
}

/// What a line of a trace says. Datagrams and records are their bytes.
#[derive(Clone, Copy, Debug)]
pub enum Traced<'a> {
    /// A process of this node begins.
    Process { node: u8, group: Group },
    /// The node begins to start, and may save.
    BeginsStart,
    /// The node begins to hear this datagram, and may save.
    BeginsHear(&'a [u8]),
    /// The node begins to campaign, and may save.
    BeginsCampaign,
    /// The node has started, and there was no record.
    StartedNew,
    /// The node has started over this record, as it was before.
    Started(&'a [u8]),
    /// The node has heard this datagram, which came from this address.
    Heard(SocketAddr, &'a [u8]),
    /// This byte was typed.
    Pressed(u8),
    /// The node has campaigned.
    Campaigned,
    /// The node has ticked.
    Ticked,
    /// The node's machine has run for at most so many steps.
    Ran(u32),
    /// The byte with this number was released.
    Released(u64, u8),
    /// This datagram is sent.
    Sent(To, &'a [u8]),
    /// The save of this call, which had begun, has failed.
    Failed(Call),
    /// The process ends by itself, with this status.
    Ended(u8),
}

/// Whom a datagram is for, as text.
#[derive(Clone, Copy)]
struct Receiver(To);

impl fmt::Display for Receiver {
    ghost use Rattle.std.specs.Prelude.{Some};
    ghost use Rattle.group_log.specs.Traces.{receiver_text};

    ghost output = { λ receiver. Some (receiver_text receiver.0) };

    fn fmt<W: fmt::Write>(&self, f: &mut fmt::Formatter<W>) -> fmt::Result {
        match self.0 {
            To::All => write!(f, "all"),
            To::One(node) => write!(f, "{node}"),
        }
    }
}

impl fmt::Display for Call {
    ghost use Rattle.std.specs.Prelude.{Some};
    ghost use Rattle.group_log.specs.Traces.{call_text};

    ghost output = { λ call. Some (call_text call) };

    fn fmt<W: fmt::Write>(&self, f: &mut fmt::Formatter<W>) -> fmt::Result {
        match self {
            Call::Start => write!(f, "start"),
            Call::Hear => write!(f, "hear"),
            Call::Campaign => write!(f, "campaign"),
        }
    }
}

/// Writes what the line says before its bytes.
impl fmt::Display for Traced<'_> {
    ghost use Rattle.std.specs.Prelude.{Some};
    ghost use Rattle.group_log.specs.Traces.{traced_text};

    ghost output = { λ traced. Some (traced_text traced) };

    fn fmt<W: fmt::Write>(&self, f: &mut fmt::Formatter<W>) -> fmt::Result {
        match self {
            Traced::Process {
                node,
                group: Group { size, session },
            } => write!(f, "trace 2 node {node} size {size} session {session}"),
            Traced::BeginsStart => write!(f, "begin start"),
            Traced::BeginsHear(_) => write!(f, "begin hear "),
            Traced::BeginsCampaign => write!(f, "begin campaign"),
            Traced::StartedNew => write!(f, "start -"),
            Traced::Started(_) => write!(f, "start "),
            Traced::Heard(source, _) => write!(f, "hear {source} "),
            Traced::Pressed(byte) => write!(f, "press {byte}"),
            Traced::Campaigned => write!(f, "campaign"),
            Traced::Ticked => write!(f, "tick"),
            Traced::Ran(steps) => write!(f, "run {steps}"),
            Traced::Released(number, byte) => write!(f, "release {number} {byte}"),
            Traced::Sent(to, _) => write!(f, "send {} ", Receiver(*to)),
            Traced::Failed(call) => write!(f, "failed {call}"),
            Traced::Ended(status) => write!(f, "end {status}"),
        }
    }
}

/// Returns the bytes that the line ends with; without some it is an empty slice.
fn bytes_of<'a>(traced: &Traced<'a>) -> &'a [u8]
    ensures { result.now ≡ bytes_traced traced.now }
{
    match *traced {
        Traced::BeginsHear(bytes)
        | Traced::Started(bytes)
        | Traced::Heard(_, bytes)
        | Traced::Sent(_, bytes) => bytes,
        _ => &[],
    }
}

/// Puts two hexadecimal digits for each byte behind the text. Fails if memory runs out.
fn push_hex(text: &mut Vec<u8>, bytes: &[u8]) -> Result<(), AllocError>
    ensures { IfOk result (λ _. text.new.items ≡ text.old.items ++ hex_text bytes.now) }
{
    for byte in bytes {
        text.extend_from_slice(&hex_digits(*byte))?;
    }
    Ok(())
}

/// Returns the datagram that a line is about, if it is about one.
fn datagram_of<'a>(traced: &Traced<'a>) -> Option<&'a [u8]>
    ensures { option_map (λ bytes. bytes.now) result ≡ datagram_traced traced.now }
{
    match *traced {
        Traced::BeginsHear(bytes) | Traced::Heard(_, bytes) | Traced::Sent(_, bytes) => Some(bytes),
        _ => None,
    }
}

/// Puts bytes behind the text: in hexadecimal digits, or as those that were written so many
/// datagrams back. Fails if memory runs out.
fn push_bytes(
    alloc: Global,
    text: &mut Vec<u8>,
    bytes: &[u8],
    back: Option<usize>,
) -> Result<(), AllocError>
    ensures { IfOk result
        (λ _. text.new.items ≡ text.old.items ++ shown_bytes back bytes.now) }
{
    match back {
        None => push_hex(text, bytes),
        Some(back) => {
            let again = format!(in alloc; "={back}")?;
            text.extend_from_slice(again.as_bytes())
        }
    }
}

/// Returns the line of a trace, with the time in milliseconds from the start of 1970 on, in UTC.
/// Fails if memory runs out.
fn line_with(
    alloc: Global,
    millis: u64,
    traced: &Traced<'_>,
    back: Option<usize>,
) -> Result<Vec<u8>, AllocError>
    ensures { IfOk result (λ line. line.items ≡ traced_line millis traced.now back) }
{
    let head = format!(in alloc; "@{millis} {traced}")?;
    let mut line = Vec::from_slice(alloc, head.as_bytes())?;
    push_bytes(alloc, &mut line, bytes_of(traced), back)?;
    line.push(b'\n')?;
    Ok(line)
}

/// Returns the line of a trace that has these datagrams lately, with the time in milliseconds from
/// the start of 1970 on, in UTC. A datagram that is among them is named by how many back it was
/// written whole. Another is written whole, and is among them from then on. Fails if memory runs
/// out; then a trace can not go on, since a number might mean another datagram.
pub fn traced_line(
    alloc: Global,
    millis: u64,
    traced: &Traced<'_>,
    recent: &mut Recent,
) -> Result<Vec<u8>, AllocError>
    ensures { IfOk result
        (λ line. IsTraceLine recent.old millis traced.now line.items recent.new) }
{
    let back = match datagram_of(traced) {
        None => None,
        Some(datagram) => recent.note(datagram)?,
    };
    let line = line_with(alloc, millis, traced, back)?;
    Ok(line)
}
