//! What arguments ask for.
use std::net::SocketAddr;

/// A command, with the values of its arguments. Paths and digits are as they were typed.
#[derive(Drop)]
pub enum Request<'a> {
    Check {
        file: &'a str,
    },
    List {
        file: &'a str,
    },
    /// `steps` is how many steps the run has at most.
    Run {
        file: &'a str,
        steps: u32,
    },
    /// `steps` is how many steps the run has at most.
    State {
        file: &'a str,
        steps: u32,
    },
    /// `steps` is how many steps the frozen program has at most.
    Frozen {
        file: &'a str,
        steps: u32,
    },
    /// The group of the datagram, and its bytes in digits, which are not looked at.
    Show {
        size: u8,
        session: u32,
        digits: &'a str,
    },
    Sim {
        file: &'a str,
        script: &'a str,
    },
    /// `turns` is how many turns each node has.
    Net {
        file: &'a str,
        size: u8,
        turns: u32,
    },
    Node(NodeArguments<'a>),
}

/// The values of the arguments of `node`. Whether a group of the size has such a node is not looked
/// at.
#[derive(Drop)]
pub struct NodeArguments<'a> {
    pub file: &'a str,
    /// The number of the node.
    pub node: u8,
    /// How many nodes the group has.
    pub size: u8,
    pub session: u32,
    /// The path of the record, which is not empty.
    pub record: &'a str,
    /// How many turns the node has.
    pub turns: u32,
    /// The address of each node in order: as many as `size`, and no two the same.
    pub addresses: Vec<SocketAddr>,
    /// How many bytes of the output were seen before.
    pub seen: u64,
    /// True if the node is to campaign before the first turn.
    pub campaigns: bool,
    /// Where typed bytes come as datagrams, if not on standard input. No node has this address.
    pub keys: Option<SocketAddr>,
}
