//! The node of a record.
use paxos_msg::Group;

/// A node of a group.
#[derive(Clone, Copy, Debug, PartialEq, Eq, Hash)]
pub struct Me {
    /// 1 to the group's size.
    pub node: u8,
    pub group: Group,
}
