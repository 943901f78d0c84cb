//! The wire and the keyboard of a node.

/// Where the datagrams and the typed bytes of a node come from, and what a request has left to do.
#[derive(Drop)]
pub struct Endpoints<T, K> {
    pub wire: T,
    pub keyboard: K,
    /// How often the node may still campaign again for the last request to campaign. No clause
    /// bounds what a caller passes. An answered request sets it to 3 or 0; nothing else raises it.
    pub retries: u8,
}
