//! What is stored for a node, and for a list.

/// The neighbours of a node: the nodes before and after it in its page list, and in its waiting list if it stands in one. `None`
/// where there is none on that side.
#[derive(Clone, Copy, Debug, PartialEq, Eq)]
pub struct LinkNode {
    pub before: Option<u32>,
    pub after: Option<u32>,
    pub wait_before: Option<u32>,
    pub wait_after: Option<u32>,
}

/// A node with the numbers of the lists where it stands. A free node stands in none, and the next free one is after it.
#[derive(Clone, Copy, Debug, PartialEq, Eq)]
pub struct Slot {
    pub node: LinkNode,
    pub page: Option<u32>,
    pub origin: Option<u32>,
}

/// The first and the last node of a list.
#[derive(Clone, Copy, Debug, PartialEq, Eq)]
pub struct Ends {
    pub first: Option<u32>,
    pub last: Option<u32>,
}
