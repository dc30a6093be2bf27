//! What a full connection conducts.

// The conductance between two empty cells that lie side by side. Those between a cell and a group
// are twice as great; two groups are never near.
const NEAR: u32 = 1 << 20;

// The conductance between two empty cells that are joined otherwise, as by a bridge.
const JOINED: u32 = 873_813;

// The same between two groups. They are as good as one.
const GROUPS: u32 = 10_485_760;

/// What a full connection joins, and how.
#[derive(Clone, Copy, Debug, PartialEq, Eq)]
pub struct Joint {
    /// Whether its elements lie side by side.
    pub is_near: bool,
    pub first_is_group: bool,
    pub second_is_group: bool,
}

/// The conductance of a full connection.
pub(crate) fn conductance(joint: Joint) -> u32 {
    match (joint.is_near, joint.first_is_group, joint.second_is_group) {
        (true, false, false) => NEAR,
        (true, _, _) => 2 * NEAR,
        (false, false, false) => JOINED,
        (false, true, true) => GROUPS,
        (false, _, _) => 2 * JOINED,
    }
}
