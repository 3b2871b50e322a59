//! Parts of the pairs in the leaves of a store, with their two ends and what is known of their
//! length.
use bptree_keys::node_id::Position;

/// How the limit of a part relates to the number of its pairs.
#[derive(Clone, Copy, Debug, Drop)]
pub enum PartLen {
    /// The limit is the number of pairs between the two positions.
    Exact,
    /// The limit is at least the number of pairs between the two positions.
    Open,
    /// The part is the first pairs between the two positions: as many as the limit, or all of them
    /// if there are fewer.
    Cut,
}

/// The pairs between two positions.
#[derive(Clone, Copy, Debug, Drop)]
pub struct Part {
    /// The position of the first pair, or the end of the leaf before it.
    pub front: Position,
    /// The position behind the last pair, or the start of the leaf after it.
    pub back: Position,
    /// A limit on the number of pairs between the two positions, of the kind that `extent` says.
    pub limit: usize,
    /// How `limit` relates to the number of pairs.
    pub extent: PartLen,
}
