//! Each path by which the library is reached.

pub mod root {
    pub use sweep_bptree::{
        Argument, BPlusTree, BPlusTreeMap, BPlusTreeSet, CloneStore, Count, Cursor, DescendError,
        DescendVisit, DescendVisitResult, ExtractGroupSize, FromRef, GroupCount, InsertError, Key,
        NodeStore, NodeStoreVec, RankArgument, ReplaceError, SearchArgument, SelectError,
        Statistic, Tuple2, VERSION, argument, map, merge_iter, script, set, tree,
    };
}

pub mod of_argument {
    pub use sweep_bptree::argument::{
        Argument, CloneArgument, RankArgument, SearchArgument, count, group,
    };
}

pub mod of_count {
    pub use sweep_bptree::argument::count::Count;
}

pub mod of_group {
    pub use sweep_bptree::argument::group::{ExtractGroupSize, FromRef, GroupCount, Tuple2};
}

pub mod of_map {
    pub use sweep_bptree::map::{
        AppendError, BPlusTreeMap, IntoIter, IntoKeys, IntoValues, Iter, Keys, RetainError, Values,
        law_of_from_iter, laws_of_pages,
    };
}

pub mod of_merge_iter {
    pub use sweep_bptree::merge_iter::{Listed, MergeIterInner, laws_of_merge};
}

pub mod of_script {
    pub use sweep_bptree::script::{
        Command, CommandOn, End, Reply, ReplyOf, ServeError, exit_status, parts_are_lines, run,
        serve,
    };
}

pub mod of_set {
    pub use sweep_bptree::set::{
        AppendError, BPlusTreeSet, Difference, Intersection, IntoIter, Iter, RetainError,
        SymmetricDifference, Union, laws_of_keys, laws_of_two_sets, laws_of_union,
    };
}

pub mod of_tree {
    pub use sweep_bptree::tree::{
        Argument, BPlusTree, Compares, Cursor, InnerNode, InnerNodeId, IntoIter, Iter, Key,
        LeafNode, LeafNodeId, NodeId, NodeStore, NodeStoreVec, RankArgument, SearchArgument,
        SearchHint, Statistic, add_inner, bulk_load, in_load_order, inner_n, leaf_n,
        new_empty_leaf, visit,
    };
}

pub mod of_bulk_load {
    pub use sweep_bptree::tree::bulk_load::{DeDupKeepLast, DedupByExt};
}

pub mod of_visit {
    pub use sweep_bptree::tree::visit::{DescendError, DescendVisit, DescendVisitResult};
}
