//! A tree built from ascending pairs, layer by layer, in one pass.
#![tactic(auto)]

pub mod building;
mod inner_layer;
mod leaf_layer;
pub mod leaves;
pub mod plan;
pub mod planting;
pub mod rooms;
pub mod subtree;
