//! The state of an id that is in use in a slab.
ghost use Rattle.std.specs.Prelude.{◌≡◌};
ghost use Rattle.std.specs.Borrow.{Lends, sem};
ghost use Rattle.bptree_stores.specs.IdState.{IsOccupied};
ghost use Rattle.bptree_stores.specs.contracts.id_state.IdState.{the_row};
ghost use Rattle.bptree_stores.specs.declared.id_state.IdState.TheVariants.{Occupied};

use std::alloc::AllocError;

/// The state of an id that is in use. `H` is the type that contains the node.
#[derive(Drop)]
pub enum IdState<H> {
    /// The id is reserved: its node was not put into the store yet, or was taken out.
    Reserved,
    /// The id has a node.
    Occupied(H),
}

impl<H> IdState<H> {
    /// Returns the holder of the node.
    pub fn holder(&self) -> &H
        requires { IsOccupied self.now }
        ensures { self.now ≡ Occupied result.now }
    {
        match self {
            IdState::Occupied(holder) => holder,
            IdState::Reserved => unreachable!(),
        }
    }

    /// Returns a mutable borrow of the holder of the node.
    pub fn holder_mut(&mut self) -> &mut H
        requires { IsOccupied self.old }
        ensures* writes_back { sem 𝓛 (Lends (the_row H.row) H.row self.entry result Occupied) }
        ensures value { self.old ≡ Occupied result.now }
    {
        match self {
            IdState::Occupied(holder) => holder,
            IdState::Reserved => unreachable!(),
        }
    }
}

impl<H: Clone> Clone for IdState<H> {
    ghost use Rattle.bptree_stores.specs.IdStateClones.{IsIdStateClone};

    ghost is_clone = { IsIdStateClone H.is_clone };

    fn clone(&self) -> Result<Self, AllocError> {
        match self {
            IdState::Reserved => Ok(IdState::Reserved),
            IdState::Occupied(holder) => Ok(IdState::Occupied(holder.clone()?)),
        }
    }
}
