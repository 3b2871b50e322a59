//! The ends of a list, and the sides of one of its items.
ghost use Rattle.std.specs.Prelude.{◌≡◌};
ghost use Rattle.bptree_keys.specs.Ends.{is_after, is_back};

/// An end of a list, or of what is left of it.
#[derive(Clone, Copy, Debug, PartialEq, Eq)]
pub enum End {
    /// The end with the first item.
    Front,
    /// The end with the last item.
    Back,
}

impl End {
    /// Returns whether this is the end with the last item.
    ///
    /// O(1). It allocates nothing and cannot fail.
    pub fn is_back(self) -> bool
        ensures { result ≡ is_back self }
    {
        match self {
            End::Front => false,
            End::Back => true,
        }
    }
}

/// A side of an item, in the order of a list.
#[derive(Clone, Copy, Debug, PartialEq, Eq)]
pub enum Side {
    /// The side of the items before the item.
    Before,
    /// The side of the items after the item.
    After,
}

impl Side {
    /// Returns whether this is the side of the items after the item.
    pub fn is_after(self) -> bool
        ensures { result ≡ is_after self }
    {
        match self {
            Side::Before => false,
            Side::After => true,
        }
    }
}
