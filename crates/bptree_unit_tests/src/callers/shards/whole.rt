//! Callers of the laws of indices and of parts.
ghost use Rattle.std.specs.Prelude.{◌≡◌, ◌+◌, ◌<◌, ℕ, List, [], ◌∷◌, length, slice_get};
ghost use Rattle.bptree_keys.specs.Pieces.{flatten, start_of};
ghost use Rattle.bptree_keys.specs.Ranges.{part};
ghost use Rattle.bptree_keys.specs.Contents.{last_member};
ghost use Rattle.bptree_shard_routing.specs.Lengths.{lengths_of, ArePartsOf};

use bptree_shard_routing::whole::{laws_of_indexes, laws_of_parts};

// Two shards: their number of members, the member at an index of the first, and the two ends if
// each shard has a member.
fn reports_of_two<T>()
    ensures len { (a b : List T) → length (flatten (a ∷ b ∷ [])) ≡ length a + length b }
    ensures start { (a b : List T) → start_of (a ∷ b ∷ []) 1 ≡ length a }
    ensures at { (a b : List T) → (i : ℕ) → i < length a → slice_get (flatten (a ∷ b ∷ [])) i ≡ slice_get a i }
    ensures first { (a b : List T) → 0 < length a → slice_get (flatten (a ∷ b ∷ [])) 0 ≡ slice_get a 0 }
    ensures last { (a b : List T) → 0 < length b → last_member (flatten (a ∷ b ∷ [])) ≡ last_member b }
{
    laws_of_indexes::<T>();
}

// A page without parts is empty.
fn shows_none_of_no_part<T>()
    ensures { (shards : List (List T)) → (index n : ℕ) → ArePartsOf (lengths_of shards) index n [] → part (flatten shards) index n ≡ [] }
{
    laws_of_parts::<T>();
}
