//! Callers of the laws of the contents and of the pieces of a node's keys.
ghost use Rattle.std.specs.Prelude.{◌≡◌, ◌<◌, ◌+◌, ◌^◌, ◌∷◌, ◌++◌, [], List, Some, None, true, false, length};
ghost use Rattle.std.specs.List.Sorted.{IsStrictlySortedBy};
ghost use Rattle.std.specs.declared.cmp.Ordering.TheVariants.{Less, Equal};
ghost use Rattle.bptree_keys.specs.Contents.{IsAscending, gather, has, value, put, del};
ghost use Rattle.bptree_keys.specs.Pieces.{ArePieces, flatten};

use bptree_keys::contents::{law_of_gather, laws_of_del, laws_of_put};
use bptree_keys::key::Key;
use bptree_keys::pieces::piece_laws;

// A value that is put is found at each equal key, and nowhere else. The number of keys grows by one
// if the key is new, and stays if it is not.
fn finds_what_is_put<K: Key, V>()
    ensures there { (l : List (K × V)) → (k j : K) → (v : V) → IsAscending K.cmp l → K.cmp k j ≡ Equal → value K.cmp (put K.cmp l k v) j ≡ Some v }
    ensures elsewhere { (l : List (K × V)) → (k j : K) → (v : V) → IsAscending K.cmp l → K.cmp k j ≡ Less → value K.cmp (put K.cmp l k v) j ≡ value K.cmp l j }
    ensures is_new { (l : List (K × V)) → (k : K) → (v : V) → IsAscending K.cmp l → has K.cmp l k ≡ false → length (put K.cmp l k v) ≡ length l + 1 }
    ensures was_there { (l : List (K × V)) → (k : K) → (v : V) → IsAscending K.cmp l → has K.cmp l k ≡ true → length (put K.cmp l k v) ≡ length l }
{
    laws_of_put::<K, V>();
}

// A deleted key is not found, and other keys keep their values.
fn misses_what_is_deleted<K: Key, V>()
    ensures gone { (l : List (K × V)) → (k j : K) → IsAscending K.cmp l → K.cmp k j ≡ Equal → (value K.cmp (del K.cmp l k) j ≡ None) × (has K.cmp (del K.cmp l k) j ≡ false) }
    ensures elsewhere { (l : List (K × V)) → (k j : K) → IsAscending K.cmp l → K.cmp k j ≡ Less → value K.cmp (del K.cmp l k) j ≡ value K.cmp l j }
    ensures len { (l : List (K × V)) → (k : K) → IsAscending K.cmp l → has K.cmp l k ≡ true → length (del K.cmp l k) + 1 ≡ length l }
{
    laws_of_del::<K, V>();
}

// Puts and deletions keep the order of a gathered list, whatever pairs were gathered.
fn stays_in_order<K: Key, V>()
    ensures { (pairs : List (K × V)) → (k j : K) → (v : V) → IsAscending K.cmp (del K.cmp (put K.cmp (gather K.cmp pairs) k v) j) }
{
    law_of_gather::<K, V>();
    laws_of_put::<K, V>();
    laws_of_del::<K, V>();
}

// One piece is cut in two, and the later part moves to the piece behind it.
fn cuts_and_moves<K: Key>()
    ensures last { (front : List (List K)) → (p part q : List K) → (back : List (List K)) → 0 < length (p ++ part) → 0 < length p → 0 < length q → ArePieces K.cmp (front ++ ((p ++ part) ++ q) ∷ back) → ArePieces K.cmp (front ++ p ∷ (part ++ q) ∷ back) }
    ensures first { (front : List (List K)) → (p part q : List K) → (back : List (List K)) → 0 < length p → 0 < length (part ++ q) → 0 < length q → ArePieces K.cmp (front ++ (p ++ (part ++ q)) ∷ back) → ArePieces K.cmp (front ++ (p ++ part) ∷ q ∷ back) }
{
    piece_laws::<K>();
}

// Three neighbours become one piece, and one piece is left out.
fn joins_and_leaves_out<K: Key>()
    ensures merged { (front : List (List K)) → (p q r : List K) → (back : List (List K)) → ArePieces K.cmp (front ++ p ∷ q ∷ r ∷ back) → ArePieces K.cmp (front ++ ((p ++ q) ++ r) ∷ back) }
    ensures left_out { (front old back : List (List K)) → ArePieces K.cmp (front ++ (old ++ back)) → IsStrictlySortedBy K.cmp (flatten (front ++ ([] ++ back))) → length (flatten (front ++ ([] ++ back))) < 2 ^ 64 → ArePieces K.cmp (front ++ ([] ++ back)) }
    ensures parted { (first second third : List (List K)) → ArePieces K.cmp ((first ++ second) ++ third) → ArePieces K.cmp second }
{
    piece_laws::<K>();
}
