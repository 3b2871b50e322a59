//! Callers that ask which shard serves a call.
ghost use Rattle.std.specs.Prelude.{◌≡◌};

use bptree_keys::key::Key;
use bptree_shard_routing::routing::{route, route_below, route_range};

// A key that equals a bound belongs to the shard behind the bound.
fn goes_behind_its_bound() -> (usize, usize, usize, usize)
    ensures { result ≡ (0, 1, 1, 2) }
{
    let bounds = [10u64, 20];
    (
        route(&bounds, &9),
        route(&bounds, &10),
        route(&bounds, &19),
        route(&bounds, &20),
    )
}

// The keys below a bound are in the shards before it.
fn looks_before_its_bound() -> (usize, usize, usize)
    ensures { result ≡ (0, 0, 1) }
{
    let bounds = [10u64, 20];
    (
        route_below(&bounds, &9),
        route_below(&bounds, &10),
        route_below(&bounds, &11),
    )
}

// A single shard has every key.
fn has_each_key_of_one_shard<K: Key>(k: &K) -> (usize, usize)
    ensures { result ≡ (0, 0) }
{
    (route(&[], k), route_below(&[], k))
}

// Without bounds every shard is read. Between two bounds only the shards with keys between them are read.
fn asks_between_bounds() -> ((usize, usize), (usize, usize), (usize, usize))
    ensures { result ≡ ((0, 2), (1, 1), (1, 2)) }
{
    let bounds = [10u64, 20];
    (
        route_range(&bounds, None, None),
        route_range(&bounds, Some(&10), Some(&20)),
        route_range(&bounds, Some(&10), Some(&21)),
    )
}
