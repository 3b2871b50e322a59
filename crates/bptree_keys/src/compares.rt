//! Comparisons of keys, counted.
ghost use Rattle.std.specs.Prelude.{◌≡◌, ◌+◌, ◌^◌, ◌<◌, ◌≤◌, ℕ, min, length, IfOk};
ghost use Rattle.std.specs.List.{HoldsAt};
ghost use Rattle.std.specs.List.Sorted.{IsBinarySearchResult, IsSearchInRange, IsStrictlySortedBy};
ghost use Rattle.bptree_keys.specs.Locate.{locate, CountsUpTo};
ghost use Rattle.bptree_keys.specs.Searches.{IsAmong, IsAbove, CountsAmong, CountsOne};

use crate::key::Key;
use std::cmp::Ordering;
use std::marker::Model;
use std::mem::size_of_val;

/// The greatest size, in bytes, of a key that is taken to contain all that a comparison reads.
pub(crate) const LONG: usize = 16;

// The greatest size, in bytes, of a key that is searched for with branches in the first two steps
// alone if the keys are in no cache. For a longer one each step branches.
const WORD: usize = 8;

// The number of levels of inner nodes below which a leaf is taken to be in no cache.
const FAR_LEVELS: usize = 3;

// The size of all keys of a tree, in bytes, from which on its leaves are taken to be in no cache.
const FAR_BYTES: usize = 1 << 19;

/// A guess about the keys of a leaf. The hint selects how the leaf is searched, and never changes
/// what is found.
#[derive(Clone, Copy, Debug, Drop)]
pub enum SearchHint {
    /// The keys are expected in a cache of the processor.
    Near,
    /// The keys are expected in no cache. The search branches, so that the next key is fetched
    /// before a comparison is done.
    Far,
    /// All keys are expected to be smaller than the searched key. The last key is compared first.
    Last,
}

impl SearchHint {
    /// Returns the hint for a leaf below `levels` levels of inner nodes: `Far` from three levels
    /// on.
    ///
    /// O(1). It allocates nothing and cannot fail.
    pub fn below(levels: usize) -> Self {
        if levels >= FAR_LEVELS {
            SearchHint::Far
        } else {
            SearchHint::Near
        }
    }

    /// Returns the hint for a leaf of a tree of `pairs` pairs with keys like `key`: `Far` if the
    /// keys take half a mebibyte or more.
    ///
    /// O(1). It allocates nothing and cannot fail.
    #[inline(always)]
    pub fn among<K>(pairs: usize, key: &K) -> Self {
        if pairs >= FAR_BYTES / size_of_val(key).max(1) {
            SearchHint::Far
        } else {
            SearchHint::Near
        }
    }
}

/// A counter of comparisons, which saturates at `usize::MAX`.
#[derive(Drop)]
pub struct Compares {
    count: usize,
}

impl Model for Compares {
    ghost use Rattle.std.specs.Prelude.{ℕ};

    ghost Value = { ℕ };

    ghost view = { λ c. c.count };
}

impl Compares {
    /// Creates a counter with the count 0.
    ///
    /// O(1). It allocates nothing and cannot fail.
    pub fn new() -> Self
        ensures { result ≡ 0 }
    {
        Compares { count: 0 }
    }

    /// Returns the number of counted comparisons.
    ///
    /// O(1). It allocates nothing and cannot fail.
    pub fn count(&self) -> usize
        ensures { result ≡ self.now }
    {
        self.count
    }

    /// Compares two keys and adds one to the count.
    ///
    /// O(1) beside the comparison. It cannot fail.
    pub fn compare<K: Ord>(&mut self, a: &K, b: &K) -> Ordering
        ensures order { result ≡ K.cmp a.now b.now }
        ensures count { self.new ≡ min (self.old + 1) usize.MAX }
        ensures counts_on { self.old ≤ self.new }
    {
        self.count = self.count.saturating_add(1);
        a.cmp(b)
    }
}

// Narrows the search for `key` from the `width` keys from `base` on to `few` of them, and returns
// the index of the first of these. Each step halves the keys and moves by a product, so that the
// compiler emits no branch on a comparison, which would be mispredicted half of the time.
#[inline(always)]
fn halved<K: Ord>(
    keys: &[K],
    key: &K,
    base: usize,
    width: usize,
    few: usize,
    compares: &mut Compares,
) -> usize
    requires few { (0 < few) × (few ≤ 2) × (few ≤ width) }
    requires within { base + width ≤ length keys.now }
    requires among { IsAmong (λ y. K.cmp y key.now) keys.now base width }
    ensures within { result + few ≤ length keys.now }
    ensures among { IsAmong (λ y. K.cmp y key.now) keys.now result few }
    ensures counts_on { compares.old ≤ compares.new }
    ensures count { (steps : ℕ) → width ≤ 2 ^ steps → compares.new + few ≤ compares.old + steps + 1 }
{
    let mut first = base;
    let mut left = width;
    'halves: while left > few {
        let half = left / 2;
        let is_past = compares.compare(&keys[first + half], key).is_le();
        first += usize::from(is_past) * half;
        left -= half;
    }
    first
}

// Finds `key` if its index is among the `width` keys from `base` on.
#[inline(always)]
fn search_among<K: Ord>(
    keys: &[K],
    key: &K,
    base: usize,
    width: usize,
    compares: &mut Compares,
) -> Result<usize, usize>
    requires some { 0 < width }
    requires within { base + width ≤ length keys.now }
    requires among { IsAmong (λ y. K.cmp y key.now) keys.now base width }
    ensures in_range { IsSearchInRange result (length keys.now) }
    ensures position { IsBinarySearchResult (λ y. K.cmp y key.now) keys.now result }
    ensures counts_on { compares.old ≤ compares.new }
    ensures counts { CountsOne compares.old compares.new }
    ensures count { (steps : ℕ) → width ≤ 2 ^ steps → compares.new ≤ compares.old + steps + 1 }
{
    let first = halved(keys, key, base, width, 1, compares);
    let ordering = compares.compare(&keys[first], key);
    if ordering.is_eq() {
        Ok(first)
    } else {
        Err(first + usize::from(ordering.is_lt()))
    }
}

// Finds `key` as `search_among` does, but compares both of the last two keys at once, so that the
// search waits for one comparison fewer. No branch depends on either comparison.
#[inline(always)]
fn search_beside<K: Ord>(
    keys: &[K],
    key: &K,
    base: usize,
    width: usize,
    compares: &mut Compares,
) -> Result<usize, usize>
    requires several { 1 < width }
    requires within { base + width ≤ length keys.now }
    requires among { IsAmong (λ y. K.cmp y key.now) keys.now base width }
    ensures in_range { IsSearchInRange result (length keys.now) }
    ensures position { IsBinarySearchResult (λ y. K.cmp y key.now) keys.now result }
    ensures counts_on { compares.old ≤ compares.new }
    ensures counts { CountsOne compares.old compares.new }
    ensures count { (steps : ℕ) → width ≤ 2 ^ steps → compares.new ≤ compares.old + steps + 1 }
{
    let first = halved(keys, key, base, width, 2, compares);
    let lower = compares.compare(&keys[first], key);
    let upper = compares.compare(&keys[first + 1], key);
    let slot = first + usize::from(lower.is_lt()) + usize::from(upper.is_lt());
    let past = first + usize::from(lower.is_le()) + usize::from(upper.is_le());
    if past > slot {
        Ok(first + usize::from(upper.is_eq()))
    } else {
        Err(slot)
    }
}

// Finds `key` among `width` to twice `width` keys: in the first `width` keys or in the last `width`
// keys, which may overlap. So the width of each step is known at compile time.
#[inline(always)]
fn search_ends<K: Ord>(
    keys: &[K],
    key: &K,
    width: usize,
    compares: &mut Compares,
) -> Result<usize, usize>
    requires some { 0 < width }
    requires within { (width ≤ length keys.now) × (length keys.now ≤ width + width) }
    ensures in_range { IsSearchInRange result (length keys.now) }
    ensures position { IsBinarySearchResult (λ y. K.cmp y key.now) keys.now result }
    ensures counts_on { compares.old ≤ compares.new }
    ensures counts { CountsOne compares.old compares.new }
    ensures count { (steps : ℕ) → width ≤ 2 ^ steps → compares.new ≤ compares.old + steps + 2 }
{
    let rest = keys.len() - width;
    let is_past = compares.compare(&keys[rest], key).is_le();
    search_among(keys, key, usize::from(is_past) * rest, width, compares)
}

// Finds `key` among 16 keys or more: in the first 32 of them or the last 32, and of those in the
// first 16 or the last 16, which may overlap. So the width of each later step is known at compile
// time, and no branch depends on the number of keys.
#[inline(always)]
fn search_many<K: Ord>(keys: &[K], key: &K, compares: &mut Compares) -> Result<usize, usize>
    requires { (16 ≤ length keys.now) × (length keys.now ≤ 64) }
    ensures in_range { IsSearchInRange result (length keys.now) }
    ensures position { IsBinarySearchResult (λ y. K.cmp y key.now) keys.now result }
    ensures counts_on { compares.old ≤ compares.new }
    ensures counts { CountsOne compares.old compares.new }
    ensures count { compares.new ≤ compares.old + 7 }
{
    let count = keys.len();
    let rest = count.saturating_sub(32);
    let is_past = compares.compare(&keys[rest], key).is_le();
    let step = count - rest - 16;
    search_later(keys, key, usize::from(is_past) * rest, step, compares)
}

// Finds `key` if its index is among the `step + 16` keys from `base` on.
#[inline(always)]
fn search_later<K: Ord>(
    keys: &[K],
    key: &K,
    base: usize,
    step: usize,
    compares: &mut Compares,
) -> Result<usize, usize>
    requires step { step ≤ 16 }
    requires within { base + (step + 16) ≤ length keys.now }
    requires among { IsAmong (λ y. K.cmp y key.now) keys.now base (step + 16) }
    ensures in_range { IsSearchInRange result (length keys.now) }
    ensures position { IsBinarySearchResult (λ y. K.cmp y key.now) keys.now result }
    ensures counts_on { compares.old ≤ compares.new }
    ensures counts { CountsOne compares.old compares.new }
    ensures count { compares.new ≤ compares.old + 6 }
{
    let is_past = compares.compare(&keys[base + step], key).is_le();
    search_among(keys, key, base + usize::from(is_past) * step, 16, compares)
}

// Finds `key` among fewer than 16 keys. This function is not inlined, so that the search in a node
// with more keys is.
#[inline(never)]
fn search_few<K: Ord>(keys: &[K], key: &K, compares: &mut Compares) -> Result<usize, usize>
    requires few { length keys.now < 16 }
    ensures in_range { IsSearchInRange result (length keys.now) }
    ensures position { IsBinarySearchResult (λ y. K.cmp y key.now) keys.now result }
    ensures counts_on { compares.old ≤ compares.new }
    ensures counts { 0 < length keys.now → CountsOne compares.old compares.new }
    ensures count { compares.new ≤ compares.old + 7 }
{
    let count = keys.len();
    if count >= 8 {
        search_ends(keys, key, 8, compares)
    } else if count >= 4 {
        search_ends(keys, key, 4, compares)
    } else if count >= 2 {
        search_ends(keys, key, 2, compares)
    } else if count == 1 {
        search_ends(keys, key, 1, compares)
    } else {
        Err(0)
    }
}

// Finds `key` as `search_later` does, but the step branches and each branch continues by itself, so
// that the next key can be fetched before the comparison is done.
#[inline(always)]
fn search_by_branch<K: Ord>(
    keys: &[K],
    key: &K,
    base: usize,
    step: usize,
    compares: &mut Compares,
) -> Result<usize, usize>
    requires step { step ≤ 16 }
    requires within { base + (step + 16) ≤ length keys.now }
    requires among { IsAmong (λ y. K.cmp y key.now) keys.now base (step + 16) }
    ensures in_range { IsSearchInRange result (length keys.now) }
    ensures position { IsBinarySearchResult (λ y. K.cmp y key.now) keys.now result }
    ensures counts_on { compares.old ≤ compares.new }
    ensures counts { CountsOne compares.old compares.new }
    ensures count { compares.new ≤ compares.old + 6 }
{
    if compares.compare(&keys[base + step], key).is_le() {
        search_beside(keys, key, base + step, 16, compares)
    } else {
        search_beside(keys, key, base, 16, compares)
    }
}

// Finds `key` among keys that are expected in no cache of the processor, with two branches first.
#[inline(never)]
fn search_far<K: Ord>(keys: &[K], key: &K, compares: &mut Compares) -> Result<usize, usize>
    requires few { length keys.now ≤ 64 }
    ensures in_range { IsSearchInRange result (length keys.now) }
    ensures position { IsBinarySearchResult (λ y. K.cmp y key.now) keys.now result }
    ensures counts_on { compares.old ≤ compares.new }
    ensures counts { 0 < length keys.now → CountsOne compares.old compares.new }
    ensures count { compares.new ≤ compares.old + 7 }
{
    let count = keys.len();
    if count < 16 {
        return search_few(keys, key, compares);
    }
    let rest = count.saturating_sub(32);
    let step = count - rest - 16;
    if compares.compare(&keys[rest], key).is_le() {
        search_by_branch(keys, key, rest, step, compares)
    } else {
        search_by_branch(keys, key, 0, step, compares)
    }
}

// Finds `key` among the first `end` keys, after which all keys are greater. Each step excludes the
// key that it compared, and an equal key ends the search. So the search makes the fewest
// comparisons, which matters for keys that are long or point elsewhere.
#[inline(never)]
fn search_halves<K: Ord>(
    keys: &[K],
    key: &K,
    end: usize,
    compares: &mut Compares,
) -> Result<usize, usize>
    requires within { end ≤ length keys.now }
    requires above { IsAbove (λ y. K.cmp y key.now) keys.now end }
    ensures in_range { IsSearchInRange result (length keys.now) }
    ensures position { IsBinarySearchResult (λ y. K.cmp y key.now) keys.now result }
    ensures counts_on { compares.old ≤ compares.new }
    ensures counts { 0 < end → CountsOne compares.old compares.new }
    ensures count { (steps : ℕ) → end < 2 ^ steps → compares.new ≤ compares.old + steps }
{
    let mut low = 0usize;
    let mut high = end;
    'halves: while low < high {
        let middle = low + (high - low) / 2;
        match compares.compare(&keys[middle], key) {
            Ordering::Less => low = middle + 1,
            Ordering::Equal => return Ok(middle),
            Ordering::Greater => high = middle,
        }
    }
    Err(low)
}

// Finds `key` among keys that are all expected to be smaller: the last key is compared first.
#[inline(never)]
fn search_from_end<K: Ord>(keys: &[K], key: &K, compares: &mut Compares) -> Result<usize, usize>
    requires few { length keys.now ≤ 64 }
    ensures in_range { IsSearchInRange result (length keys.now) }
    ensures position { IsBinarySearchResult (λ y. K.cmp y key.now) keys.now result }
    ensures counts_on { compares.old ≤ compares.new }
    ensures counts { 0 < length keys.now → CountsOne compares.old compares.new }
    ensures count { compares.new ≤ compares.old + 7 }
{
    let count = keys.len();
    if count == 0 {
        return Err(0);
    }
    let last = count - 1;
    match compares.compare(&keys[last], key) {
        Ordering::Less => Err(count),
        Ordering::Equal => Ok(last),
        Ordering::Greater => search_halves(keys, key, last, compares),
    }
}

/// Finds `key` among ascending `keys`: returns `Ok` of its index, or `Err` of the number of smaller
/// keys.
#[inline(always)]
pub fn locate_counted<K: Ord>(keys: &[K], key: &K, compares: &mut Compares) -> Result<usize, usize>
    requires { length keys.now ≤ 64 }
    ensures in_range { IsSearchInRange result (length keys.now) }
    ensures found { IfOk result (HoldsAt (λ y. K.cmp y key.now ≡ Ordering.Equal) keys.now) }
    ensures ascending { IsStrictlySortedBy K.cmp keys.now → result ≡ locate K.cmp keys.now key.now }
    ensures counts_on { compares.old ≤ compares.new }
    ensures counts { 0 < length keys.now → CountsOne compares.old compares.new }
    ensures count { compares.new ≤ compares.old + 7 }
{
    if size_of_val(key) > LONG {
        search_halves(keys, key, keys.len(), compares)
    } else if keys.len() < 16 {
        search_few(keys, key, compares)
    } else {
        search_many(keys, key, compares)
    }
}

/// Finds `key` among the ascending keys of a leaf in the manner that `hint` selects: returns `Ok`
/// of its index, or `Err` of the number of smaller keys.
#[inline(always)]
pub fn locate_hinted_counted<K: Ord>(
    keys: &[K],
    key: &K,
    hint: SearchHint,
    compares: &mut Compares,
) -> Result<usize, usize>
    requires { length keys.now ≤ 64 }
    ensures in_range { IsSearchInRange result (length keys.now) }
    ensures found { IfOk result (HoldsAt (λ y. K.cmp y key.now ≡ Ordering.Equal) keys.now) }
    ensures ascending { IsStrictlySortedBy K.cmp keys.now → result ≡ locate K.cmp keys.now key.now }
    ensures counts_on { compares.old ≤ compares.new }
    ensures counts { 0 < length keys.now → CountsOne compares.old compares.new }
    ensures count { compares.new ≤ compares.old + 7 }
{
    match hint {
        SearchHint::Far if size_of_val(key) <= WORD => search_far(keys, key, compares),
        SearchHint::Far => search_halves(keys, key, keys.len(), compares),
        SearchHint::Last => search_from_end(keys, key, compares),
        _ => locate_counted(keys, key, compares),
    }
}

// Returns how many of ascending `keys` are not greater than `key`, if that is one of the `width`
// numbers from `base` on.
#[inline(always)]
fn count_among<K: Ord>(
    keys: &[K],
    key: &K,
    base: usize,
    width: usize,
    compares: &mut Compares,
) -> usize
    requires some { 0 < width }
    requires within { base + width ≤ length keys.now + 1 }
    requires among { CountsAmong (λ y. K.cmp y key.now) keys.now base width }
    ensures in_range { result ≤ length keys.now }
    ensures ascending { CountsUpTo K.cmp key.now keys.now result }
    ensures counts_on { compares.old ≤ compares.new }
    ensures count { (steps : ℕ) → width ≤ 2 ^ steps → compares.new ≤ compares.old + steps }
{
    let mut first = base;
    let mut left = width;
    'halves: while left > 1 {
        let half = left / 2;
        let is_past = compares.compare(&keys[first + half - 1], key).is_le();
        first += usize::from(is_past) * half;
        left -= half;
    }
    first
}

// Returns how many of more than 16 ascending `keys` are not greater than `key`. The last key is
// compared first, so a key that is greater than all of them needs no further comparison.
#[inline(always)]
fn count_upto_many<K: Ord>(keys: &[K], key: &K, compares: &mut Compares) -> usize
    requires { (16 < length keys.now) × (length keys.now ≤ 64) }
    ensures in_range { result ≤ length keys.now }
    ensures ascending { CountsUpTo K.cmp key.now keys.now result }
    ensures counts_on { compares.old ≤ compares.new }
    ensures count { compares.new ≤ compares.old + 7 }
{
    let count = keys.len();
    if compares.compare(&keys[count - 1], key).is_le() {
        return count;
    }
    let rest = count.saturating_sub(32);
    let is_past = compares.compare(&keys[rest.saturating_sub(1)], key).is_le();
    let step = count - rest - 16;
    count_later(keys, key, usize::from(is_past) * rest, step, compares)
}

// Returns how many of ascending `keys` are not greater than `key`, if that is one of the
// `step + 16` numbers from `base` on.
#[inline(always)]
fn count_later<K: Ord>(
    keys: &[K],
    key: &K,
    base: usize,
    step: usize,
    compares: &mut Compares,
) -> usize
    requires step { (0 < step) × (step ≤ 16) }
    requires within { base + (step + 16) ≤ length keys.now }
    requires among { CountsAmong (λ y. K.cmp y key.now) keys.now base (step + 16) }
    ensures in_range { result ≤ length keys.now }
    ensures ascending { CountsUpTo K.cmp key.now keys.now result }
    ensures counts_on { compares.old ≤ compares.new }
    ensures count { compares.new ≤ compares.old + 5 }
{
    let is_past = compares.compare(&keys[base + step - 1], key).is_le();
    count_among(keys, key, base + usize::from(is_past) * step, 16, compares)
}

// Returns how many of at most seven ascending `keys` are not greater than `key`. No comparison
// waits for another one.
#[inline(always)]
fn count_upto_few<K: Ord>(keys: &[K], key: &K, compares: &mut Compares) -> usize
    requires { length keys.now ≤ 7 }
    ensures in_range { result ≤ length keys.now }
    ensures ascending { CountsUpTo K.cmp key.now keys.now result }
    ensures counts_on { compares.old ≤ compares.new }
    ensures count { compares.new ≤ compares.old + 7 }
{
    let mut upto = 0usize;
    let mut at = 0usize;
    'keys: while at < keys.len() {
        upto += usize::from(compares.compare(&keys[at], key).is_le());
        at += 1;
    }
    upto
}

/// Returns how many of ascending `keys` are not greater than `key`.
#[inline(always)]
pub fn count_upto_counted<K: Key>(keys: &[K], key: &K, compares: &mut Compares) -> usize
    requires { length keys.now ≤ 64 }
    ensures in_range { result ≤ length keys.now }
    ensures ascending { CountsUpTo K.cmp key.now keys.now result }
    ensures counts_on { compares.old ≤ compares.new }
    ensures count { compares.new ≤ compares.old + 7 }
{
    let count = keys.len();
    if count > 0 && keys[0].compares_in_place(&keys[count - 1]) {
        if count > 16 {
            return count_upto_many(keys, key, compares);
        }
        if count < 8 {
            return count_upto_few(keys, key, compares);
        }
    }
    match locate_counted(keys, key, compares) {
        Ok(slot) => slot + 1,
        Err(slot) => slot,
    }
}
