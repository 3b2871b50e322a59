//! Removals of the pair at an end of a map from byte strings.
ghost use Rattle.std.specs.Prelude.{◌≡◌, [], None, Ok, IfOk, OnErr, length, slice_get};
ghost use Rattle.std.specs.Map.Iter.{TakesFirst, TakesLast};
ghost use Rattle.std.specs.Option.{option_map};
ghost use Rattle.bptree_c_maps.specs.DictEnds.{HasPopCode, fits_in};
ghost use Rattle.bptree_keys.specs.Contents.{last_member};

use crate::bytes::Bytes;
use crate::dict::copy;
use crate::dict_handle::Dict;
use crate::results::{ABSENT, NO_MEMORY, REMOVED};
use std::alloc::AllocError;

/// Returns the number of bytes of the least key, or `None`. O(log n). It allocates nothing and
/// cannot fail.
pub fn first_length(dict: &Dict) -> Option<usize>
    ensures { result ≡ option_map (λ pair. length pair.0) (slice_get dict.now 0) }
{
    match dict.pairs.first() {
        Some((key, _)) => Some(key.as_slice().len()),
        None => None,
    }
}

/// Removes the pair with the least key, and returns it, or `None`. O(log n). It fails only if a
/// copy of a key fails; then the map is unchanged.
pub fn pop_first_in(dict: &mut Dict) -> Result<Option<(Bytes, u64)>, AllocError>
    ensures ok { IfOk result (λ gone. TakesFirst (λ pair. pair) dict.old gone dict.new) }
    ensures empty { dict.old ≡ [] → (result ≡ Ok None) × (dict.new ≡ dict.old) }
    ensures unchanged { OnErr result (dict.new ≡ dict.old) }
{
    dict.pairs.pop_first()
}

/// Returns the result of a removal. A pair is written if one was removed; otherwise nothing is
/// written. O(k) for k bytes of the key. It allocates nothing and cannot fail.
pub fn write_popped(
    outcome: Result<Option<(Bytes, u64)>, AllocError>,
    out: &mut [u8],
    len: &mut usize,
    value: &mut u64,
) -> u32
    requires { fits_in outcome out.old }
    ensures { HasPopCode outcome result out.old (out.old, len.old, value.old) (out.new, len.new, value.new) }
{
    match outcome {
        Ok(Some((key, it))) => {
            *len = copy(key.as_slice(), out);
            *value = it;
            REMOVED
        }
        Ok(None) => ABSENT,
        Err(_) => NO_MEMORY,
    }
}

/// Returns the number of bytes of the greatest key, or `None`. O(log n). It allocates nothing and
/// cannot fail.
pub fn last_length(dict: &Dict) -> Option<usize>
    ensures { result ≡ option_map (λ pair. length pair.0) (last_member dict.now) }
{
    match dict.pairs.last() {
        Some((key, _)) => Some(key.as_slice().len()),
        None => None,
    }
}

/// Removes the pair with the greatest key, and returns it, or `None`. O(log n). It fails only if a
/// copy of a key fails; then the map is unchanged.
pub fn pop_last_in(dict: &mut Dict) -> Result<Option<(Bytes, u64)>, AllocError>
    ensures ok { IfOk result (λ gone. TakesLast (λ pair. pair) dict.old gone dict.new) }
    ensures empty { dict.old ≡ [] → (result ≡ Ok None) × (dict.new ≡ dict.old) }
    ensures unchanged { OnErr result (dict.new ≡ dict.old) }
{
    dict.pairs.pop_last()
}
