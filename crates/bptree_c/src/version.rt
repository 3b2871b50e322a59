//! The version of the library.
ghost use Rattle.std.specs.Prelude.{◌≡◌};

/// The version as `major * 1000000 + minor * 1000 + patch`.
///
/// O(1). It allocates nothing and cannot fail.
#[unsafe(no_mangle)]
pub extern "C" fn bptree_version() -> u32
    ensures version { result ≡ 10004 }
{
    10004
}
