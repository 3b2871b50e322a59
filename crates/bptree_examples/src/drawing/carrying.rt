//! Changes the map that is drawn, as a line requests.
ghost use Rattle.std.specs.Prelude.{◌≡◌, Some, OnOk, OnErr};
ghost use Rattle.bptree_protocol.specs.Request.{request_of};
ghost use Rattle.bptree_commands.specs.ReplyLists.{pairs_with, pairs_with_put};

use bptree_protocol::{Request, read_request};
use std::alloc::AllocError;
use sweep_bptree::{BPlusTreeMap, Count, InsertError};

// Puts a pair. If the map is full for a new key, nothing changes.
fn put(map: &mut BPlusTreeMap<u64, u64, Count>, key: u64, value: u64) -> Result<(), AllocError>
    ensures pairs { OnOk result (map.new ≡ pairs_with_put map.old key value) }
    ensures unchanged { OnErr result (map.new ≡ map.old) }
{
    match map.insert(key, value) {
        Ok(_) => Ok(()),
        Err(InsertError::Full(_, _)) => Ok(()),
        Err(InsertError::OutOfMemory(_, _)) => Err(AllocError),
    }
}

fn change(map: &mut BPlusTreeMap<u64, u64, Count>, request: Request) -> Result<(), AllocError>
    ensures pairs { OnOk result (map.new ≡ pairs_with map.old (Some request)) }
    ensures unchanged { OnErr result (map.new ≡ map.old) }
{
    match request {
        Request::Put(key, value) => put(map, key, value),
        Request::Del(key) => {
            map.remove(&key)?;
            Ok(())
        }
        Request::Clear => map.clear(),
        Request::Get(_) => Ok(()),
        Request::Len => Ok(()),
        Request::All => Ok(()),
        Request::First => Ok(()),
        Request::Last => Ok(()),
        Request::At(_) => Ok(()),
        Request::Rank(_) => Ok(()),
        Request::Next(_) => Ok(()),
        Request::Prev(_) => Ok(()),
        Request::Back => Ok(()),
        Request::Range(_, _) => Ok(()),
        Request::Page(_, _) => Ok(()),
    }
}

/// Carries out the request of a line, which puts a pair, removes one or clears the map. Other
/// requests change nothing. Returns whether the line is a request. If an allocation fails, the map
/// is unchanged.
pub fn carry_out(map: &mut BPlusTreeMap<u64, u64, Count>, line: &[u8]) -> Result<bool, AllocError>
    ensures pairs { OnOk result (map.new ≡ pairs_with map.old (request_of line.now)) }
    ensures unchanged { OnErr result (map.new ≡ map.old) }
{
    match read_request(line) {
        Some(request) => {
            change(map, request)?;
            Ok(true)
        }
        None => Ok(false),
    }
}
