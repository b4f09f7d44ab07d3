//! Keys of a table: taken out and listed; and the same keys in std's maps, since arrays have an
//! order and a hash.
ghost use Rattle.ga_uses.specs.KeyTable.{entries_from_to, value_at, with_entry};
ghost use Rattle.std.specs.Cmp.Lexicographic.{pointwise};
ghost use Rattle.std.specs.HashMap as hash;
ghost use Rattle.std.specs.Prelude.{◌≡◌, ◌≢◌, IfOk, IsTrue, OnErr, OnOk, Some, map, nat_eq};

use ga_uses::key_table::KeyTable;
use generic_array::{AllocError, ArrayLength, GenericArray};
use std::alloc::Global;
use std::collections::{BTreeMap, HashMap};

/// Takes a key out, and returns whether it is gone, which it always is. The other keeps its value.
fn take_out<N: ArrayLength<u8>, V: Drop>(
    table: &mut KeyTable<N, V>,
    key: &GenericArray<u8, N>,
    other: &GenericArray<u8, N>,
) -> bool
    requires { other.now ≢ key.now }
    ensures gone { IsTrue result }
    ensures kept { value_at table.new other.now ≡ value_at table.old other.now }
{
    let _value = table.remove(key);
    table.get(key).is_none()
}

/// The values of the entries from one key up to another, in order.
fn values_between<N: ArrayLength<u8>>(
    alloc: Global,
    table: &KeyTable<N, u64>,
    from: &GenericArray<u8, N>,
    to: &GenericArray<u8, N>,
) -> Result<Vec<u64>, AllocError>
    ensures { IfOk result (λ values. values.items
        ≡ map (λ entry. entry.1) (entries_from_to table.now from.now to.now)) }
{
    let entries = table.range(from, to).iter();
    Ok(entries.map(|entry| entry.1).collect(alloc)?)
}

/// Puts the value at the key of std's sorted map, and returns the value that was there. The entries
/// are then those that a `KeyTable` would have.
fn put_in_tree<N: ArrayLength<u8>, V: Drop>(
    map: &mut BTreeMap<GenericArray<u8, N>, V>,
    key: GenericArray<u8, N>,
    value: V,
) -> Result<Option<V>, AllocError>
    ensures old { IfOk result (λ old. old ≡ value_at map.old.entries key) }
    ensures entries { OnOk result (map.new.entries ≡ with_entry map.old.entries key value) }
    ensures err { OnErr result (map.new.entries ≡ map.old.entries) }
{
    Ok(map.insert(key, value)?)
}

/// Puts the value at the key of std's hashed map, and returns the value that was there.
fn put_in_hashes<N: ArrayLength<u8>, V: Drop>(
    map: &mut HashMap<GenericArray<u8, N>, V>,
    key: GenericArray<u8, N>,
    value: V,
) -> Result<Option<V>, AllocError>
    ensures old { IfOk result (λ old. old ≡ hash.get (pointwise nat_eq) map.old key) }
    ensures updates { OnOk result
        (hash.Updates (pointwise nat_eq) map.old map.new key (Some value)) }
    ensures err { OnErr result (hash.IsUnchanged map.old map.new) }
{
    Ok(map.insert(key, value)?)
}
