//! A table of keys of one width, kept as a sorted vector.
ghost use Rattle.ga_uses.specs.KeyTable.{ChangesKey, HasKeyAt, IsGapFor, IsInKeyOrder, entries_from_to, key_order, value_at, with_entry, without_key};
ghost use Rattle.std.specs.List.Sorted.{IsPartitionPoint};
ghost use Rattle.std.specs.Option.{option_copied};
ghost use Rattle.std.specs.Ordering.{is_lt};
ghost use Rattle.std.specs.Prelude.{◌≡◌, ◌≤◌, ◌↔◌, [], IfErr, IfOk, IsTrue, None, OnErr, OnOk, Some, false, length, true};

use generic_array::{AllocError, ArrayLength, GenericArray};
use std::alloc::Global;
use std::marker::Model;
use std::mem;

/// A map from keys of `N` bytes to values, in the keys' order. Contracts see it as the list of its
/// entries, each the bytes of a key with its value.
#[derive(Drop)]
pub struct KeyTable<N: ArrayLength<u8>, V> {
    entries: Vec<(GenericArray<u8, N>, V)>,
}

impl<N: ArrayLength<u8>, V> Model for KeyTable<N, V> {
    ghost use Rattle.ga_uses.specs.KeyTable.{IsInKeyOrder};
    ghost use Rattle.std.specs.Prelude.{ℕ, List};

    ghost Value = { List (List ℕ × V) };

    ghost view = { λ table. table.entries.items };

    ghost invariant = { λ table. IsInKeyOrder table.entries.items };
}

impl<N: ArrayLength<u8>, V> KeyTable<N, V> {
    /// The table with no entry.
    pub fn new(alloc: Global) -> Self
        ensures { result ≡ [] }
    {
        KeyTable {
            entries: Vec::new(alloc),
        }
    }

    /// The number of entries. O(1).
    pub fn len(&self) -> usize
        ensures len { result ≡ length self.now }
        ensures ordered { IsInKeyOrder self.now }
    {
        self.entries.len()
    }

    /// Whether there is no entry. O(1).
    pub fn is_empty(&self) -> bool
        ensures { IsTrue result ↔ (length self.now ≡ 0) }
    {
        self.len() == 0
    }

    /// The value at a key, or `None` where the table doesn't have the key. Logarithmic time.
    pub fn get(&self, key: &GenericArray<u8, N>) -> Option<&V>
        ensures { option_copied result ≡ value_at self.now key.now }
    {
        match self.search(key) {
            Ok(place) => Some(&self.entries[place].1),
            Err(_) => None,
        }
    }

    /// Puts the value at the key, and returns the value that was there. A new key moves the
    /// entries behind it by one. Allocates at a new key alone; if that fails, drops key and value.
    pub fn insert(&mut self, key: GenericArray<u8, N>, value: V) -> Result<Option<V>, AllocError>
    where
        V: Drop,
        ensures old { IfOk result (λ old. old ≡ value_at self.old key) }
        ensures entries { OnOk result (self.new ≡ with_entry self.old key value) }
        ensures changes { OnOk result (ChangesKey self.old self.new key (Some value)) }

        // Only a new key can be refused, and the table is then as it was.
        ensures err { OnErr result (self.new ≡ self.old) }
        ensures absent { OnErr result (value_at self.old key ≡ None) }
    {
        match self.search(&key) {
            Ok(place) => {
                let entry = &mut self.entries[place];
                Ok(Some(mem::replace(&mut entry.1, value)))
            }
            Err(place) => {
                self.entries.insert(place, (key, value))?;
                Ok(None)
            }
        }
    }

    /// Takes the key's entry out, and returns its value, or `None` if the table doesn't have the
    /// key. Moves the entries behind it by one.
    pub fn remove(&mut self, key: &GenericArray<u8, N>) -> Option<V>
        ensures old { result ≡ value_at self.old key.now }
        ensures entries { self.new ≡ without_key self.old key.now }
        ensures changes { ChangesKey self.old self.new key.now None }
    {
        match self.search(key) {
            Ok(place) => {
                let (_key, value) = self.entries.remove(place);
                Some(value)
            }
            Err(_) => None,
        }
    }

    /// The entries whose keys are at least `from` and below `to`, in order. Logarithmic time.
    pub fn range(
        &self,
        from: &GenericArray<u8, N>,
        to: &GenericArray<u8, N>,
    ) -> &[(GenericArray<u8, N>, V)]
        ensures { result.now ≡ entries_from_to self.now from.now to.now }
    {
        let start = self.place_of(from);
        let end = self.place_of(to);
        &self.entries[start.min(end)..end]
    }

    // How many keys are below this one.
    fn place_of(&self, key: &GenericArray<u8, N>) -> usize
        ensures in_range { result ≤ length self.now }
        ensures parts { IsPartitionPoint (λ e. is_lt (key_order e.0 key.now) ≡ true) (λ e.
            is_lt (key_order e.0 key.now) ≡ false) self.now result }
        ensures ordered { IsInKeyOrder self.now }
    {
        self.entries
            .partition_point(|entry| entry.0.cmp(key).is_lt())
    }

    // Where the key is, or where it would go.
    fn search(&self, key: &GenericArray<u8, N>) -> Result<usize, usize>
        ensures found { IfOk result (HasKeyAt self.now key.now) }
        ensures absent { IfErr result (IsGapFor self.now key.now) }
    {
        self.entries.binary_search_by(|entry| entry.0.cmp(key))
    }
}
