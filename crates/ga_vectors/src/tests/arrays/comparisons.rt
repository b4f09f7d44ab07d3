//! Comparisons and hashes of inline arrays.
use generic_array::arr;
use std::cmp::Ordering;
use std::hash::{DefaultHasher, Hash, Hasher};

fn hash_of<T: Hash + Drop>(value: T) -> u64 {
    let mut hasher = DefaultHasher::new();
    value.hash(&mut hasher);
    hasher.finish()
}

#[test]
fn arrays_compare_and_hash_as_their_slices_do(rt: HostRuntime) {
    let (array, same) = (arr![1u8, 2, 3], arr![1u8, 2, 3]);
    let greater = arr![1u8, 3, 0];
    assert!(rt; array != greater && array.cmp(&greater) == Ordering::Less);
    assert!(rt; array.partial_cmp(&greater) == Some(Ordering::Less) && array == same);
    let hash = hash_of(array);
    assert!(rt; hash == hash_of(same) && hash == hash_of([1u8, 2, 3].as_slice()));
}
