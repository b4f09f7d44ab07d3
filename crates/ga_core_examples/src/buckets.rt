//! Lists of at most N items that are arrays: with the number as a parameter, or with the array in a
//! struct, which has a length type as any item has.
ghost use Rattle.ga_core.specs.Length.{FitsInline};
ghost use Rattle.std.specs.Prelude.{◌≡◌, ◌-◌, ◌<◌, ◌↔◌, ◌++◌, ◌∷◌, [], Contains, IfNone, IfSome, IsNone, IsSome, length, slice_index_or, take};

use ga_core::{ArrayBuilder, ArrayLength, Const, GenericArray, U20};

type Id = GenericArray<u8, U20>;

/// Ids, the one that was seen last in front.
#[derive(Drop)]
struct Bucket<const N: usize> {
    ids: ArrayBuilder<Id, Const<N>>,
}

impl<const N: usize> Bucket<N> {
    fn new() -> Self
        requires { FitsInline N }
        ensures { result.ids ≡ [] }
    {
        let ids = ArrayBuilder::new();
        Bucket { ids }
    }

    // Puts an id in front. Where there is no room, the last one goes.
    fn insert_or_evict(&mut self, id: Id)
        requires { 0 < N }
        ensures { self.new.ids ≡ id ∷ take (N - 1) self.old.ids }
    {
        self.ids.truncate(N - 1);
        self.ids.insert(0, id);
    }

    fn evict_last(&mut self) -> Option<Id>
        ensures variant { IsSome result ↔ (0 < length self.old.ids) }
        ensures some { IfSome result (λ last. self.old.ids ≡ self.new.ids ++ last ∷ []) }
        ensures none { IfNone result (self.new.ids ≡ self.old.ids) }
    {
        self.ids.pop()
    }

    fn position_of(&self, id: &Id) -> Option<usize>
        ensures some { IfSome result (λ index. (index < length self.now.ids)
            × (slice_index_or self.now.ids index [] ≡ id.now)) }
        ensures none { IsNone result → ¬ Contains self.now.ids id.now }
    {
        self.ids.as_slice().iter().position(|other| other == id)
    }
}

#[derive(Default, Drop)]
struct Node {
    id: Id,
}

#[derive(Drop)]
struct Nodes<N: ArrayLength<Node>> {
    nodes: ArrayBuilder<Node, N>,
}

impl<N: ArrayLength<Node>> Nodes<N> {
    fn new() -> Self
        requires { FitsInline N.USIZE }
        ensures { result.nodes ≡ [] }
    {
        let nodes = ArrayBuilder::new();
        Nodes { nodes }
    }
}
