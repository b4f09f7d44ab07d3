//! Laws: what the words of this crate's contracts say together.
//!
//! Each function's contract is a law, and nothing calls it. The laws of shapes and of rows hold of
//! all lists, those of runs and of folds of each closure, whatever it returns; their bodies are
//! empty. With the contracts of the calls they hold of the calls.
ghost use Rattle.ga_core.specs.Rows.{rows};
ghost use Rattle.generic_array.specs.Laws.{ErrorRunsJoin, FoldsJoin, FoldsToErrorJoin, GoodFoldsJoin, GoodRunsJoin, RunsJoin};
ghost use Rattle.std.specs.List.{All, flat_map};
ghost use Rattle.std.specs.Prelude.{◌≡◌, ℕ, ◌*◌, ◌<◌, List, [], ◌∷◌, ◌++◌, drop, length, take};

// What was put at an end is what is taken from there, and the other items are as they were. What
// was taken and put back is as it was by the words for taking alone.
fn ends_undo_each_other<T>()
    ensures back { (items others : List T) (item last : T)
        → items ++ item ∷ [] ≡ others ++ last ∷ [] → (others ≡ items) × (last ≡ item) }
    ensures front { (items others : List T) (item first : T)
        → item ∷ items ≡ first ∷ others → (others ≡ items) × (first ≡ item) }
{}

// What was cut in two and joined is as it was, and so is what was joined and cut where it was
// joined.
fn parts_undo_each_other<T>()
    ensures joined { (place : ℕ) (items : List T) → take place items ++ drop place items ≡ items }
    ensures first { (items rest : List T) → take (length items) (items ++ rest) ≡ items }
    ensures rest { (items rest : List T) → drop (length items) (items ++ rest) ≡ rest }
{}

// Rows of one width that are joined and cut again are as they were, and so are items that fill rows
// and are cut and joined again.
fn rows_undo_each_other<T>()
    ensures rows { (width : ℕ) (all : List (List T)) → 0 < width
        → All (λ row. length row ≡ width) all
        → rows width (flat_map (λ row. row) all) ≡ all }
    ensures items { (width count : ℕ) (items : List T) → 0 < width → length items ≡ count * width
        → flat_map (λ row. row) (rows width items) ≡ items }
{}

// A run over joined lists is one over the first and then one over the second.
fn runs_join<X, Y, F: FnMut(X) -> Y>(_f: &F)
    ensures { RunsJoin F.step }
{}

// So is a run with no error; a run to an error in the first makes no call at the second.
fn try_runs_join<X, Y, E, F: FnMut(X) -> Result<Y, E>>(_f: &F)
    ensures good { GoodRunsJoin F.step }
    ensures error { ErrorRunsJoin F.step }
{}

// A fold over joined lists is one over the second from what the one over the first came to.
fn folds_join<A, X, F: FnMut(A, X) -> A>(_f: &F)
    ensures { FoldsJoin F.step }
{}

// So is a fold with no error; a fold to an error in the first makes no call at the second.
fn try_folds_join<A, X, E, F: FnMut(A, X) -> Result<A, E>>(_f: &F)
    ensures good { GoodFoldsJoin F.step }
    ensures error { FoldsToErrorJoin F.step }
{}
