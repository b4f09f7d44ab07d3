//! A step, and the reply to one.

/// What is asked of an iterator with two ends. Each step finds what the one before it left.
#[derive(Debug, Drop)]
pub enum Step<T> {
    /// Takes the first item, as `next` does.
    Next,
    /// Takes the last item, as `next_back` does.
    NextBack,
    /// Drops this many items from the front, or as many as are left, and takes the next: `Nth(0)`
    /// is `Next`.
    Nth(usize),
    /// The same from the back: `NthBack(0)` is `NextBack`.
    NthBack(usize),
    /// Shows the closure all items that are left, in order, and takes none.
    Look,
    /// Replaces the item at this index of those that are left, counted from the front.
    Set(usize, T),
}

/// What a step returns.
#[derive(Debug, Drop)]
pub enum Reply<T, R> {
    /// To `Next`, `NextBack`, `Nth` and `NthBack`: the item that was taken, or `None` where too few
    /// were left.
    Item(Option<T>),
    /// To `Look`: what the closure returned.
    Seen(R),
    /// To `Set`: the item that was replaced.
    Old(T),
    /// To `Set` where there is no such index: the item that was to be put there. Nothing has
    /// changed.
    Outside(T),
}
