//! Lengths that are types: the traits, and `Const<N>`.
ghost use Rattle.ga_views.specs.Length.{FitsInline};
ghost use Rattle.std.specs.Prelude.{ℕ};

pub(crate) mod named;

/// The most items that an inline array may have.
///
/// A build requires that its length is at most this, or has the bound `InlineLength`. The length of
/// a view has no such bound.
pub const MAX_INLINE: usize = 65_536;

/// A length that is a type. The counterpart of `typenum::Unsigned`, of which only `USIZE` is kept.
pub trait Unsigned {
    // The length.
    ghost USIZE: { ℕ };

    /// The length as a number.
    const USIZE: usize;
}

/// A length that fits inline, as a bound: code under it needs no condition that it fits.
///
/// Every named length is one. A length type of your own gets it by an `impl`, which proves that
/// the length is at most `MAX_INLINE`. For another `Const`, as `Const<100>`, no crate above this
/// one can write that.
pub trait InlineLength: Unsigned {
    // The length is at most `MAX_INLINE`.
    ghost fits: { FitsInline Self.USIZE };
}

/// The length `N`. The counterpart of `typenum::Const`, which here is the length itself.
///
/// The derives let a type with a length as a parameter derive them too.
#[derive(Clone, Copy, Debug, Default, PartialEq, Eq, PartialOrd, Ord, Hash)]
pub struct Const<const N: usize>;

impl<const N: usize> Unsigned for Const<N> {
    ghost USIZE = { N };

    const USIZE: usize = N;
}
