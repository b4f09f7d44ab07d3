//! What the specification says of more than one call, as functions; `tools/reference promise` lists
//! them with the calls that carry the rest.
//!
//! Inline, boxed and borrowed sequences mean, through one interface, lists of exactly N items. This
//! holds of every item type and length that the kind allows, every closure with state and every
//! iterator:
//!
//! - a sequence is such a list: `lists`;
//! - a build of good items succeeds exactly where they are N: `builds`;
//! - runs of closure calls over joined lists are one over each in turn: `joined_runs`;
//! - shapes of inline arrays undo each other: `shapes`;
//! - every run of two-ended iterator calls gives what a list cut from both ends gives: `steps`;
//! - and one call that maps and runs steps, or builds before, means these in order: `whole`.
//!
//! Each function's contract is a part of this. `ga_examples` calls all but those of `joined_runs`.
#![tactic(auto)]

/// A build of good items succeeds exactly where they are N.
pub mod builds;
/// A run over joined lists is one over each in turn.
pub mod joined_runs;
/// A sequence of any kind is a list of exactly N items.
pub mod lists;
/// Shapes of inline arrays undo each other.
pub mod shapes;
/// Any run of two-ended calls is a list cut from both ends.
pub mod steps;
/// The headline end to end.
pub mod whole;
