//! Each call of inline arrays at concrete types.
mod builds;
mod comparisons;
