//! Tests of named cases, over the public names of `generic_array` and `ga_records` alone.
#![tactic(auto)]

#[cfg(test)]
mod tests;
