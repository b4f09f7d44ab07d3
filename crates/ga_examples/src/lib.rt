//! Examples, each proved: what the contracts of `generic_array` and `ga_headline` give to those who
//! use them.
#![tactic(auto, using(generic_array::proofs::Everyday::arrays))]

#[cfg(test)]
mod any_length;
#[cfg(test)]
mod boxed_arrays;
#[cfg(test)]
mod boxed_calls;
#[cfg(test)]
mod conversions;
#[cfg(test)]
mod flattened;
#[cfg(test)]
mod generic;
#[cfg(test)]
mod headline;
#[cfg(test)]
mod kinds;
#[cfg(test)]
mod macros;
#[cfg(test)]
mod matrices;
#[cfg(test)]
mod own_lengths;
#[cfg(test)]
mod runs_of_steps;
#[cfg(test)]
mod shapes;
#[cfg(test)]
mod uses;
#[cfg(test)]
mod words;
