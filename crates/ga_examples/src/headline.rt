//! Examples of the headline: each function of `ga_headline` but the laws of `joined_runs`, which
//! nothing calls, in modules named after its own.
mod builds;
mod shapes;
mod steps;
mod whole;
