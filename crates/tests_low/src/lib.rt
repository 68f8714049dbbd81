//! Tests of types, tokens, definitions and words, over what these crates make public.
#![tactic(auto)]

#[cfg(test)]
mod kernel;
#[cfg(test)]
mod model;
#[cfg(test)]
mod same;
#[cfg(test)]
mod token;
#[cfg(test)]
mod types;
