//! Tests of columns in chunks, over what their crates make public.
#![tactic(auto)]

#[cfg(test)]
mod boolean;
#[cfg(test)]
mod casts;
#[cfg(test)]
mod filter;
#[cfg(test)]
mod same;
#[cfg(test)]
mod string;
