//! Tests of expressions, scripts and runs, over what these crates make public.
#![tactic(auto)]

#[cfg(test)]
mod expr;
#[cfg(test)]
mod prog;
#[cfg(test)]
mod runs;
