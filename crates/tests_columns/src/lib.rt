//! Tests of columns, their casts and operators, over what these crates make public.
#![tactic(auto)]

#[cfg(test)]
mod arith;
#[cfg(test)]
mod integers;
#[cfg(test)]
mod logical;
#[cfg(test)]
mod numeric;
#[cfg(test)]
mod same;
#[cfg(test)]
mod series;
#[cfg(test)]
mod typed;
