//! Tests of civil values, over what their crate makes public.
#![tactic(auto)]

#[cfg(test)]
mod civil;
