//! Tests of the crate `answers`: what is told of documents and values, also where memory is refused.
#![tactic(auto)]

#[cfg(test)]
mod texts;
