//! Tests of the crates `language`, `expected_tokens` and `sample_reader`.
#![tactic(auto)]

#[cfg(test)]
mod expected;
#[cfg(test)]
mod faults;
#[cfg(test)]
mod outline;
#[cfg(test)]
mod same;
#[cfg(test)]
mod texts;
#[cfg(test)]
mod trees;
