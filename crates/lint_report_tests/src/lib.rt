//! Tests of the crate `lint_report`: characters that a terminal may obey, as text, as JSON and for GitHub.
#![tactic(auto)]

#[cfg(test)]
mod escapes;
