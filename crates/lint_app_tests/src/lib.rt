//! Tests of the crates `lint_app`, `lint_sources` and `lint_report`: runs over files in memory, also with a read, a
//! write or an allocation that fails; positions of joined texts, errors in each form, windows of lines, and values of
//! variables from JSON.
#![tactic(auto)]

#[cfg(test)]
mod broken;
#[cfg(test)]
mod fakes;
#[cfg(test)]
mod forms;
#[cfg(test)]
mod places;
#[cfg(test)]
mod reports;
#[cfg(test)]
mod values;
#[cfg(test)]
mod windows;
