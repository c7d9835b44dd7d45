//! The work of the program `lint`, over any source of files and any two writers: it validates files of GraphQL
//! queries against a schema.
//!
//! Proved: a run that ends with 0 or 1 wrote exactly this report to the output, in the form that was asked for, and
//! nothing else. It has an issue for each error that `RootNode::validate` reports of the documents of the texts. A
//! document without errors has an issue for each fault of given values instead. Issues are in order, with their
//! positions mapped back to the files. The files and options are those of the command line, by the contract of
//! `lint_args`, where a directory stands for the files that are listed of it. A run that ends with 2 has a reason, and
//! wrote at most a beginning of such a report or of faults. That a text which is refused is no document, and that the
//! schema is that of its texts, is only tested.
#![tactic(auto)]

pub mod documents;
pub mod machine;
pub mod program;
pub mod rules;
pub mod schemas;
pub mod values;
pub mod writing;
