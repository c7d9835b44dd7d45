//! The events of a walk over a document, each with the types at its node, and the definitions that contracts cite for
//! them.
#![tactic(auto)]

pub mod cursor;
pub mod event;
pub mod typed_events;

pub use cursor::{EventCursor, EventCursorOf};
pub use event::Event;
pub use typed_events::{TypesOf, arguments_of_directive, arguments_of_field};
