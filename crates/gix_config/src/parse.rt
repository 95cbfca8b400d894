//! The parser: the events of a text, views of them, and writers.
pub use gitconf_items::event_ref::EventRef;
pub use gitconf_items::sink::{Sink, SinkFault};
pub use gitconf_parse::events::{EventIter, Events, SectionIter, SectionRef};
pub use gitconf_read::error::Error;
pub use gitconf_text::parse::{section, span};
