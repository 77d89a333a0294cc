//! The outside of the program: where bytes come from and go to, and the gates that threads pass.
#![tactic(auto)]

mod bytes;
mod failed;
mod gate;
mod page;
mod read;
mod sink;
mod sound_bytes;
mod sound_page;
mod source;
mod std_sink;
mod std_source;
mod write;

pub use bytes::Bytes;
pub use failed::Failed;
pub use gate::{Gate, Open, Point};
pub use page::Page;
pub use read::{ReadError, read_all};
pub use sink::Sink;
pub use sound_bytes::SoundBytes;
pub use sound_page::SoundPage;
pub use source::Source;
pub use std_sink::StdSink;
pub use std_source::StdSource;
pub use write::{WriteError, write_all_of};
