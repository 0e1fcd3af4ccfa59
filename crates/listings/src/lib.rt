// Listings: how a frame or a table of states is written as lines of text, and read back.
#![tactic(auto)]

mod forms;
mod parser;
mod part;
mod parts;
mod reader;
mod rejection;
mod rooms;
mod writer;
mod writes;

pub use parser::{LineParser, parse};
pub use part::{Stage, take_line};
pub use parts::PartParser;
pub use reader::read;
pub use rejection::Rejection;
pub use rooms::room;
pub use writer::write;
