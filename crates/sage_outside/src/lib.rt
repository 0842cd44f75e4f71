//! What the program reaches outside, as traits with counts of faults, with forms in memory and over std.
#![tactic(auto)]

mod area;
mod blocks;
mod blocks_in_memory;
mod calls;
mod conn;
mod conn_in_memory;
mod door;
mod door_in_memory;
mod fault;
mod file_blocks;
mod files_in_memory;
pub mod law;
mod link;
mod memory;
mod nothing;
mod real;
mod reply;
mod responder;
mod shelf;
mod sink;
mod sockets;
mod stream_link;
mod tags;

pub use area::{Area, block_of, read_area};
pub use blocks::Blocks;
pub use blocks_in_memory::{MemBlocks, MemStored, NeverBlocks};
pub use conn::Conn;
pub use conn_in_memory::MemConn;
pub use door::Door;
pub use door_in_memory::MemDoor;
pub use fault::{ReadFault, StoreFault};
pub use file_blocks::FileBlocks;
pub use link::{Link, LinkFault, Memory};
pub use memory::{MemFile, MemShelf, MemSink};
pub use nothing::{NeverSink, NoConn, NoDoor, NoLink};
pub use real::{FileShelf, WriteSink};
pub use reply::{tells_server_error, tells_unavailable};
pub use responder::Responder;
pub use shelf::{Shelf, ShelfFault};
pub use sink::{Failed, Sink};
pub use sockets::{ListenerDoor, StreamConn};
pub use stream_link::StreamLink;
pub use tags::{part_of_block, tag, tag_agrees};
