//! SDO: a server over an object dictionary, and a client.
#![tactic(auto)]

mod address;
mod answers;
mod client;
mod exchange;
mod fault;
mod laws;
mod reply;
mod request;
mod server;
mod session;
mod task;
mod transfer;

pub use address::Address;
pub use client::Client;
pub use cop_frame::Frame;
pub use fault::ClientFault;
pub use laws::{
    aborts_change_nothing, completed_is_at_the_front, done_means_replaced, downloads_are_written,
    short_downloads_are_served, short_downloads_hear_their_answer,
};
pub use server::{Server, serve};
pub use task::Progress;
