//! The commands of the program, one in each module.

pub mod about;
pub mod audit;
pub mod check;
pub mod duplex;
pub mod init;
pub mod live;
pub mod poll;
mod printing;
pub mod read;
pub mod replay;
pub mod seal;
pub mod space;
pub mod tables;
pub mod trial;
pub mod wires;
