//! A device as a disk of bytes, and the NBD protocol over any source and any sink: fixed newstyle, with simple replies. Knows no
//! file and no scheme.
#![tactic(auto)]

mod bytes;
mod device_disk;
mod exact;
mod handshake;
mod part;
mod request;
mod requests;
mod rules;
mod sectors;
mod serving;

pub use device_disk::{DeviceDisk, Disk, Tallies};
pub use request::answer_request;
pub use rules::{LONGEST, data_length, refusal};
pub use serving::{Ended, ROOM, serve};

#[cfg(test)]
mod tests;
