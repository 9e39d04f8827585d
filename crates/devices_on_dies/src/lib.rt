//! Dies in memory with all that a device knows of them, at the concrete types of the schemes: mounts of cells that were damaged
//! or left by a cut, idle moves and collections with the tables kept as a device keeps them, and the whole device, where the
//! worked rows put their records and where each of the nine schemes is filled to its limit and written on. The two fixtures are
//! proved by the laws of `collector`; all else are tests, and no other crate uses this one.
#![tactic(auto)]

mod collected;
#[cfg(test)]
mod collections;
#[cfg(test)]
mod damages;
mod fixture;
#[cfg(test)]
mod found;
#[cfg(test)]
mod full;
#[cfg(test)]
mod mount_cuts;
#[cfg(test)]
mod moves;
#[cfg(test)]
mod placed;
#[cfg(test)]
#[cfg(test)]
mod start;
