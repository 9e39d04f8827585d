//! Sectors and records on pages, at the concrete types of the named schemes: each of the nine keeps a sector on a page and a
//! later one on the unit above it, and records are put on a die in memory. This crate has tests alone, and no public item.
#![tactic(auto)]

#[cfg(test)]
mod cuts;
#[cfg(test)]
mod later;
#[cfg(test)]
mod live;
#[cfg(test)]
mod page_zero;
#[cfg(test)]
mod sectors;
#[cfg(test)]
mod units;
#[cfg(test)]
mod writes;
