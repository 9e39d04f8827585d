//! What is made once of a table, and the room of calls over it.

use gf2_solve::Basis;

/// What is made once for calls by rows, and their room.
#[derive(Drop)]
pub struct Turned {
    pub ready: bool,
    pub units: Vec<u128>,
    pub table: Vec<u64>,
    pub rows: Vec<u64>,
    pub trial: Vec<u64>,
}

/// A table, the basis of all its columns, how many it has, and each column's coordinates in it.
#[derive(Drop)]
pub struct System {
    pub columns: Vec<u128>,
    pub full: Basis,
    pub rank: u32,
    pub coords: Vec<u128>,
}

/// The coordinates at charged cells, the basis of those of uncharged cells, and what calls by rows need.
#[derive(Drop)]
pub struct Room {
    pub masked: Vec<u128>,
    pub basis: Basis,
    pub turned: Turned,
}
