//! The rows of bytes that scripts write: the first is zeros, and the cells of each lie below those of the next. So a plain code
//! carries some of them over others, and declines the rest.

/// How many rows there are.
pub const ROWS: u8 = 4;

/// The byte of a row at an even place; at an odd one it is turned by a bit.
fn byte_of(row: u8) -> u8 {
    match row {
        0 => 0,
        1 => 0x11,
        2 => 0x33,
        _ => 0x77,
    }
}

/// The byte of a row at a place.
fn byte_at(row: u8, place: usize) -> u8 {
    if place % 2 == 0 {
        byte_of(row)
    } else {
        byte_of(row).rotate_left(1)
    }
}

/// Writes a row over bytes.
pub fn fill(row: u8, bytes: &mut [u8]) {
    for (place, byte) in bytes.iter_mut().enumerate() {
        *byte = byte_at(row, place);
    }
}

/// Whether bytes are those of a row.
fn is_row(row: u8, bytes: &[u8]) -> bool {
    for (place, byte) in bytes.iter().enumerate() {
        if *byte != byte_at(row, place) {
            return false;
        }
    }
    true
}

/// The row that bytes are, if they are one.
pub fn row_of(bytes: &[u8]) -> Option<u8> {
    for row in 0..ROWS {
        if is_row(row, bytes) {
            return Some(row);
        }
    }
    None
}
