//! A sector that an audit finds, with its bytes.
ghost use Rattle.std.specs.Prelude.{◌≡◌, ◌≤◌, take, length, IfOk};
ghost use Rattle.image_audit.specs.Held.{without_zeros, IsTrimmed};

use crate::OutOfMemory;
use cell_bits::is_blank;
use std::alloc::Global;
use std::marker::Model;

/// At most 512 bytes without zeros at the end, seen as a list.
#[derive(Debug, Drop)]
pub struct RowBytes {
    list: Vec<u8>,
}

impl Model for RowBytes {
    ghost use Rattle.std.specs.Prelude.{ℕ, List, ◌≤◌, length};
    ghost use Rattle.image_audit.specs.Held.{IsTrimmed};

    ghost Value = { List ℕ };

    ghost view = { λ row. row.list.items };

    ghost invariant = { λ row. (length row.list.items ≤ 512) × IsTrimmed row.list.items };
}

/// How many zeros at the end are passed at once.
const STEP: usize = 32;

/// How many bytes there are before steps of zeros at the end.
fn length_without_steps(bytes: &[u8]) -> usize
    ensures within { result ≤ length bytes.now }
    ensures zeros { without_zeros (take result bytes.now) ≡ without_zeros bytes.now }
{
    let mut count = bytes.len();
    while count >= STEP && is_blank(&bytes[count - STEP..count]) {
        count -= STEP;
    }
    count
}

/// How many bytes there are before the zeros at the end.
fn length_without_zeros(bytes: &[u8]) -> usize
    ensures within { result ≤ length bytes.now }
    ensures bytes { take result bytes.now ≡ without_zeros bytes.now }
    ensures trimmed { IsTrimmed (without_zeros bytes.now) }
{
    let mut count = length_without_steps(bytes);
    while count > 0 && bytes[count - 1] == 0 {
        count -= 1;
    }
    count
}

impl RowBytes {
    /// These bytes without the zeros at the end.
    pub(crate) fn trimmed(alloc: Global, bytes: &[u8]) -> Result<RowBytes, OutOfMemory>
        requires { length bytes.now ≤ 512 }
        ensures { IfOk result (λ row. row ≡ without_zeros bytes.now) }
    {
        let count = length_without_zeros(bytes);
        let list = Vec::from_slice(alloc, &bytes[..count])?;
        Ok(RowBytes { list })
    }

    /// The bytes.
    pub fn as_slice(&self) -> &[u8]
        ensures value { result.now ≡ self.now }
        ensures small { length self.now ≤ 512 }
        ensures trimmed { IsTrimmed self.now }
    {
        &self.list
    }
}

/// A sector that has a live record, and its bytes without the zeros at the end.
#[derive(Debug, Drop)]
pub struct Held {
    pub sector: u32,
    pub bytes: RowBytes,
}
