//! What keeps bytes beside those in memory: a put replaces the bytes from a place on.
ghost use Rattle.std.specs.Prelude.{◌≡◌, ℕ, List, Option, OnOk};
ghost use Rattle.file_die.specs.Held.{Puts};

/// A put failed.
#[derive(Clone, Copy, Debug, PartialEq, Eq)]
pub struct PutFault;

/// Keeps bytes.
pub trait Mirror: Drop {
    /// The bytes that it keeps, where it tells them.
    ghost held: { Self → Option (List ℕ) };

    /// Replaces the bytes from a place on. After a fault those bytes are any.
    fn put(&mut self, place: u64, bytes: &[u8]) -> Result<(), PutFault>
        ensures { OnOk result (Puts place bytes.now (held self.old) (held self.new)) };
}

/// Bytes in memory. A put fails that ends past them, and each put that is named by its number, from 1.
#[derive(Drop)]
pub struct MemMirror {
    bytes: Vec<u8>,
    fail_at: Vec<u64>,
    puts: u64,
}

impl MemMirror {
    ghost use Rattle.file_die.specs.MemHeld.{mem_held};

    /// Keeps these bytes, and fails at these puts.
    pub fn new(bytes: Vec<u8>, fail_at: Vec<u64>) -> MemMirror
        ensures { mem_held result ≡ bytes.items }
    {
        MemMirror {
            bytes,
            fail_at,
            puts: 0,
        }
    }

    /// The bytes as they stand.
    pub fn bytes(&self) -> &[u8]
        ensures { result.now ≡ mem_held self.now }
    {
        &self.bytes
    }
}

impl Mirror for MemMirror {
    ghost use Rattle.std.specs.Prelude.{Some};
    ghost use Rattle.file_die.specs.MemHeld.{mem_held};

    ghost held = { λ m. Some (mem_held m) };

    fn put(&mut self, place: u64, bytes: &[u8]) -> Result<(), PutFault> {
        self.puts = self.puts.saturating_add(1);
        let start = place as usize;
        let room = self.bytes.len();
        if self.fail_at.contains(&self.puts) || start > room || bytes.len() > room - start {
            return Err(PutFault);
        }
        self.bytes[start..start + bytes.len()].copy_from_slice(bytes);
        Ok(())
    }
}
