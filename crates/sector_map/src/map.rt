//! One packed number per sector, all in one list: a look-up is one load, and a change one store.
ghost use Rattle.std.specs.Prelude.{◌≡◌, ◌<◌, Some, None, length, replicate, slice_set, IfOk};
ghost use Rattle.sector_map.specs.Entry.{place_of, entry_at};

use crate::entry::{Entry, NO_ENTRY, pack, unpack};
use std::alloc::{AllocError, Global};
use std::marker::Model;

/// Want of memory.
pub type OutOfMemory = AllocError;

/// At most one entry for each sector. Sectors go by numbers from 0.
#[derive(Drop)]
pub struct SectorMap {
    packed: Vec<u32>,
}

impl Model for SectorMap {
    ghost use Rattle.std.specs.Prelude.{List, Option, map, length, ◌<◌, ◌^◌};
    ghost use Rattle.sector_map.specs.declared.entry.Entry.{Entry};
    ghost use Rattle.sector_map.specs.Packed.{unpacked};

    ghost Value = { List (Option Entry) };

    ghost view = { λ a. map unpacked a.packed.items };

    ghost invariant = { λ a. length a.packed.items < 2 ^ 32 };
}

impl SectorMap {
    /// Makes a map of `sectors` sectors with no entry.
    pub fn new(alloc: Global, sectors: u32) -> Result<SectorMap, OutOfMemory>
        ensures { IfOk result (λ map. map ≡ replicate sectors None) }
    {
        let packed = vec![in alloc; NO_ENTRY; sectors as usize]?;
        Ok(SectorMap { packed })
    }

    /// The number of sectors that the map was made with.
    pub fn sectors(&self) -> u32
        ensures { result ≡ length self.now }
    {
        self.packed.len() as u32
    }

    /// The entry of a sector, if it has one.
    pub fn get(&self, sector: u32) -> Option<Entry>
        requires { sector < length self.now }
        ensures { result ≡ entry_at self.now sector }
    {
        unpack(self.packed[sector as usize])
    }

    /// Gives a sector an entry. All other sectors stay.
    pub fn set(&mut self, sector: u32, entry: Entry)
        requires sector { sector < length self.old }
        requires page { (place_of entry).page < 131072 }
        requires slot { (place_of entry).slot < 4 }
        ensures { self.new ≡ slice_set self.old sector (Some entry) }
    {
        self.packed[sector as usize] = pack(entry);
    }

    /// Takes the entry of a sector away. All other sectors stay.
    pub fn clear(&mut self, sector: u32)
        requires { sector < length self.old }
        ensures { self.new ≡ slice_set self.old sector None }
    {
        self.packed[sector as usize] = NO_ENTRY;
    }
}

#[cfg(test)]
mod tests {
    use super::*;
    use crate::entry::Place2;
    use std::test::Fail;

    #[test]
    fn a_sector_has_the_entry_that_was_set_last(rt: HostRuntime) -> Result<(), Fail> {
        let held = Entry::Held(Place2 {
            page: 131_071,
            slot: 3,
        });
        let zeros = Entry::Zeros(Place2 { page: 0, slot: 0 });
        let mut map = SectorMap::new(rt.alloc(), 3)?;
        assert_eq!(rt; map.sectors(), 3);
        map.set(0, held);
        map.set(2, zeros);
        assert_eq!(rt; map.get(0), Some(held));
        assert_eq!(rt; map.get(1), None);
        map.set(0, zeros);
        map.clear(2);
        assert_eq!(rt; map.get(0), Some(zeros));
        assert_eq!(rt; map.get(2), None);
        Ok(())
    }
}
