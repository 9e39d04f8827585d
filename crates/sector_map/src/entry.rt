//! An entry packs into one number: the page times 8, the slot times 2, and 1 for zeros. The greatest number is no entry.
ghost use Rattle.std.specs.Prelude.{◌≡◌, ◌<◌, Some};
ghost use Rattle.sector_map.specs.Entry.{place_of};
ghost use Rattle.sector_map.specs.Packed.{unpacked};

/// A slot of a page.
#[derive(Clone, Copy, Debug, PartialEq, Eq)]
pub struct Place2 {
    /// The page's number on the die.
    pub page: u32,
    /// The slot's number in the page's spare area.
    pub slot: u32,
}

/// Where the live record of a sector stands, and whether it holds the sector's bytes or zeros.
#[derive(Clone, Copy, Debug, PartialEq, Eq)]
pub enum Entry {
    Held(Place2),
    Zeros(Place2),
}

/// The packed form of no entry.
pub(crate) const NO_ENTRY: u32 = u32::MAX;

/// Packs an entry.
pub(crate) fn pack(entry: Entry) -> u32
    requires page { (place_of entry).page < 131072 }
    requires slot { (place_of entry).slot < 4 }
    ensures { unpacked result ≡ Some entry }
{
    match entry {
        Entry::Held(place) => place.page * 8 + place.slot * 2,
        Entry::Zeros(place) => place.page * 8 + place.slot * 2 + 1,
    }
}

/// Reads a packed entry back.
pub(crate) fn unpack(packed: u32) -> Option<Entry>
    ensures { result ≡ unpacked packed }
{
    if packed == NO_ENTRY {
        return None;
    }
    let place = Place2 {
        page: packed / 8,
        slot: packed / 2 % 4,
    };
    Some(if packed % 2 == 0 {
        Entry::Held(place)
    } else {
        Entry::Zeros(place)
    })
}

#[cfg(test)]
mod tests {
    use super::*;

    // 5 * 8 + 2 * 2, and one more for zeros.
    #[test]
    fn an_entry_packs_page_slot_and_kind(rt: HostRuntime) {
        let place = Place2 { page: 5, slot: 2 };
        assert_eq!(rt; pack(Entry::Held(place)), 44);
        assert_eq!(rt; pack(Entry::Zeros(place)), 45);
        assert_eq!(rt; unpack(45), Some(Entry::Zeros(place)));
        assert_eq!(rt; unpack(0xffff_ffff), None);
    }
}
