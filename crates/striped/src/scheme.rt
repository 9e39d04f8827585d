//! A scheme keeps a sector in the cells of a page, and later sectors in those of a unit of pages
//! that are only ever charged. It knows the main bytes of pages alone, and neither slots nor dies.

ghost use Rattle.std.specs.Prelude.{◌≡◌, ◌*◌, ℕ, ◌≤◌, true, length};
ghost use Rattle.cell_bits.specs.Cells.{charge_at};
ghost use Rattle.striped.specs.Meaning.{Meaning, Decodes, CarriesOver, NoneCarries, KeepsRest};

use wom_code::Carry;

/// A first code for blank pages and a second code for later writes of a unit.
pub trait Scheme {
    /// The numbers of the scheme, and what it makes of cells. No call changes it.
    ghost meaning: { Self → Meaning };

    /// The bytes of a sector.
    fn sector_bytes(&self) -> u32
        ensures { result ≡ (meaning self.now).sector_bytes };

    /// The main bytes of a page.
    fn page_bytes(&self) -> u32
        ensures { result ≡ (meaning self.now).page_bytes };

    /// The pages of a unit.
    fn span(&self) -> u32
        ensures { result ≡ (meaning self.now).span };

    /// How often a unit may be written, which is also the number of slots of a page.
    fn generations(&self) -> u32
        ensures { result ≡ (meaning self.now).generations };

    /// The first write of a sector, over blank cells. What the page held before does not matter.
    fn first(&mut self, sector: &[u8], page: &mut [u8])
        requires sector { length sector.now ≡ (meaning self.old).sector_bytes }
        requires page { length page.old ≡ (meaning self.old).page_bytes }
        ensures gives { (meaning self.old).decoding.first_gives page.new sector.now ≡ true }
        ensures rest { (cell : ℕ) → (meaning self.old).used_cells ≤ cell → charge_at page.new cell ≡ 0 }
        ensures same { meaning self.new ≡ meaning self.old };

    /// What a page decodes to.
    fn read_first(&self, page: &[u8], sector: &mut [u8])
        requires page { length page.now ≡ (meaning self.now).page_bytes }
        requires sector { length sector.old ≡ (meaning self.now).sector_bytes }
        ensures { sector.new ≡ (meaning self.now).decoding.first page.now };

    /// Charges more cells of a unit so that it carries the sector, where that can be done. Where it
    /// cannot, the unit stays as it was.
    fn over(&mut self, unit: &mut [u8], sector: &[u8]) -> Carry
        requires unit { length unit.old ≡ (meaning self.old).span * (meaning self.old).page_bytes }
        requires sector { length sector.now ≡ (meaning self.old).sector_bytes }
        ensures carried { result ≡ Carry.Carried → CarriesOver (meaning self.old) unit.old unit.new sector.now }
        ensures gives { result ≡ Carry.Carried → (meaning self.old).decoding.second_gives unit.old sector.now unit.new ≡ true }
        ensures rest { result ≡ Carry.Carried → KeepsRest (meaning self.old) unit.old unit.new }
        ensures declined { result ≡ Carry.Declined → NoneCarries (meaning self.old) unit.old sector.now }
        ensures kept { result ≡ Carry.Declined → unit.new ≡ unit.old }
        ensures same { meaning self.new ≡ meaning self.old };

    /// What a unit decodes to.
    fn read_second(&self, unit: &[u8], sector: &mut [u8])
        requires unit { length unit.now ≡ (meaning self.now).span * (meaning self.now).page_bytes }
        requires sector { length sector.old ≡ (meaning self.now).sector_bytes }
        ensures { sector.new ≡ (meaning self.now).decoding.second unit.now };

    /// What carries a sector decodes to it.
    ghost decodes: { (scheme : Self) → Decodes (meaning scheme) };
}
