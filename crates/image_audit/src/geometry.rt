//! The numbers of a head's device, and where its pages, units and slots stand among the cells of an image.
ghost use Rattle.std.specs.Prelude.{◌≡◌, ◌*◌, ◌<◌, ◌≤◌, ◌/◌, true, length};
ghost use Rattle.page_codec.specs.Geometry.{page_count, is_unit_page, main_at, spare_at};
ghost use Rattle.page_codec.specs.Records.{may_hold as holds_at, is_sealed as sealed_in};
ghost use Rattle.die_image.specs.Image.{is_within_limits};
ghost use Rattle.image_audit.specs.Images.{geometry_of, pages_in, HasLength};

use die_image::ImageHead;
use page_codec::Place;
use spare_gate::seal_charged;
use std::marker::Model;

/// The numbers of a device, seen as its geometry.
#[derive(Drop)]
pub(crate) struct Geometry {
    pub(crate) blocks: u32,
    pub(crate) pages: u32,
    pub(crate) main_bytes: u32,
    pub(crate) generations: u32,
    pub(crate) span: u32,
    pub(crate) sectors: u32,
    pub(crate) sector_bytes: u32,
}

impl Model for Geometry {
    ghost use Rattle.page_codec.specs.Geometry.{Geometry as Sizes};
    ghost use Rattle.image_audit.specs.Images.{IsFitting};

    ghost Value = { Sizes };

    ghost view = { λ g. record { blocks = g.blocks; pages = g.pages; main_bytes = g.main_bytes; generations = g.generations; span = g.span; sectors = g.sectors; sector_bytes = g.sector_bytes } };

    ghost invariant = { λ g. IsFitting (record {
      blocks = g.blocks;
      pages = g.pages;
      main_bytes = g.main_bytes;
      generations = g.generations;
      span = g.span;
      sectors = g.sectors;
      sector_bytes = g.sector_bytes;
    }) };
}

impl Geometry {
    /// The numbers of a head's device.
    pub(crate) fn of(head: &ImageHead) -> Geometry
        requires { is_within_limits head.now ≡ true }
        ensures { result ≡ geometry_of head.now }
    {
        Geometry {
            blocks: head.blocks,
            pages: head.pages,
            main_bytes: head.scheme.page_bytes(),
            generations: head.scheme.generations(),
            span: head.scheme.span(),
            sectors: head.sectors,
            sector_bytes: head.scheme.sector_bytes(),
        }
    }

    /// The number of pages.
    pub(crate) fn page_count(&self) -> u32
        ensures { result ≡ page_count self.now }
    {
        self.blocks * self.pages
    }

    /// The main bytes of a page.
    pub(crate) fn main<'a>(&self, cells: &'a [u8], page: u32) -> &'a [u8]
        requires long { HasLength self.now cells.now }
        requires page { page < page_count self.now }
        ensures main { result.now ≡ main_at self.now (pages_in self.now cells.now) page }
        ensures long { length result.now ≡ self.now.main_bytes }
    {
        let start = (page * (self.main_bytes + 16 * self.generations)) as usize;
        &cells[start..start + self.main_bytes as usize]
    }

    /// The spare bytes of a page.
    pub(crate) fn spare<'a>(&self, cells: &'a [u8], page: u32) -> &'a [u8]
        requires long { HasLength self.now cells.now }
        requires page { page < page_count self.now }
        ensures spare { result.now ≡ spare_at self.now (pages_in self.now cells.now) page }
        ensures long { length result.now ≡ 16 * self.now.generations }
        ensures few_slots { self.now.generations ≤ 3 }
    {
        let whole = self.main_bytes + 16 * self.generations;
        let start = page * whole;
        &cells[(start + self.main_bytes) as usize..(start + whole) as usize]
    }

    /// Whether a record may stand in a slot.
    pub(crate) fn may_hold(&self, place: &Place) -> bool
        requires page { place.now.page < page_count self.now }
        requires slot { place.now.slot < self.now.generations }
        ensures { result ≡ holds_at self.now place.now }
    {
        let number = place.page % self.pages;
        place.slot == 0 || number % self.span == 0 && number / self.span < self.pages / self.span
    }

    /// Whether the block of a page is sealed.
    pub(crate) fn is_sealed(&self, cells: &[u8], page: u32) -> bool
        requires long { HasLength self.now cells.now }
        requires page { page < page_count self.now }
        ensures { result ≡ sealed_in self.now (pages_in self.now cells.now) (page / self.now.pages) }
    {
        seal_charged(self.spare(cells, page / self.pages * self.pages))
    }
}
