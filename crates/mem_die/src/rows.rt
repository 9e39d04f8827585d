//! Pages of one length in a row of bytes.
ghost use Rattle.std.specs.Prelude.{◌≡◌, ◌+◌, ◌*◌, ◌^◌, ◌<◌, ◌≤◌, length, replicate, All, if◌then◌else◌};
ghost use Rattle.std.specs.Fork.{slice_chunk};
ghost use Rattle.cell_die.specs.Cells.{charge};
ghost use Rattle.mem_die.specs.Pages.{ChangesPage};
ghost use Rattle.mem_die.specs.Tears.{TearsPage, TearsPages, reaches};

use crate::blend::blend;
use cell_die::Torn;

static BLANK_PAGE: [u8; 1264] = [0; 1264];

fn blank_page(size: usize) -> &'static [u8]
    requires { size ≤ 1264 }
    ensures { result.now ≡ replicate size 0 }
{
    &BLANK_PAGE[..size]
}

pub fn page_of(bytes: &[u8], size: usize, page: usize) -> &[u8]
    requires { (page + 1) * size ≤ length bytes.now }
    ensures { result.now ≡ slice_chunk bytes.now size page }
{
    &bytes[page * size..page * size + size]
}

pub fn set_page(bytes: &mut [u8], size: usize, page: usize, content: &[u8])
    requires room { (page + 1) * size ≤ length bytes.old }
    requires whole { length content.now ≡ size }
    ensures { ChangesPage size page bytes.old bytes.new content.now }
{
    let start = page * size;
    bytes[start..start + size].copy_from_slice(content);
}

fn blend_page(bytes: &mut [u8], size: usize, page: usize, target: &[u8], mask: u64)
    requires room { (page + 1) * size ≤ length bytes.old }
    requires whole { length target.now ≡ size }
    ensures { TearsPage (Torn.Mask mask) size page bytes.old target.now bytes.new }
{
    let start = page * size;
    blend(&mut bytes[start..start + size], target, mask);
}

/// Changes a page to the target, cut in this form.
pub fn tear_page(bytes: &mut [u8], size: usize, page: usize, target: &[u8], torn: Torn)
    requires room { (page + 1) * size ≤ length bytes.old }
    requires whole { length target.now ≡ size }
    ensures change { TearsPage torn size page bytes.old target.now bytes.new }
    ensures bytes { All (λ byte. byte < 256) bytes.new }
{
    match torn {
        Torn::Nothing => {}
        Torn::All => set_page(bytes, size, page, target),
        Torn::Mask(mask) => blend_page(bytes, size, page, target, mask),
    }
}

/// Changes pages to blank ones, cut in this form.
pub fn tear_pages(bytes: &mut [u8], size: usize, first: usize, count: usize, torn: Torn)
    requires room { (first + count) * size ≤ length bytes.old }
    requires pages { first + count < 2 ^ 64 }
    requires size { size ≤ 1264 }
    requires bytes { All (λ byte. byte < 256) bytes.old }
    ensures change { TearsPages torn size first count bytes.old bytes.new }
    ensures bytes { All (λ byte. byte < 256) bytes.new }
{
    for k in 0..count {
        tear_page(bytes, size, first + k, blank_page(size), torn);
    }
}

fn charge_cell(bytes: &mut [u8], size: usize, page: usize, cell: u32)
    requires room { (page + 1) * size ≤ length bytes.old }
    requires cell { cell < 8 * size }
    ensures { ChangesPage size page bytes.old bytes.new (charge (slice_chunk bytes.old size page) cell) }
{
    let at = page * size + (cell / 8) as usize;
    bytes[at] |= 1u8 << (cell % 8);
}

fn is_reached(torn: Torn, cell: u32) -> bool
    ensures { result ≡ reaches torn cell }
{
    match torn {
        Torn::Nothing => false,
        Torn::All => true,
        Torn::Mask(mask) => (mask >> (cell % 64)) & 1 == 1,
    }
}

/// Charges a cell of a page, cut in this form.
pub fn tear_cell(bytes: &mut [u8], size: usize, page: usize, cell: u32, torn: Torn)
    requires room { (page + 1) * size ≤ length bytes.old }
    requires cell { cell < 8 * size }
    ensures change { ChangesPage size page bytes.old bytes.new (if reaches torn cell then charge (slice_chunk bytes.old size page) cell else slice_chunk bytes.old size page) }
    ensures bytes { All (λ byte. byte < 256) bytes.new }
{
    if is_reached(torn, cell) {
        charge_cell(bytes, size, page, cell);
    }
}
