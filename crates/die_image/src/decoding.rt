//! Images that are read as a whole.
ghost use Rattle.std.specs.Prelude.{◌≡◌, false, true, [], List, ℕ, IfOk, Ok};
ghost use Rattle.die_image.specs.declared.head.ImageHead.{ImageHead as Head};
ghost use Rattle.die_image.specs.Image.{image, old_image, image_read, Gives, AreCells, AreOldCells};

use crate::{ImageError, ImageHead, ImageReader};
use std::alloc::Global;

/// Feeds the reader all that it wants.
fn read_all(mut reader: ImageReader, bytes: &[u8]) -> Result<(ImageHead, Vec<u8>), ImageError>
    requires fresh { reader.is_failed ≡ false }
    requires empty { reader.bytes ≡ [] }
    ensures { Gives (λ image. (image.0, image.1.items)) result (image_read reader.is_old bytes.now) }
{
    let wanted = reader.wants() as usize;
    let (head, rest) = bytes.split_at(bytes.len().min(wanted));
    reader.feed(head)?;
    let wanted = reader.wants() as usize;
    let (cells, _) = rest.split_at(rest.len().min(wanted));
    reader.feed(cells)?;
    reader.end()
}

/// The head and the cells of an image of version 2.
pub fn decode(alloc: Global, bytes: &[u8]) -> Result<(ImageHead, Vec<u8>), ImageError>
    // What is read has this image.
    ensures found { IfOk result (λ read. AreCells read.0 read.1.items × (bytes.now ≡ image read.0 read.1.items)) }
    // What has this image is read, unless memory runs out.
    ensures only { (head : Head) (cells : List ℕ) → AreCells head cells → bytes.now ≡ image head cells
        → Gives {Y = Head × List ℕ} (λ read. (read.0, read.1.items)) result (Ok (head, cells)) }
    // Which refusal it is.
    ensures exact { Gives (λ read. (read.0, read.1.items)) result (image_read false bytes.now) }
{
    read_all(ImageReader::new(alloc), bytes)
}

/// The head and the cells of an image of version 1.
pub fn decode_old(alloc: Global, bytes: &[u8]) -> Result<(ImageHead, Vec<u8>), ImageError>
    // What is read has this image.
    ensures found { IfOk result (λ read. AreOldCells read.0 read.1.items × (bytes.now ≡ old_image read.0 read.1.items)) }
    // What has this image is read, unless memory runs out.
    ensures only { (head : Head) (cells : List ℕ) → AreOldCells head cells → bytes.now ≡ old_image head cells
        → Gives {Y = Head × List ℕ} (λ read. (read.0, read.1.items)) result (Ok (head, cells)) }
    // Which refusal it is.
    ensures exact { Gives (λ read. (read.0, read.1.items)) result (image_read true bytes.now) }
{
    read_all(ImageReader::old(alloc), bytes)
}
