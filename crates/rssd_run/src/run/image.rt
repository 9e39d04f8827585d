//! An image from a source and to a sink, in pieces. The head is tested before any more is read, and no byte is read that cannot
//! change the answer. The whole image is not held beside its cells.
ghost use Rattle.std.specs.Prelude.{◌≡◌, ℕ, List, false, [], min, IfOk, OnOk, IfErr, OnErr};
ghost use Rattle.die_image.specs.declared.head.ImageHead.{ImageHead as Head};
ghost use Rattle.die_image.specs.Image.{image, wanted, AreCells};
ghost use Rattle.rssd_io.specs.Event.{bytes_of, since};
ghost use Rattle.rssd_io.specs.Pieces.{HandsOn, StopsIn, all_given};
ghost use Rattle.rssd_io.specs.Told.{TellsLeft, TellsHeld};
ghost use Rattle.rssd_run.specs.GiveImage.{image_pieces};
ghost use Rattle.rssd_run.specs.ReadImage.{ReadsImage, RefusesImage, TakesImage, IsFed, HasAll};

use die_image::{ImageError, ImageHead, ImageReader, encode_head};
use rssd_io::{Sink, Source, WriteFault};

/// How many bytes are taken at once.
const PIECE: usize = 32768;

/// Why an image was not read.
#[derive(Clone, Copy, Debug, PartialEq, Eq)]
pub enum ImageReadError {
    /// The source failed.
    Fault,
    Refused(ImageError),
}

/// How many bytes are taken next: what the reader wants, up to a piece.
fn next_count(reader: &ImageReader) -> usize
    ensures { result ≡ min (wanted reader.now) 32_768 }
{
    reader.wants().min(PIECE as u64) as usize
}

/// Feeds a reader what it wants of what the source has left. Each turn takes at least one byte, or ends.
fn feed_wanted<I: Source>(reader: &mut ImageReader, image: &mut I) -> Result<(), ImageReadError>
    requires fresh { reader.old.is_failed ≡ false }
    requires empty { reader.old.bytes ≡ [] }
    ensures fed { OnOk result (IsFed (I.log image.old) (I.log image.new) reader.old reader.new) }
    ensures all { OnOk result (HasAll (since (I.log image.old) (I.log image.new)) reader.new) }
    ensures refused { IfErr result (RefusesImage reader.old.is_old (I.log image.old) (I.log image.new)) }
    ensures bounded { TakesImage reader.old.is_old (I.log image.old) (I.log image.new) }
    ensures left { TellsLeft (I.left image.old) (I.left image.new) (I.log image.old) (I.log image.new) }
{
    let mut piece = [0u8; PIECE];
    let mut room = next_count(reader);
    while room > 0 {
        match image.take(&mut piece[..room]) {
            Ok(0) => return Ok(()),
            Ok(count) => match reader.feed(&piece[..count]) {
                Ok(()) => room = next_count(reader),
                Err(_) => return Err(ImageReadError::Refused(ImageError::OutOfMemory)),
            },
            Err(_) => return Err(ImageReadError::Fault),
        }
    }
    Ok(())
}

/// Reads an image, by a reader that was fed nothing yet.
///
/// # Errors
///
/// `Fault` exactly where a take failed, and a refusal by the bytes that were taken, whatever follows them.
pub fn read_image<I: Source>(
    mut reader: ImageReader,
    image: &mut I,
) -> Result<(ImageHead, Vec<u8>), ImageReadError>
    requires fresh { reader.is_failed ≡ false }
    requires empty { reader.bytes ≡ [] }
    ensures read { IfOk result (λ read. ReadsImage reader.is_old (I.log image.old) (I.log image.new) read.0 read.1.items) }
    ensures cells { IfOk result (λ read. AreCells read.0 read.1.items) }
    ensures refused { IfErr result (RefusesImage reader.is_old (I.log image.old) (I.log image.new)) }
    ensures bounded { TakesImage reader.is_old (I.log image.old) (I.log image.new) }
    ensures left { TellsLeft (I.left image.old) (I.left image.new) (I.log image.old) (I.log image.new) }
{
    feed_wanted(&mut reader, image)?;
    match reader.end() {
        Ok((head, cells)) => Ok((head, cells)),
        Err(why) => Err(ImageReadError::Refused(why)),
    }
}

/// Gives the image of a head and of cells to a sink: the head in one piece of 32 bytes, and then page after page; and then has
/// the sink hand them on.
pub fn give_image<G: Sink>(
    head: &ImageHead,
    cells: &[u8],
    image_out: &mut G,
) -> Result<(), WriteFault>
    ensures done { OnOk result (HandsOn (image_pieces head.now cells.now) (G.log image_out.old) (G.log image_out.new)) }
    ensures front { OnErr result (StopsIn (image_pieces head.now cells.now) (G.log image_out.old) (G.log image_out.new)) }
    ensures held { TellsHeld (G.written image_out.old) (G.written image_out.new) (G.log image_out.old) (G.log image_out.new) }
{
    image_out.give(&encode_head(head))?;
    let page_bytes = head.scheme.page_bytes() + 16 * head.scheme.generations();
    for page in cells.chunks(page_bytes as usize) {
        image_out.give(page)?;
    }
    image_out.flush()
}

/// The pieces of an image, one after another, are the image.
pub fn the_pieces_of_an_image_are_the_image()
    ensures { (head : Head) (cells : List ℕ) → bytes_of (all_given (image_pieces head cells)) ≡ image head cells }
{}

#[cfg(test)]
mod tests;
