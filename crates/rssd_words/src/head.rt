//! The head of a device among the words.
ghost use Rattle.std.specs.Prelude.{◌≡◌, true, ◌≤◌, map, IfSome, Some, string_bytes};
ghost use Rattle.die_image.specs.declared.head.ImageHead.{ImageHead as Head};
ghost use Rattle.die_image.specs.Image.{is_within_limits};
ghost use Rattle.rssd_words.specs.Commands.{head_words};

use crate::numbers::read_small;
use die_image::{ImageHead, SchemeName, within_limits};

/// The head that the words spell: SCHEME BLOCKS PAGES SECTORS REUSE.
pub fn read_head(words: &[String]) -> Option<ImageHead>
    ensures small { IfSome result (λ head. (head.blocks ≤ 1_024) × (head.pages ≤ 128)) }
    ensures found { IfSome result (λ head. (is_within_limits head ≡ true) × (map string_bytes words.now ≡ head_words head)) }
    ensures only { (head : Head) → is_within_limits head ≡ true → map string_bytes words.now ≡ head_words head → result ≡ Some head }
{
    match words {
        [scheme, blocks, pages, sectors, reuse_max] => {
            let head = ImageHead {
                scheme: SchemeName::of_name(scheme.as_str())?,
                blocks: read_small(blocks.as_str())?,
                pages: read_small(pages.as_str())?,
                sectors: read_small(sectors.as_str())?,
                reuse_max: read_small(reuse_max.as_str())?,
            };
            within_limits(&head).then_some(head)
        }
        _ => None,
    }
}
