//! What a read of a sector is answered: its bytes without the zeros at the end.
ghost use Rattle.std.specs.Prelude.{◌≡◌, ◌≤◌, take, length};
ghost use Rattle.rssd_script.specs.Text.{IsTrimmed};
ghost use Rattle.rssd_core.specs.SectorArray.{without_zeros};

use cell_bits::is_blank;
use rssd_script::{Reply, ReplyBytes};

/// How many bytes there are before the zeros at the end. A row of zeros alone is passed at once.
fn length_without_zeros(bytes: &[u8]) -> usize
    ensures within { result ≤ length bytes.now }
    ensures bytes { take result bytes.now ≡ without_zeros bytes.now }
    ensures trimmed { IsTrimmed (without_zeros bytes.now) }
{
    if is_blank(bytes) {
        return 0;
    }
    let mut count = bytes.len();
    while count > 0 && bytes[count - 1] == 0 {
        count -= 1;
    }
    count
}

/// The reply to a read of these bytes: they are told without the zeros at the end.
pub fn bytes_reply(bytes: &[u8]) -> Reply
    requires { length bytes.now ≤ 512 }
    ensures { result ≡ Reply.Bytes (without_zeros bytes.now) }
{
    let count = length_without_zeros(bytes);
    Reply::Bytes(ReplyBytes::of(&bytes[..count]))
}
