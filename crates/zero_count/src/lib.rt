//! Header words: 13 bytes of a header, and then the number of their zero bits as the last byte.
//! A word that lost or gained a charge on the way is mostly no valid word, and never one that lies
//! below another valid word. This layer knows words alone, and neither slots nor pages.
#![tactic(auto)]

ghost use Rattle.std.specs.Prelude.{◌≡◌, ◌≤◌, length, Some};
ghost use Rattle.zero_count.specs.HeaderWord.{header_of, spelling, zero_bits};

#[cfg(test)]
mod tests;

/// What a record says of itself.
///
/// `kind` is 1 for the sector's bytes and 3 for zeros; 2 and 4 are the same, copied by a collection.
#[derive(Clone, Copy, Debug, PartialEq, Eq)]
pub struct Header {
    pub sector: u32,
    pub seq: u64,
    pub kind: u8,
}

/// Writes the valid word of a header whose kind is 1 to 4.
pub fn spell(header: &Header, into: &mut [u8; 14])
    requires least_kind { 1 ≤ header.now.kind }
    requires greatest_kind { header.now.kind ≤ 4 }
    ensures word { into.new ≡ spelling header.now }
    ensures read_back { header_of into.new ≡ Some header.now }
{
    let Header { sector, seq, kind } = *header;
    let s = sector.to_le_bytes();
    let q = seq.to_le_bytes();
    let mut word: [u8; 14] = [
        s[0], s[1], s[2], s[3], q[0], q[1], q[2], q[3], q[4], q[5], q[6], q[7], kind, 0,
    ];
    word[13] = zeros_of(&word[..13]) as u8;
    *into = word;
}

/// The header that the word spells, and `None` where the word is not valid: where its last byte is
/// not the number of zero bits of the others, or its kind is not 1 to 4.
pub fn read(word: &[u8; 14]) -> Option<Header>
    ensures { result ≡ header_of word.now }
{
    read_word(word)
}

fn read_word(word: &[u8]) -> Option<Header>
    requires { length word.now ≡ 14 }
    ensures { result ≡ header_of word.now }
{
    let kind = word[12];
    if zeros_of(&word[..13]) != u32::from(word[13]) || kind < 1 || kind > 4 {
        return None;
    }
    Some(Header {
        sector: u32::from_le_bytes([word[0], word[1], word[2], word[3]]),
        seq: u64::from_le_bytes([
            word[4], word[5], word[6], word[7], word[8], word[9], word[10], word[11],
        ]),
        kind,
    })
}

/// The number of zero bits of at most 13 bytes.
fn zeros_of(bytes: &[u8]) -> u32
    requires { length bytes.now ≤ 13 }
    ensures value { result ≡ zero_bits bytes.now }
    ensures small { result ≤ 104 }
{
    let mut zeros: u32 = 0;
    for byte in bytes {
        zeros += 8 - byte.count_ones();
    }
    zeros
}
