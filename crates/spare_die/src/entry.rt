//! One entry of the table: bytes 0 to 3 of a table page name a logical block and bytes 4 to 7 the inner block that stands in
//! for it. An entry counts once its gate, cell 64, is charged. All numbers are little endian.
ghost use Rattle.std.specs.Prelude.{◌≡◌, ◌≤◌, ◌↔◌, false, length, IsNone, IfSome};
ghost use Rattle.spare_die.specs.Table.{is_gated, logical_of, inner_of, entry_page};

/// The cell that is the gate of an entry.
pub const GATE: u32 = 64;

/// A logical block and the reserve block that stands in for it.
#[derive(Clone, Copy, Debug, PartialEq, Eq)]
pub struct Entry {
    pub logical: u32,
    pub inner: u32,
}

/// Writes the page of an entry whose gate is not charged.
pub fn spell(entry: Entry, into: &mut [u8])
    requires { 9 ≤ length into.old }
    ensures { into.new ≡ entry_page entry.logical entry.inner (length into.old) }
{
    into.fill(0);
    into[..4].copy_from_slice(&entry.logical.to_le_bytes());
    into[4..8].copy_from_slice(&entry.inner.to_le_bytes());
}

/// The entry of a page, where its gate is charged.
pub fn read(page: &[u8]) -> Option<Entry>
    requires { 9 ≤ length page.now }
    ensures none { IsNone result ↔ (is_gated page.now ≡ false) }
    ensures logical { IfSome result (λ entry. entry.logical ≡ logical_of page.now) }
    ensures inner { IfSome result (λ entry. entry.inner ≡ inner_of page.now) }
{
    if !cell_bits::bit(page, GATE) {
        return None;
    }
    let mut logical = [0; 4];
    let mut inner = [0; 4];
    logical.copy_from_slice(&page[..4]);
    inner.copy_from_slice(&page[4..8]);
    Some(Entry {
        logical: u32::from_le_bytes(logical),
        inner: u32::from_le_bytes(inner),
    })
}
