//! Chunks of few cells on one page go several at a time: the cells of a group of chunks stand in one word,
//! and so do their messages. Chunk `j` of a group has the `N` cells from bit `j * N` on.

ghost use Rattle.std.specs.Prelude.{◌≡◌, ℕ, ◌+◌, ◌-◌, ◌*◌, ◌≤◌, ◌<◌, ◌^◌, min, Bool, true, List, length};
ghost use Rattle.std.specs.Int.{bit_at};
ghost use Rattle.cell_bits.specs.Cells.{charge_at};
ghost use Rattle.striped.specs.Groups.{WritesGroup, DeclinesGroup, ReadsGroup};
ghost use Rattle.striped.specs.Striping.{decoded};
ghost use Rattle.striped.specs.Writes.{striping_of, WritesChunks, DeclinesChunk};
ghost use Rattle.striped.specs.Layouts.{IsLayout};

use crate::bytes::{put_cells, take_cells};
use crate::chunks::Layout;
use crate::rows::ones;
use wom_code::{Carry, PackedCode};

/// How many chunks of so many cells make a group, at most sixteen. Small ones fill whole bytes together.
#[inline(always)]
fn group_of(cells: usize) -> usize
    requires some { 1 ≤ cells }
    requires few { cells ≤ 64 }
    ensures some { 1 ≤ result }
    ensures few { result ≤ 16 }
    ensures fits { result * cells ≤ 64 }
{
    if cells <= 4 {
        16
    } else if cells <= 8 {
        8
    } else {
        64 / cells
    }
}

/// The messages of a group, of which the first `here` bits stand within the sector.
#[inline(always)]
fn take_messages(sector: &[u8], first: usize, count: usize, here: usize) -> u64
    requires small { 8 * length sector.now < 2 ^ 32 }
    requires starts { first < 8 * length sector.now }
    requires some { 1 ≤ count }
    requires word { count ≤ 64 }
    requires here { here ≡ min count (8 * length sector.now - first) }
    ensures { (i : ℕ) → i < count → bit_at result i ≡ charge_at sector.now (first + i) }
{
    take_cells(sector, first, here)
}

/// Puts the messages of a group, of which the first `here` bits stand within the sector.
#[inline(always)]
fn put_messages(sector: &mut [u8], first: usize, count: usize, here: usize, bits: u64)
    requires small { 8 * length sector.old < 2 ^ 32 }
    requires starts { first < 8 * length sector.old }
    requires some { 1 ≤ count }
    requires word { count ≤ 64 }
    requires here { here ≡ min count (8 * length sector.old - first) }
    ensures put { (i : ℕ) → i < count → first + i < 8 * length sector.old → charge_at sector.new (first + i) ≡ bit_at bits i }
    ensures below { (c : ℕ) → c < first → charge_at sector.new c ≡ charge_at sector.old c }
{
    put_cells(sector, first, here, bits & ones(here));
}

/// The old cells of a group, of which none is charged where the bytes are blank.
#[inline(always)]
fn old_cells(bytes: &[u8], at: usize, count: usize, blank: bool) -> u64
    requires small { 8 * length bytes.now < 2 ^ 32 }
    requires some { 1 ≤ count }
    requires word { count ≤ 64 }
    requires within { at + count ≤ 8 * length bytes.now }
    requires blank { blank ≡ true → (i : ℕ) → at ≤ i → charge_at bytes.now i ≡ 0 }
    ensures { (i : ℕ) → i < count → bit_at result i ≡ charge_at bytes.now (at + i) }
{
    if blank {
        0
    } else {
        take_cells(bytes, at, count)
    }
}

/// Reads the messages of `count` chunks from chunk `done` on into the sector, in which `here` bits are left for them.
#[inline(always)]
fn read_group<C: PackedCode<K, N>, const K: usize, const N: usize>(
    code: &C,
    bytes: &[u8],
    sector: &mut [u8],
    done: usize,
    count: usize,
    here: usize,
)
    requires some_bits { 1 ≤ K }
    requires few_bits { K ≤ N }
    requires some { 1 ≤ count }
    requires few { count ≤ 16 }
    requires word { count * N ≤ 64 }
    requires small_bytes { 8 * length bytes.now < 2 ^ 32 }
    requires small_sector { 8 * length sector.old < 2 ^ 32 }
    requires within { done * N + count * N ≤ 8 * length bytes.now }
    requires starts { done * K < 8 * length sector.old }
    requires here { here ≡ min (count * K) (8 * length sector.old - done * K) }
    ensures { ReadsGroup N K done count (C.decoding code.now) bytes.now sector.old sector.new }
{
    let cells = take_cells(bytes, done * N, count * N);
    let messages = code.decode_group(count, cells);
    put_messages(sector, done * K, count * K, here, messages);
}

/// Writes the messages of `count` chunks from chunk `done` on over their cells, or none of them. In the sector `here` bits
/// are left for them. Where the cells are blank, they are not read.
#[inline(always)]
fn write_group<C: PackedCode<K, N>, const K: usize, const N: usize>(
    code: &mut C,
    bytes: &mut [u8],
    sector: &[u8],
    done: usize,
    count: usize,
    here: usize,
    blank: bool,
) -> Carry
    requires some_bits { 1 ≤ K }
    requires few_bits { K ≤ N }
    requires some { 1 ≤ count }
    requires few { count ≤ 16 }
    requires word { count * N ≤ 64 }
    requires small_bytes { 8 * length bytes.old < 2 ^ 32 }
    requires small_sector { 8 * length sector.now < 2 ^ 32 }
    requires within { done * N + count * N ≤ 8 * length bytes.old }
    requires starts { done * K < 8 * length sector.now }
    requires here { here ≡ min (count * K) (8 * length sector.now - done * K) }
    requires blank { blank ≡ true → (i : ℕ) → done * N ≤ i → charge_at bytes.old i ≡ 0 }
    ensures written { result ≡ Carry.Carried → WritesGroup N K done count (C.decoding code.old) (C.gives code.old) bytes.old bytes.new sector.now }
    ensures declined { result ≡ Carry.Declined → DeclinesGroup N K done count (C.decoding code.old) bytes.old sector.now }
    ensures same_code { (row : List Bool) → C.decoding code.new row ≡ C.decoding code.old row }
    ensures same_cells { (before message after : List Bool) → C.gives code.new before message after ≡ C.gives code.old before message after }
{
    let cells = old_cells(bytes, done * N, count * N, blank);
    let messages = take_messages(sector, done * K, count * K, here);
    match code.over_group(count, cells, messages) {
        None => Carry::Declined,
        Some(new) => {
            put_cells(bytes, done * N, count * N, new);
            Carry::Carried
        }
    }
}

/// Reads the message of each chunk into the sector, a group at a time. The last group may be a short one.
#[inline(always)]
pub fn read_groups<C: PackedCode<K, N>, const K: usize, const N: usize>(
    code: &C,
    layout: Layout,
    bytes: &[u8],
    sector: &mut [u8],
)
    requires layout { IsLayout K N (length sector.old) layout }
    requires bytes { length bytes.now ≡ layout.span * layout.page_bytes }
    requires one_page { layout.span ≡ 1 }
    requires few_bits { K ≤ N }
    requires few_cells { N ≤ 64 }
    ensures { sector.new ≡ decoded (striping_of layout K N sector.old) N (C.decoding code.now) bytes.now }
{
    let group = group_of(N);
    let whole = 8 * sector.len() / K;
    for turn in 0..whole / group {
        read_group(code, bytes, sector, turn * group, group, group * K);
    }
    let done = whole / group * group;
    if done < layout.chunks {
        let here = 8 * sector.len() - done * K;
        read_group(code, bytes, sector, done, layout.chunks - done, here);
    }
}

/// Writes the message of each chunk over its cells, a group at a time, up to the first group of which one does not take
/// it. The last group may be a short one.
#[inline(always)]
pub fn write_groups<C: PackedCode<K, N>, const K: usize, const N: usize>(
    code: &mut C,
    layout: Layout,
    bytes: &mut [u8],
    sector: &[u8],
    blank: bool,
) -> Carry
    requires layout { IsLayout K N (length sector.now) layout }
    requires bytes { length bytes.old ≡ layout.span * layout.page_bytes }
    requires one_page { layout.span ≡ 1 }
    requires few_bits { K ≤ N }
    requires few_cells { N ≤ 64 }
    requires blank { blank ≡ true → (i : ℕ) → charge_at bytes.old i ≡ 0 }
    ensures written { result ≡ Carry.Carried → WritesChunks layout K N (C.decoding code.old) (C.gives code.old) bytes.old bytes.new sector.now }
    ensures declined { result ≡ Carry.Declined → DeclinesChunk layout K N (C.decoding code.old) bytes.old sector.now }
    ensures same_code { (row : List Bool) → C.decoding code.new row ≡ C.decoding code.old row }
    ensures same_cells { (before message after : List Bool) → C.gives code.new before message after ≡ C.gives code.old before message after }
{
    let group = group_of(N);
    let whole = 8 * sector.len() / K;
    for turn in 0..whole / group {
        match write_group(code, bytes, sector, turn * group, group, group * K, blank) {
            Carry::Declined => return Carry::Declined,
            Carry::Carried => {}
        }
    }
    let done = whole / group * group;
    if done < layout.chunks {
        let here = 8 * sector.len() - done * K;
        return write_group(code, bytes, sector, done, layout.chunks - done, here, blank);
    }
    Carry::Carried
}
