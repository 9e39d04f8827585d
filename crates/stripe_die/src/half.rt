//! Where the pages and blocks of a pair stand: block `k` is block `k / 2` of the first die where `k` is even, and of the
//! second where `k` is odd, and a page keeps its place within its block.
ghost use Rattle.std.specs.Prelude.{◌≡◌, ◌<◌};
ghost use Rattle.stripe_die.specs.Places.{block_place, page_place};

/// The number of a page or a block in one of two dies.
#[derive(Clone, Copy, Debug, PartialEq, Eq)]
pub enum Half {
    First(u32),
    Second(u32),
}

/// Where a block of the pair stands.
pub fn block_place(block: u32) -> Half
    ensures { result ≡ block_place block }
{
    if block % 2 == 0 {
        Half::First(block / 2)
    } else {
        Half::Second(block / 2)
    }
}

/// Where a page of the pair stands, the dies having `pages` pages a block.
pub fn page_place(pages: u32, page: u32) -> Half
    requires { 0 < pages }
    ensures { result ≡ page_place pages page }
{
    match block_place(page / pages) {
        Half::First(block) => Half::First(block * pages + page % pages),
        Half::Second(block) => Half::Second(block * pages + page % pages),
    }
}
