//! A device on a die in memory, as a test begins with it.
use cell_die::Shape;
use mem_die::MemDie;
use rssd_core::{Ftl, Plan, mount};
use std::alloc::Global;
use std::process::Abort;
use std::test::Fail;
use striped::Scheme;

/// A device on a die, which is read.
pub fn mounted<C: Scheme + Drop>(
    alloc: Global,
    die: MemDie,
    scheme: C,
    plan: Plan,
) -> Result<Ftl<MemDie, C>, Fail> {
    Ok(mount(alloc, die, scheme, plan).map_err(|refused| refused.why)?)
}

/// A device on a new die of so many blocks and pages, whose pages are those of the scheme.
pub fn started<C: Scheme + Drop>(
    rt: &impl Abort,
    alloc: Global,
    scheme: C,
    blocks: u32,
    pages: u32,
    plan: Plan,
) -> Result<Ftl<MemDie, C>, Fail> {
    assert!(rt; scheme.generations() <= 3);
    let shape = Shape {
        blocks,
        pages,
        main_bytes: scheme.page_bytes(),
        spare_bytes: 16 * scheme.generations(),
    };
    mounted(alloc, MemDie::blank(alloc, shape)?, scheme, plan)
}
