//! Shelves that are opened again with another setup.
ghost use Rattle.std.specs.Prelude.{true};
ghost use Rattle.script_nodes.specs.Views.{scripts_of};
ghost use Rattle.setup_reader.specs.Texts.{IsReadSetup};
ghost use Rattle.disk_trio.specs.Trio.{trio_view};
ghost use Rattle.shelf.specs.Views.{IsInOrder};

use crate::openings::{MemoryShelf, answered, bytes_of, created, reopened};
use crate::texts::{datum, setup, text_of};
use script_nodes::Setup;
use script_value::Reply;
use std::alloc::Global;
use std::test::Fail;

/// A script with a page after another.
pub const OLD: &str = "(begin (send/suspend (lambda (u) \"a\")) (send/suspend (lambda (u) \"b\")))";

/// A script with other pages, one after the other.
pub const NEW: &str = "(begin (send/suspend (lambda (u) \"c\")) (send/suspend (lambda (u) \"d\")))";

/// The path of a start.
pub const START: &str = "/servlets/s";

/// The page that the first start of a shelf shows.
pub const FIRST: &str = "/servlets/s;7*0*0*0000000000000000";

/// Refuses a shelf on which a path shows another page.
pub fn expect_page(
    alloc: Global,
    shelf: &mut MemoryShelf,
    path: &str,
    page: &str,
) -> Result<(), Fail>
    requires { IsInOrder trio_view true shelf.old }
    ensures { IsInOrder trio_view true shelf.new }
{
    match answered(alloc, shelf, path, datum(alloc, "()")?)? {
        Reply::Page { bytes, .. } => {
            if text_of(&bytes)? == page {
                return Ok(());
            }
            Err(Fail::from("another page"))
        }
        _ => Err(Fail::from("no page")),
    }
}

/// What stands on the disk of a new shelf of this setup after a start.
pub fn started(alloc: Global, setup: &Setup) -> Result<Vec<u8>, Fail>
    requires { IsReadSetup (scripts_of setup.now) }
{
    let mut shelf = created(alloc, setup)?;
    expect_page(alloc, &mut shelf, START, "a")?;
    bytes_of(alloc, shelf)
}

/// What stands on a disk of these bytes once a shelf of this setup was opened on it, and closed.
pub fn opened(alloc: Global, bytes: Vec<u8>, setup: &Setup) -> Result<Vec<u8>, Fail>
    requires { IsReadSetup (scripts_of setup.now) }
{
    bytes_of(alloc, reopened(alloc, bytes, setup)?)
}

// An opening with another text adds a record of 19 bytes and the text, and one with the same text adds none.
#[test]
fn another_text_is_told_once(rt: HostRuntime) -> Result<(), Fail> {
    let alloc = rt.alloc();
    let old = setup(alloc, &[("s", OLD)])?;
    let new = setup(alloc, &[("s", NEW)])?;
    let first = started(alloc, &old)?;
    let len = first.len();
    let same = opened(alloc, first, &old)?;
    assert_eq!(rt; same.len(), len);
    let renewed = opened(alloc, same, &new)?;
    let longer = renewed.len();
    assert_eq!(rt; longer, len.saturating_add(19).saturating_add(NEW.len()));
    assert_eq!(rt; opened(alloc, renewed, &new)?.len(), longer);
    Ok(())
}

// A page goes on with the script of its instance, and a start is one of the new script.
#[test]
fn a_page_goes_on_with_its_script(rt: HostRuntime) -> Result<(), Fail> {
    let alloc = rt.alloc();
    let old = setup(alloc, &[("s", OLD)])?;
    let new = setup(alloc, &[("s", NEW)])?;
    let mut shelf = reopened(alloc, started(alloc, &old)?, &new)?;
    expect_page(alloc, &mut shelf, START, "c")?;
    expect_page(alloc, &mut shelf, FIRST, "b")?;
    let bytes = bytes_of(alloc, shelf)?;
    let mut again = reopened(alloc, bytes, &new)?;
    expect_page(alloc, &mut again, FIRST, "b")?;
    expect_page(alloc, &mut again, START, "c")
}
