ghost use Rattle.std.specs.Prelude.{◌≡◌, Some, IfOk, string_bytes};
ghost use Rattle.page_names.specs.Names.{page, spelling, destination_of};
ghost use Rattle.page_names.specs.Views.{name_of};

use crate::names::{PageName, ScriptName};
use crate::parse::LONGEST_SPELLING;
use script_value::Bytes;
use std::alloc::{AllocError, Global};

/// The URL of a page, as a text.
#[tactic(auto, using(crate::proofs::Hex::hex_written))]
pub fn url_text(alloc: Global, name: &ScriptName, numbers: PageName) -> Result<String, AllocError>
    ensures { IfOk result (λ text. string_bytes text ≡ spelling (page (name_of name.now) numbers)) }
{
    let name = name.as_str();
    let PageName {
        shelf,
        instance,
        page,
        nonce,
    } = numbers;
    let mut url = String::with_capacity(alloc, LONGEST_SPELLING)?;
    write!(
        url,
        "/servlets/{name};{shelf}*{instance}*{page}*{nonce:016x}"
    )?;
    Ok(url)
}

/// The URL of a page.
pub fn write_url(alloc: Global, name: &ScriptName, numbers: PageName) -> Result<Bytes, AllocError>
    ensures spelled { IfOk result (λ bytes. bytes ≡ spelling (page (name_of name.now) numbers)) }
    ensures read_back { IfOk result (λ bytes. destination_of bytes ≡ Some (page (name_of name.now) numbers)) }
{
    let text = url_text(alloc, name, numbers)?;
    Ok(Bytes::new(text.into_bytes()))
}
