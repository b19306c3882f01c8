ghost use Rattle.std.specs.Prelude.{◌≡◌, ◌++◌, OnOk};
ghost use Rattle.std.specs.List.{list_all};
ghost use Rattle.page_spec.specs.Markup as spec;
ghost use Rattle.xexpr_page.specs.Plain.{is_plain_in_text, is_plain_in_attribute};

use std::alloc::AllocError;

fn push_text_byte(page: &mut Vec<u8>, byte: u8) -> Result<(), AllocError>
    ensures { OnOk result (page.new.items ≡ page.old.items ++ spec.text_byte byte) }
{
    match byte {
        b'&' => page.extend_from_slice(b"&amp;")?,
        b'<' => page.extend_from_slice(b"&lt;")?,
        b'>' => page.extend_from_slice(b"&gt;")?,
        _ => page.push(byte)?,
    }
    Ok(())
}

fn push_attribute_byte(page: &mut Vec<u8>, byte: u8) -> Result<(), AllocError>
    ensures { OnOk result (page.new.items ≡ page.old.items ++ spec.attribute_byte byte) }
{
    if byte == b'"' {
        page.extend_from_slice(b"&quot;")?;
        return Ok(());
    }
    push_text_byte(page, byte)
}

// Whether a text keeps a byte as it is.
fn is_plain_in_text(byte: u8) -> bool
    ensures { result ≡ is_plain_in_text byte }
{
    !matches!(byte, b'&' | b'<' | b'>')
}

// Whether a text is as it is on a page too.
fn is_plain_text(bytes: &[u8]) -> bool
    ensures { result ≡ list_all is_plain_in_text bytes.now }
{
    bytes.iter().all(|byte| is_plain_in_text(*byte))
}

// Whether an attribute's text keeps a byte as it is.
fn is_plain_in_attribute(byte: u8) -> bool
    ensures { result ≡ is_plain_in_attribute byte }
{
    byte != b'"' && is_plain_in_text(byte)
}

// Whether an attribute's text is as it is on a page too.
fn is_plain_attribute_text(bytes: &[u8]) -> bool
    ensures { result ≡ list_all is_plain_in_attribute bytes.now }
{
    bytes.iter().all(|byte| is_plain_in_attribute(*byte))
}

/// Puts a text after the page, with `&`, `<` and `>` as entities.
#[tactic(auto, using(crate::proofs::Plain::plain_text))]
pub fn push_text(page: &mut Vec<u8>, text: &str) -> Result<(), AllocError>
    ensures { OnOk result (page.new.items ≡ page.old.items ++ spec.escaped_text text.now) }
{
    if is_plain_text(text.as_bytes()) {
        page.extend_from_slice(text.as_bytes())?;
        return Ok(());
    }
    for byte in text.as_bytes() {
        push_text_byte(page, *byte)?;
    }
    Ok(())
}

/// Puts an attribute's text after the page, with `&`, `<`, `>` and `"` as entities.
#[tactic(auto, using(crate::proofs::Plain::plain_attribute))]
pub fn push_attribute_text(page: &mut Vec<u8>, text: &str) -> Result<(), AllocError>
    ensures { OnOk result (page.new.items ≡ page.old.items ++ spec.escaped_attribute text.now) }
{
    if is_plain_attribute_text(text.as_bytes()) {
        page.extend_from_slice(text.as_bytes())?;
        return Ok(());
    }
    for byte in text.as_bytes() {
        push_attribute_byte(page, *byte)?;
    }
    Ok(())
}
