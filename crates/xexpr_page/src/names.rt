ghost use Rattle.std.specs.Prelude.{◌≡◌, false};
ghost use Rattle.std.specs.List.{list_all};
ghost use Rattle.page_spec.specs.Markup as spec;

fn is_element_byte(byte: u8) -> bool
    ensures { result ≡ spec.is_element_byte byte }
{
    byte.is_ascii_lowercase() || byte.is_ascii_digit() || byte == b'-'
}

fn are_element_bytes(bytes: &[u8]) -> bool
    ensures { result ≡ list_all spec.is_element_byte bytes.now }
{
    bytes.iter().all(|byte| is_element_byte(*byte))
}

fn is_attribute_byte(byte: u8) -> bool
    ensures { result ≡ spec.is_attribute_byte byte }
{
    is_letter_or_digit(byte) || matches!(byte, b'-' | b'_' | b':' | b'.')
}

fn is_letter(byte: u8) -> bool
    ensures { result ≡ spec.is_letter byte }
{
    byte.is_ascii_lowercase() || byte.is_ascii_uppercase()
}

fn is_letter_or_digit(byte: u8) -> bool
    ensures { result ≡ spec.is_letter_or_digit byte }
{
    is_letter(byte) || byte.is_ascii_digit()
}

fn are_attribute_bytes(bytes: &[u8]) -> bool
    ensures { result ≡ list_all spec.is_attribute_byte bytes.now }
{
    bytes.iter().all(|byte| is_attribute_byte(*byte))
}

fn are_letters_and_digits(bytes: &[u8]) -> bool
    ensures { result ≡ list_all spec.is_letter_or_digit bytes.now }
{
    bytes.iter().all(|byte| is_letter_or_digit(*byte))
}

/// Whether this is the name of a void element, which has no children and no end tag.
///
/// Source: HTML Living Standard, 13.1.2 Elements, void elements.
#[tactic(auto, using(crate::proofs::VoidNames::void_of_2, crate::proofs::VoidNames::void_of_3, crate::proofs::VoidNames::void_of_4, crate::proofs::VoidNames::void_of_5, crate::proofs::VoidNames::void_of_6, crate::proofs::VoidNames::void_of_no_length))]
pub fn is_void(name: &str) -> bool
    ensures { result ≡ spec.is_void name.now }
{
    match name.len() {
        2 => name == "br" || name == "hr",
        3 => name == "col" || name == "img" || name == "wbr",
        4 => name == "area" || name == "base" || name == "link" || name == "meta",
        5 => name == "embed" || name == "input" || name == "track",
        6 => name == "source",
        _ => false,
    }
}

// A raw text element: its text is no text of the page.
fn is_raw_text(name: &str) -> bool
    ensures { result ≡ spec.is_raw_text name.now }
{
    name == "script" || name == "style"
}

/// Whether a name that is not void is that of an element, which then may have children.
pub fn may_have_children(name: &str) -> bool
    requires { spec.is_void name.now ≡ false }
    ensures { result ≡ spec.is_element name.now }
{
    match name.as_bytes() {
        [first, rest @ ..] => {
            first.is_ascii_lowercase() && are_element_bytes(rest) && !is_raw_text(name)
        }
        [] => false,
    }
}

/// Whether this is the name of an attribute.
pub fn is_attribute(name: &str) -> bool
    ensures { result ≡ spec.is_attribute name.now }
{
    match name.as_bytes() {
        [first, rest @ ..] => is_letter(*first) && are_attribute_bytes(rest),
        [] => false,
    }
}

/// Whether this is the name of an entity.
pub fn is_entity(name: &str) -> bool
    ensures { result ≡ spec.is_entity_name name.now }
{
    match name.as_bytes() {
        [first, rest @ ..] => is_letter(*first) && are_letters_and_digits(rest),
        [] => false,
    }
}
