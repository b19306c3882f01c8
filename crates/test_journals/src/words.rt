use std::alloc::{AllocError, Global};

// A text of fewer than 65,536 bytes, after its length.
fn add_text(bytes: &mut Vec<u8>, text: &str) -> Result<(), AllocError> {
    let size = (text.len() % 65_536) as u32;
    bytes.extend_from_slice(&size.to_le_bytes())?;
    bytes.extend_from_slice(text.as_bytes())
}

// The bytes of one more word.
fn add_word(bytes: &mut Vec<u8>, word: &str) -> Result<(), AllocError> {
    if let Some(digits) = word.strip_prefix('q') {
        let number: u64 = digits.parse().unwrap_or(0);
        bytes.extend_from_slice(&number.to_le_bytes())?;
    } else if let Some(digits) = word.strip_prefix('d') {
        let number: u32 = digits.parse().unwrap_or(0);
        bytes.extend_from_slice(&number.to_le_bytes())?;
    } else if let Some(text) = word.strip_prefix('s') {
        add_text(bytes, text)?;
    } else {
        bytes.push(word.parse().unwrap_or(0))?;
    }
    Ok(())
}

/// The bytes of words: `q7` is 7 in eight bytes, least first, `d7` in four, `7` in one, and `sab` the text `ab` after its length in four.
pub fn bytes_of(alloc: Global, words: &str) -> Result<Vec<u8>, AllocError> {
    let mut bytes = Vec::new(alloc);
    for word in words.split_whitespace() {
        add_word(&mut bytes, word)?;
    }
    Ok(bytes)
}
