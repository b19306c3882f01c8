use std::alloc::{AllocError, Global};

// The most often that a part is repeated.
const MOST: usize = 100_000;

// A part so many times, each `$` in it being the number of the time.
fn repeat(alloc: Global, count: usize, part: &str, bytes: &mut Vec<u8>) -> Result<(), AllocError> {
    for time in 0..count.min(MOST) {
        for (place, piece) in part.split('$').enumerate() {
            if place > 0 {
                bytes.extend_from_slice(format!(in alloc; "{time}")?.as_bytes())?;
            }
            bytes.extend_from_slice(piece.as_bytes())?;
        }
    }
    Ok(())
}

// What a mark stands for: `N PART` is the part N times, and `HH` the byte of these two digits.
fn put(alloc: Global, mark: &str, bytes: &mut Vec<u8>) -> Result<(), AllocError> {
    match mark.split_once(' ') {
        Some((count, part)) => repeat(alloc, count.parse().unwrap_or(0), part, bytes),
        None => Ok(bytes.push(u8::from_str_radix(mark, 16).unwrap_or(b'?'))?),
    }
}

/// The bytes of a row: what stands between `<<` and `>>` is a mark.
pub fn unfolded(alloc: Global, row: &str) -> Result<Vec<u8>, AllocError> {
    let mut bytes = Vec::new(alloc);
    for (place, piece) in row.split("<<").enumerate() {
        let behind = match piece.split_once(">>") {
            Some((mark, behind)) if place > 0 => {
                put(alloc, mark, &mut bytes)?;
                behind
            }
            _ => piece,
        };
        bytes.extend_from_slice(behind.as_bytes())?;
    }
    Ok(bytes)
}
