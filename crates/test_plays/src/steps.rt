use std::alloc::{AllocError, Global};

/// A step as it is played: where ` x COUNT` stands at its end, the character before that stands so many times.
pub fn unfolded(alloc: Global, step: &str) -> Result<String, AllocError> {
    let Some((front, count)) = step.rsplit_once(" x ") else {
        return String::from_str(alloc, step);
    };
    let (Ok(count), Some(last)) = (count.parse::<u32>(), front.chars().next_back()) else {
        return String::from_str(alloc, step);
    };
    let mut unfolded = String::from_str(alloc, front)?;
    for _ in 1..count {
        unfolded.push(last)?;
    }
    Ok(unfolded)
}
