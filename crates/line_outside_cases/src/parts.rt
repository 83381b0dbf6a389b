use std::alloc::AllocError;

/// The first word, and what follows it.
pub fn two_of(asked: &str) -> Option<(&str, &str)> {
    asked.split_once(' ')
}

/// The first two words, and what follows them.
pub fn three_of(asked: &str) -> Option<(&str, &str, &str)> {
    let (first, others) = two_of(asked)?;
    let (second, others) = two_of(others)?;
    Some((first, second, others))
}

/// Parts the next answer from those before it.
pub fn part(told: &mut String) -> Result<(), AllocError> {
    if told.is_empty() {
        return Ok(());
    }
    told.push_str(", ")
}
