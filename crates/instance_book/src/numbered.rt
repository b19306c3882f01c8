/// A thing under its number.
#[derive(Drop)]
pub struct Numbered<T> {
    pub number: u64,
    pub item: T,
}
