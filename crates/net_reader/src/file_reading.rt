//! What is read of a file.

/// What is read of a file, or the number of the first line that isn't taken; at the end of the file it is the line behind
/// the last.
#[derive(Drop)]
pub enum FileReading<T> {
    Complete(T),
    Stuck(usize),
}
