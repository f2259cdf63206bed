//! What the words ask for.

/// The number that the word of this place is, from 0; `None` without a word, or where it is no number.
pub fn number_at(words: &[String], place: usize) -> Option<u32> {
    words.get(place)?.as_str().parse().ok()
}
