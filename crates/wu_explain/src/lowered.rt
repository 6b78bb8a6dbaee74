//! Words in lower case, as the tables of topics have them.

/// The most bytes of a word that are looked at. No topic has a longer word, nor has a column with a moment.
pub const MOST_BYTES: usize = 32;

/// Returns the first bytes of a word, as many as there is room for, with its ASCII letters in lower case; `None` if they
/// end within a letter.
pub fn lowered<'a>(word: &str, room: &'a mut [u8; MOST_BYTES]) -> Option<&'a str> {
    let written = room.get_mut(..word.len().min(MOST_BYTES))?;
    for (byte, letter) in written.iter_mut().zip(word.as_bytes().iter()) {
        *byte = letter.to_ascii_lowercase();
    }
    std::str::from_utf8(written).ok()
}
