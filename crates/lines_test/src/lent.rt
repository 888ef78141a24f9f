// The lines of the cases, as words and as bytes.

// Written again, so that the test does not rest on `words::IDLE`.
const IDLE: u16 = 1023;

// The word at i of a line along which the first k words are repeated, idle where there are none.
fn repeated_at(words: &[u16; 64], k: usize, i: usize) -> u16 {
    match i.checked_rem(k) {
        Some(j) if j < 64 => words[j],
        _ => IDLE,
    }
}

pub fn fill(line: &mut [u16], words: &[u16; 64], k: usize) {
    for (i, word) in line.iter_mut().enumerate() {
        *word = repeated_at(words, k, i);
    }
}

fn count_at(i: usize) -> u16 {
    (i % 1000) as u16
}

// Words that tell their place.
pub fn numbered(line: &mut [u16]) {
    for (i, word) in line.iter_mut().enumerate() {
        *word = count_at(i);
    }
}

// Whether a word is the one that told its place.
pub fn is_numbered(i: usize, w: u16) -> bool {
    w == count_at(i)
}

// Two bytes a word, high byte first.
pub fn spell(bytes: &mut [u8], line: &[u16]) {
    for (pair, word) in bytes.chunks_exact_mut(2).zip(line) {
        pair.copy_from_slice(&word.to_be_bytes());
    }
}
