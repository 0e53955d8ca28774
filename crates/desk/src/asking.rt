// The data word that division is asked for.

// The text without a line end behind it.
fn line(text: &[u8]) -> &[u8] {
    match text.strip_suffix(b"\r\n") {
        Some(words) => words,
        None => text.strip_suffix(b"\n").unwrap_or(text),
    }
}

// The number that 16 hexadecimal digits are, with at most one line end behind them.
pub(crate) fn word_of(text: &[u8]) -> Option<u64> {
    let digits = line(text);
    if digits.len() != 16 {
        return None;
    }
    let mut word = 0u64;
    for b in digits {
        word = (word << 4) ^ u64::from(char::from(*b).to_digit(16)?);
    }
    Some(word)
}
