// Why a file could not be opened, read or written, as the C library words it.
use arrayvec::ArrayString;
use std::fmt::Write;
use std::io::Error;

// The system's words, of 256 bytes at most, and behind them its number.
#[derive(Clone, Copy, Debug, PartialEq, Eq)]
pub(crate) struct Reason {
    text: ArrayString<288>,
}

impl Reason {
    pub(crate) fn of(why: Error) -> Reason {
        let mut text = ArrayString::new();
        let _ = write!(text, "{why}");
        Reason { text }
    }

    // The text ahead of the number that std puts behind it.
    pub(crate) fn text(&self) -> &str {
        let text = self.text.as_str();
        match text.split_once(" (os error ") {
            Some((words, _)) => words,
            None => text,
        }
    }
}
