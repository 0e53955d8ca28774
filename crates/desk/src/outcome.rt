// What becomes of a salvaged capture: the file that it is written to, and the account of it.
use crate::files;
use printout::Told;
use std::io::{Error, Print, Write};

// Why the salvaged capture is not in its file.
#[derive(Clone, Copy, Debug)]
pub(crate) enum Lost {
    Unopened(Error),
    Unwritten(Error),
}

// The bytes in the file of that name, made or emptied.
pub(crate) fn put_out(rt: &HostRuntime, path: &[u8], bytes: &[u8]) -> Result<(), Lost> {
    let mut file = files::create(rt, path).map_err(Lost::Unopened)?;
    files::fill(&mut file, bytes).map_err(Lost::Unwritten)
}

// What is told of a salvage: how many frames the capture has, the altered ones and, entry by entry beside them as `salvage` fills both,
// their places, and the refused ones.
#[derive(Clone, Copy, Debug, PartialEq, Eq)]
pub(crate) struct Account<'a> {
    pub(crate) frames: u64,
    pub(crate) altered: &'a [u64],
    pub(crate) places: &'a [u64],
    pub(crate) refused: &'a [u64],
}

impl Account<'_> {
    fn tell_head(self, rt: &HostRuntime) -> std::io::Result<()> {
        let altered = self.altered.len() as u64;
        let refused = self.refused.len() as u64;
        let mut text = [0u8; 128];
        let n = printout::account_head(self.frames, altered, refused, &mut text);
        // The array is of fixed length, and n bytes of it are the text.
        rt.write_all(&text[..n])
    }

    // How far the account has come with its next line.
    fn tell_line(self, rt: &HostRuntime, at: Told) -> std::io::Result<Told> {
        let mut text = [0u8; 64];
        let s = printout::account_line(self.altered, self.places, self.refused, at, &mut text);
        rt.write_all(&text[..s.length])?;
        Ok(s.told)
    }

    // A line for each entry.
    fn tell_lines(self, rt: &HostRuntime) -> std::io::Result<()> {
        let mut told = Told {
            altered: 0,
            refused: 0,
        };
        for _ in 0..self.altered.len() + self.refused.len() {
            told = self.tell_line(rt, told)?;
        }
        Ok(())
    }

    // The whole account on standard output.
    pub(crate) fn tell(self, rt: &HostRuntime) -> std::io::Result<()> {
        self.tell_head(rt)?;
        self.tell_lines(rt)?;
        rt.stdout().flush()
    }
}
