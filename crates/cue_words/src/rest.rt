// What is left of a cue listing (document 01, part 8).
use std::io;

// Why a listing is told no further.
#[derive(Drop)]
pub(crate) enum Stop {
    // It is cut.
    Cut,
    Failed(io::Error),
}

impl From<io::Error> for Stop {
    fn from(error: io::Error) -> Stop {
        Stop::Failed(error)
    }
}

// The unit of a ninth group: with it a number stays below 2^63.
const LAST_UNIT: u64 = 72057594037927936;

#[derive(Drop)]
pub(crate) struct Rest<'a> {
    pub(crate) bytes: &'a [u8],
}

impl<'a> Rest<'a> {
    pub(crate) fn byte(&mut self) -> Result<u8, Stop> {
        let bytes = self.bytes;
        if bytes.len() == 0 {
            return Err(Stop::Cut);
        }
        self.bytes = &bytes[1..];
        Ok(bytes[0])
    }

    // A number in groups of seven bits, lowest first, the top bit set on all but the last: nine groups at most.
    pub(crate) fn number(&mut self) -> Result<u64, Stop> {
        let mut value: u64 = 0;
        let mut unit: u64 = 1;
        while unit <= LAST_UNIT {
            let byte = self.byte()?;
            value += (byte % 128) as u64 * unit;
            unit *= 128;
            if byte < 128 {
                return Ok(value);
            }
        }
        Err(Stop::Cut)
    }
}
