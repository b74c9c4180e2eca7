// Names of calls, as a line of the script has them.
use evaluator::{Side, at};

// The first letter of what is called, by which a call is known; whether it is the logger's own, which a line names as `logger_open` or `logger_build`; and
// whether it is opening with a raw list, which a line names as `open_raw`: no other name has an underscore as its fifth byte.
#[derive(Clone, Copy)]
pub struct Name {
    pub letter: u8,
    pub side: Side,
    pub raw: bool,
}

impl Name {
    // By the bytes of a line from the name on. Only the logger's calls begin with l, and have their own letter after `logger_`.
    pub fn of(line: &[u8]) -> Name {
        let (side, place) = match at(line, 0) {
            b'l' => (Side::Logger, 7),
            _ => (Side::Institute, 0),
        };
        Name {
            letter: at(line, place),
            side,
            raw: at(line, 4) == b'_',
        }
    }
}
