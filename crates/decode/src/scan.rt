// The characters of a string, each looked at once: charset, case and the last separator.
ghost use Rattle.std.specs.Prelude.{◌≡◌};
ghost use Rattle.laws.specs.Lists.{all};
ghost use Rattle.paper.specs.Charset.{is_printable};
ghost use Rattle.gf32.specs.Classes.{Joined};
ghost use Rattle.decode.specs.Scan.{DataScanned};

use gf32::Classes;

const SEPARATOR: u8 = b'1';

// Where the last separator stands, and the classes of the characters after it, joined bit by bit: of all where there is none.
#[derive(Clone, Copy)]
pub(crate) struct Tail {
    pub(crate) separator: Option<usize>,
    pub(crate) classes: u8,
}

// From the end, in one pass. In a caller's body the loop would carry a counter for each number that is computed from the place.
#[inline(never)]
#[tactic(auto, using(crate::proofs::Scanning::none_begun))]
pub(crate) fn scan_data(table: &Classes, s: &[u8]) -> Tail
    ensures { DataScanned s.now result }
{
    let mut classes = 0;
    for (at, &byte) in s.iter().enumerate().rev() {
        if byte == SEPARATOR {
            return Tail {
                separator: Some(at),
                classes,
            };
        }
        classes |= table.class(byte);
    }
    Tail {
        separator: None,
        classes,
    }
}

// The classes of all bytes, joined.
#[tactic(auto, using(crate::proofs::Scanning::begun))]
pub(crate) fn joined(table: &Classes, bytes: &[u8]) -> u8
    ensures { Joined result bytes.now }
{
    let mut classes = 0;
    for &byte in bytes.iter().rev() {
        classes |= table.class(byte);
    }
    classes
}

pub(crate) fn is_printable(prefix: &[u8]) -> bool
    ensures { result ≡ all is_printable prefix.now }
{
    prefix.iter().all(|byte| byte.is_ascii_graphic())
}
