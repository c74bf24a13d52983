// Bytes in hexadecimal.
ghost use Rattle.captures.specs.Hex.{ReadsHex, blank, byte_of};
ghost use Rattle.captures.specs.declared.hex.HexFault.TheVariants.{Memory};
ghost use Rattle.std.specs.Prelude.{◌≡◌, alloc_error};

use std::alloc::{AllocError, AllocFailed, Global};

#[derive(Clone, Copy)]
pub enum HexFault {
    // the column, from 1, of the first character that is neither a blank nor begins two digits
    Column(usize),
    Memory(AllocError),
}

impl<T: Drop> From<AllocFailed<T>> for HexFault {
    ghost from_gives = { λ _ r. r ≡ Memory alloc_error };

    fn from(error: AllocFailed<T>) -> HexFault {
        HexFault::Memory(AllocError::from(error))
    }
}

pub(crate) fn is_blank(c: u8) -> bool
    ensures { result ≡ blank c }
{
    matches!(c, b' ' | b'\t' | b'\r')
}

// The byte that two digits make.
#[tactic(auto, using(crate::proofs::Hexes::two_digits))]
fn byte_of(high: u8, low: u8) -> Option<u8>
    ensures { result ≡ byte_of high low }
{
    let h = char::from(high).to_digit(16)?;
    let l = char::from(low).to_digit(16)?;
    Some((h * 16 + l) as u8)
}

// The bytes of a line, or where it is not hexadecimal.
#[tactic(auto, using(crate::proofs::Hexes::passed_blank, crate::proofs::Hexes::passed_byte))]
pub fn read_hex(heap: Global, line: &[u8]) -> Result<Vec<u8>, HexFault>
    ensures { ReadsHex line.now result }
{
    let mut bytes = Vec::new(heap);
    let mut rest = line;
    loop {
        let column = line.len() - rest.len() + 1;
        match rest {
            [] => return Ok(bytes),
            [first, behind @ ..] if is_blank(*first) => rest = behind,
            [high, low, behind @ ..] => {
                let byte = byte_of(*high, *low).ok_or(HexFault::Column(column))?;
                bytes.push(byte)?;
                rest = behind;
            }
            [_] => return Err(HexFault::Column(column)),
        }
    }
}
