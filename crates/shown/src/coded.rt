// Cells in codes, a byte for each.
use crate::input::bytes;
use std::io;
use std::io::Read;

// Codes from 240 on stand for the cells about which the rules say something of their own; a code below is the cell.
const SPECIAL: [u32; 16] = [
    1048575, 1048576, 4294967295, 4294967294, 1048574, 2147483648, 2147483647, 16777216, 65536,
    65535, 1000000, 524288, 262143, 4096, 1000, 256,
];

fn cell_of(code: u8) -> u32 {
    match code.checked_sub(240) {
        Some(k) => SPECIAL[usize::from(k)],
        None => u32::from(code),
    }
}

// The cell whose code is the next byte of the input.
pub fn coded<R: Read>(input: &mut R) -> io::Result<u32> {
    let [code] = bytes::<1>(input)?;
    Ok(cell_of(code))
}
