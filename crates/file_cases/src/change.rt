// Changes to what stays from call to call.
use shown::input::{number, place, read_full};
use std::io;
use std::io::Read;

// A run of bytes: where it starts (two bytes), how long it is (one), and the bytes.
fn run<R: Read>(input: &mut R, kept: &mut [u8]) -> io::Result<()> {
    let start = place::<2>(input, kept.len())?;
    let length = place::<1>(input, kept.len() - start)?;
    read_full(input, &mut kept[start..start + length])?;
    Ok(())
}

// A count of one byte, and so many runs.
pub fn runs<R: Read>(input: &mut R, kept: &mut [u8]) -> io::Result<()> {
    for _ in 0..number::<1>(input)? {
        run(input, kept)?;
    }
    Ok(())
}

// A field: which (one byte), and its value (eight).
fn field<R: Read>(input: &mut R, kept: &mut [u64]) -> io::Result<()> {
    let which = place::<1>(input, kept.len())?;
    let value = number::<8>(input)?;
    if let Some(field) = kept.get_mut(which) {
        *field = value;
    }
    Ok(())
}

// A count of one byte, and so many fields.
pub fn fields<R: Read>(input: &mut R, kept: &mut [u64]) -> io::Result<()> {
    for _ in 0..number::<1>(input)? {
        field(input, kept)?;
    }
    Ok(())
}
