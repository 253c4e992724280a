// A proved loop has to end, and nothing says that the input does.
use std::io;

// Turns until one answers false: so many that no run uses them up.
pub fn every<F: FnMut() -> io::Result<bool>>(mut turn: F) -> io::Result<()>
    requires { F.IsAlwaysCallable turn }
{
    for _ in 0..u64::MAX {
        if !turn()? {
            break;
        }
    }
    Ok(())
}
