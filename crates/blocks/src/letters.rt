// The letters of block 0: those of either version, as fixed byte strings, and the version that a file's letters say.
ghost use Rattle.std.specs.Prelude.{◌≡◌, ◌≤◌, length};
ghost use Rattle.blocks.specs.Letters.{version_of};

// The versions. Any other letters are of none. Numbers and no enum: a reader gives the version as a number, and the definitions of the file
// format (`letters`, `version_of`, `check_of`) and the theorems over them take any.
pub const QPL1: u64 = 1;

pub const QPL2: u64 = 2;

pub const NO_VERSION: u64 = 0;

#[tactic(auto, unfolding(crate::specs::Letters::version_of))]
pub fn version_of(file: &[u8]) -> u64
    requires { 8 ≤ length file.now }
    ensures { result ≡ version_of file.now }
{
    match &file[4..8] {
        b"QPL2" => QPL2,
        b"QPL1" => QPL1,
        _ => NO_VERSION,
    }
}
