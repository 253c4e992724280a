// Tables that have passed the checks of numbers, lengths and cells. That they have is part of the type, so whatever plans on them asks nothing more
// of its caller than the room of its buffers.
ghost use Rattle.std.specs.Prelude.{};
ghost use Rattle.checks.specs.Fit.{Sized, Lawful};

#[derive(Clone, Copy)]
pub struct Checked<'a> {
    pub scans: usize,
    pub settings: usize,
    pub law: u64,
    pub rates: &'a [u32],
    pub distortions: &'a [u32],
    pub weights: &'a [u8],
    ghost sized: { Sized scans settings rates.now distortions.now weights.now },
    ghost lawful: { Lawful settings rates.now distortions.now weights.now },
}
