// Block 0 as it is read: its fields and its faults. Each function takes the file, as all of the reader do, and asks for the length that it
// needs; a type that holds a file of 512 bytes would be made anew in `stages` and in `read_plan`, with the same proofs as these calls.
ghost use Rattle.blocks.specs.Sizes.{block_size, first_run};
ghost use Rattle.std.specs.List.{list_any};
ghost use Rattle.std.specs.Prelude.{◌≡◌, ◌==◌, not, false, cond, ◌+◌, ◌≤◌, eqb, length, replicate};
ghost use Rattle.octets.specs.Bytes.{part, number_at};
ghost use Rattle.blocks.specs.Differ.{differ};
ghost use Rattle.blocks.specs.Letters.{qpl2};
ghost use Rattle.blocks.specs.File.{other_length};
ghost use Rattle.planfile.specs.Reading.{fields_of, faults_of, broken_field};
ghost use Rattle.tables.specs.Refusals.{ended};

use crate::lengths::file_length;
use blocks::letters::{NO_VERSION, QPL2, version_of};
use blocks::sizes::{FIRST_RUN, LAST_RUN, SHORT_RUN};
use keys::cost::{Dist, Rate};
use octets::numbers::number;
use rules::{Faults, Fields, rules};
use tables::refusal::Refusal;

#[tactic(auto, unfolding(crate::specs::Reading::fields_of))]
pub fn fields(file: &[u8]) -> Fields
    requires { block_size ≤ length file.now }
    ensures { result ≡ fields_of file.now }
{
    Fields {
        scans: number::<2>(file, 8),
        settings: number::<1>(file, 10),
        law: number::<1>(file, 11),
        kind: number::<1>(file, 12),
        budget: number::<8>(file, 16),
        n: number::<4>(file, 24),
        d: number::<4>(file, 28),
        rate: Rate(number::<4>(file, 32)),
        distortion: Dist(number::<4>(file, 36)),
        peak: number::<4>(file, 40),
        floor: Dist(number::<4>(file, 44)),
        weighted: number::<1>(file, 13),
    }
}

// Is one of the bytes not zero?
fn not_zero(run: &[u8]) -> bool
    ensures { result ≡ list_any (λ b. not (b == 0)) run.now }
{
    run.iter().any(|b| *b != 0)
}

// QPL1 keeps bytes 13 to 15 zero; in QPL2 byte 13 is a field of its own.
fn run_13_wrong(version: u64, file: &[u8]) -> bool
    requires { block_size ≤ length file.now }
    ensures { result ≡ cond (eqb version qpl2) false (differ (replicate first_run 0) (part 13 first_run file.now)) }
{
    version != QPL2 && not_zero(&file[13..13 + FIRST_RUN])
}

fn wrong_length(length: u64, scans: u64) -> bool
    ensures { result ≡ other_length length scans }
{
    length != file_length(scans)
}

pub fn faults(file: &[u8], scans: u64) -> Faults
    requires { (block_size ≤ length file.now) × (scans ≡ number_at 8 2 file.now) }
    ensures { result ≡ faults_of file.now }
{
    let version = version_of(file);
    Faults {
        letters: version == NO_VERSION,
        length: wrong_length(file.len() as u64, scans),
        run_13: run_13_wrong(version, file),
        run_14: not_zero(&file[14..14 + SHORT_RUN]),
        run_48: not_zero(&file[48..48 + LAST_RUN]),
    }
}

// The third stage.
#[tactic(auto, unfolding(crate::specs::Reading::fields_of, crate::specs::Reading::broken_field_under))]
pub fn header(file: &[u8], f: Fields) -> Result<(), Refusal>
    requires { (block_size ≤ length file.now) × (f ≡ fields_of file.now) }
    ensures { ended result ≡ broken_field file.now }
{
    rules(faults(file, f.scans), f)
}
