// A plan file as it is written, in QPL2: block 0, then the data blocks.
#![tactic(auto)]

ghost use Rattle.blocks.specs.BlockCheck.{check_of};
ghost use Rattle.blocks.specs.Sizes.{block_size, body_size, block_entries, block_pairs};
ghost use Rattle.std.specs.Prelude.{◌≡◌, ℕ, suc, ◌+◌, ◌*◌, ◌≤◌, ◌<◌, length, get_or};
ghost use Rattle.std.proofs.lemmas.List.Edits.{sets};
ghost use Rattle.octets.specs.Bytes.{le, part};
ghost use Rattle.blocks.specs.Letters.{qpl2, letters};
ghost use Rattle.blocks.specs.File.{sealed, header, pairs, entry_of, data_block};

use blocks::check::check_of;
use blocks::letters::QPL2;
use blocks::packed::put;
use blocks::sizes::{BLOCK, BODY, ENTRIES, LAST_RUN, PAIRS, SHORT_RUN};
use octets::numbers::{put_number, put_zeros};
use rules::Fields;

// The four letters, from a fixed byte string.
fn put_letters(file: &mut [u8])
    requires { 8 ≤ length file.old }
    ensures { file.new ≡ sets file.old 4 (letters qpl2) }
{
    file[4..8].copy_from_slice(b"QPL2");
}

// The check of a block's bytes goes to its last four.
fn seal(version: u64, file: &mut [u8], at: usize)
    requires { (at ≤ 1024) × (at + block_size ≤ length file.old) }
    ensures { file.new ≡ sets file.old (at + body_size) (le 4 (check_of version (part at body_size file.old))) }
{
    let check = check_of(version, file, at);
    put_number::<4>(file, at + BODY, check);
}

// Block 0, field after field.
pub fn put_header(file: &mut [u8], f: Fields)
    requires { block_size ≤ length file.old }
    ensures { file.new ≡ sets file.old 0 (sealed qpl2 (header qpl2 f)) }
{
    put_number::<4>(file, 0, 0);
    put_letters(file);
    put_number::<2>(file, 8, f.scans);
    put_number::<1>(file, 10, f.settings);
    put_number::<1>(file, 11, f.law);
    put_number::<1>(file, 12, f.kind);
    put_number::<1>(file, 13, f.weighted);
    put_zeros(file, 14, SHORT_RUN);
    put_number::<8>(file, 16, f.budget);
    put_number::<4>(file, 24, f.n);
    put_number::<4>(file, 28, f.d);
    put_number::<4>(file, 32, f.rate.0);
    put_number::<4>(file, 36, f.distortion.0);
    put_number::<4>(file, 40, f.peak);
    put_number::<4>(file, 44, f.floor.0);
    put_zeros(file, 48, LAST_RUN);
    seal(QPL2, file, 0);
}

// The entries of data block b, counted from 0, of a plan with these settings: the fillers first, and then the settings by entry number.
fn put_entries(file: &mut [u8], b: usize, settings: &[u8])
    requires b_bound { (b < 2) × (block_size * suc b + block_size ≤ length file.old) }
    requires settings_in_bounds { (j : ℕ) → j < length settings.now → get_or settings.now j 0 < 16 }
    ensures { file.new ≡ sets file.old (block_size * suc b + 4) (pairs (entry_of (length settings.now) settings.now) (block_entries * b) block_pairs) }
{
    put_zeros(file, BLOCK * (b + 1) + 4, PAIRS);
    for j in ENTRIES * b..settings.len().min(ENTRIES * (b + 1)) {
        put(file, j, settings[j]);
    }
}

// Data block b, counted from 0: its number, its entries and its check.
pub fn put_data(file: &mut [u8], b: usize, settings: &[u8])
    requires b_bound { (b < 2) × (block_size * suc b + block_size ≤ length file.old) }
    requires settings_in_bounds { (j : ℕ) → j < length settings.now → get_or settings.now j 0 < 16 }
    ensures { file.new ≡ sets file.old (block_size * suc b) (sealed qpl2 (data_block (entry_of (length settings.now) settings.now) b)) }
{
    let at = BLOCK * (b + 1);
    put_number::<4>(file, at, b as u64 + 1);
    put_entries(file, b, settings);
    seal(QPL2, file, at);
}
