// The rule of an entry, and the first entry that breaks it.
#![tactic(auto)]

ghost use Rattle.tables.specs.Law.{allows};
ghost use Rattle.blocks.specs.Sizes.{block_size, block_entries, short_file, long_file};
ghost use Rattle.std.specs.Prelude.{◌≡◌, ℕ, ◌*◌, ◌-◌, ◌/◌, ◌≤◌, ◌<◌, length, get_or};
ghost use Rattle.tables.specs.declared.refusal.Refusal.«TheVariants» as refusal;
ghost use Rattle.tables.specs.Refusals.{ended};
ghost use Rattle.blocks.specs.File.{entry_at};
ghost use Rattle.entries.specs.Entries.{breaks, entry_broken};
ghost use Rattle.checks.specs.Checks.{first_from, found};

use blocks::packed::get;
use blocks::sizes::{BLOCK, ENTRIES};
use checks::stage::unless;
use rules::Fields;
use tables::law::keeps;
use tables::refusal::Refusal;

// Entry j is `setting`, and the one before it is `before`.
fn entry_wrong(f: Fields, j: u64, before: u64, setting: u64) -> bool
    ensures { result ≡ breaks f.scans f.settings (allows f.law) j before setting }
{
    if f.scans <= j {
        return setting != 0;
    }
    f.settings <= setting || (j != 0 && !keeps(f.law, before, setting))
}

// The first of `count` entries that breaks its rule, where `entry` gives each by its number.
#[tactic(auto, using(blocks::proofs::FoundLaws::found_none))]
fn check<F: Fn(usize) -> u8>(f: Fields, count: usize, entry: F) -> Result<(), Refusal>
    ghost e: { ℕ → ℕ }
    requires asked { (j : ℕ) → j < count → F.pre entry j }
    requires given { (j r : ℕ) → j < count → F.post entry j r → r ≡ e j }
    ensures { ended result ≡ found refusal.Entry (first_from (entry_broken f.scans f.settings (allows f.law) e) 0 count) }
{
    let mut before = 0;
    for j in 0..count {
        let setting = u64::from(entry(j));
        unless(
            entry_wrong(f, j as u64, before, setting),
            Refusal::Entry(j as u64),
        )?;
        before = setting;
    }
    Ok(())
}

// All entries of a file's data blocks, the fillers too.
pub fn check_file(file: &[u8], f: Fields) -> Result<(), Refusal>
    requires { (short_file ≤ length file.now) × (length file.now ≤ long_file) }
    ensures { ended result ≡ found refusal.Entry (first_from (entry_broken f.scans f.settings (allows f.law) (entry_at file.now)) 0 (block_entries * (length file.now / block_size - 1))) }
{
    let count = ENTRIES * (file.len() / BLOCK - 1);
    check(f, count, |j| get(file, j))
}

// The settings that are to be written.
pub fn check_settings(list: &[u8], f: Fields) -> Result<(), Refusal>
    requires { f.scans ≤ length list.now }
    ensures { ended result ≡ found refusal.Entry (first_from (entry_broken f.scans f.settings (allows f.law) (λ j. get_or list.now j 0)) 0 f.scans) }
{
    check(f, f.scans as usize, |j| list[j])
}
