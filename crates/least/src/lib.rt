// The least of a row of candidates, and the first that attains it.
#![tactic(auto)]

pub mod row;

ghost use Rattle.std.specs.Prelude.{cond, ◌≡◌, ◌<◌};
ghost use Rattle.keys.specs.OneKey.{weight_bound};

pub use row::{NO_WAY, Run, pick};

// What a pass asks of a choice: the two weights of a key, of its distortion and of its rate, and a ceiling over its plain cell. The ceiling is
// held where a scan's cells are copied, and a row of candidates knows closed cells only.
#[derive(Clone, Copy)]
pub struct Rule {
    pub a: u32,
    pub b: u32,
    pub ceiling: u32,
    ghost light: { (a < weight_bound) × (b < weight_bound) },
}

// One of two values. Both are at hand when it is asked, and nothing is worked out in an arm, so that a loop has no branch for it: the compiler
// makes a move under a condition, or in lanes a choice by mask.
pub fn choose<T: Copy>(wins: bool, a: T, b: T) -> T
    ensures { result ≡ cond wins a b }
{
    if wins { a } else { b }
}
