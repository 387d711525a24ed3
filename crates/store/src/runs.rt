// Runs of words within a position.
ghost use Rattle.std.specs.Prelude.{◌≡◌, ◌+◌, ◌<◌, ◌≤◌, true, false, length, MatchResult};
ghost use Rattle.store.specs.Staging.{in_position};
ghost use Rattle.store.specs.declared.refusals.Refusal.TheVariants as refusals;

use crate::refusals::Refusal;

// New words, from one word of a position on. They stay within the position.
#[derive(Clone, Copy)]
pub(crate) struct Run<'a> {
    pub position: usize,
    pub first: usize,
    pub words: &'a [u16],
    ghost within: { (position < 64) × (first + length words.now ≤ 256) },
}

// Whether so many words from `first` on stay within a position.
fn is_in_position(position: u64, first: u64, n: usize) -> bool
    ensures { result ≡ in_position position first n }
{
    position < 64 && (1..=256).contains(&n) && first <= 256 - n as u64
}

impl<'a> Run<'a> {
    // The words as a run, if they are some and stay within a position.
    pub(crate) fn new(position: u64, first: u64, words: &'a [u16]) -> Result<Run<'a>, Refusal>
        ensures { MatchResult result (λ run. (run.position ≡ position) × (run.first ≡ first) × (run.words.now ≡ words.now) × (in_position position first (length words.now) ≡ true)) (λ why. (why ≡ refusals.Range) × (in_position position first (length words.now) ≡ false)) }
    {
        if is_in_position(position, first, words.len()) {
            Ok(Run {
                position: position as usize,
                first: first as usize,
                words,
            })
        } else {
            Err(Refusal::Range)
        }
    }
}
