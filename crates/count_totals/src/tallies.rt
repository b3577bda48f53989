//! What lines of counted parts told so far.

ghost use Rattle.std.specs.Prelude.{◌≤◌, ◌<◌, length};

use crate::counts::{first_counts, sum_of};
use crate::faults::{Clash, PartsFault};
use crate::lines::{CountedPart, Line, SplitLine};
use std::alloc::{AllocError, Global};

// What lines told that go together.
#[derive(Drop)]
pub(crate) struct Tally {
    puzzle: Option<[u8; 32]>,
    split: Option<SplitLine>,
    // of each part how many arrangements it has, once a line told it; none before a part was named
    counts: Vec<Option<u64>>,
    ghost few: { length counts.items ≤ 1000000 },
}

impl Tally {
    ghost use Rattle.std.specs.Prelude.{◌++◌, ◌∷◌, [], List, IfOk, IfErr, MatchOption};
    ghost use Rattle.count_totals.specs.Lines.{IsInRange};
    ghost use Rattle.count_totals.specs.Totals.{ClashesWith, HaveTotal, Lack};
    ghost use Rattle.count_totals.specs.Tallies.{Tells};
    ghost use Rattle.count_totals.specs.declared.lines.Line.{Line};
    ghost use Rattle.count_totals.specs.declared.lines.Line.TheVariants as lines;

    // Of no line.
    pub(crate) fn new(alloc: Global) -> Tally
        ensures { Tells result [] }
    {
        Tally {
            puzzle: None,
            split: None,
            counts: Vec::new(alloc),
        }
    }

    // Adds what a line tells, or says what of it doesn't go with those before it.
    pub(crate) fn add(&mut self, alloc: Global, line: &Line) -> Result<Option<Clash>, AllocError>
        requires { IsInRange line.now }
        ensures { (before : List Line) → Tells self.old before → IfOk result (λ clash. MatchOption clash
            (Tells self.new (before ++ line.now ∷ []))
            (ClashesWith before line.now)) }
    {
        match line {
            Line::Puzzle(digest) => Ok(self.add_puzzle(*digest)),
            Line::Split(split) => Ok(self.add_split(*split)),
            Line::Part(part) => self.add_part(alloc, *part),
        }
    }

    fn add_puzzle(&mut self, digest: [u8; 32]) -> Option<Clash>
        ensures { (before : List Line) → Tells self.old before → MatchOption result
            (Tells self.new (before ++ lines.Puzzle digest ∷ []))
            (ClashesWith before (lines.Puzzle digest)) }
    {
        if let Some(known) = self.puzzle {
            return if known == digest {
                None
            } else {
                Some(Clash::Puzzle)
            };
        }
        self.puzzle = Some(digest);
        None
    }

    fn add_split(&mut self, split: SplitLine) -> Option<Clash>
        ensures { (before : List Line) → Tells self.old before → MatchOption result
            (Tells self.new (before ++ lines.Split split ∷ []))
            (ClashesWith before (lines.Split split)) }
    {
        if let Some(known) = self.split {
            return if known == split {
                None
            } else {
                Some(Clash::Split)
            };
        }
        self.split = Some(split);
        None
    }

    fn add_part(&mut self, alloc: Global, part: CountedPart) -> Result<Option<Clash>, AllocError>
        requires { IsInRange (lines.Part part) }
        ensures { (before : List Line) → Tells self.old before → IfOk result (λ clash. MatchOption clash
            (Tells self.new (before ++ lines.Part part ∷ []))
            (ClashesWith before (lines.Part part))) }
    {
        if self.counts.is_empty() {
            self.counts = first_counts(alloc, part)?;
            return Ok(None);
        }
        Ok(self.add_count(part))
    }

    // Where a part was named before.
    fn add_count(&mut self, part: CountedPart) -> Option<Clash>
        requires some { 0 < length self.old.counts.items }
        requires part { IsInRange (lines.Part part) }
        ensures { (before : List Line) → Tells self.old before → MatchOption result
            (Tells self.new (before ++ lines.Part part ∷ []))
            (ClashesWith before (lines.Part part)) }
    {
        let CountedPart {
            number,
            parts,
            count,
        } = part;
        let earlier = self.counts.len() as u32;
        if parts != earlier {
            return Some(Clash::Parts { parts, earlier });
        }
        let place = (number - 1) as usize;
        if let Some(known) = self.counts[place] {
            return if known == count {
                None
            } else {
                Some(Clash::Count {
                    number,
                    parts,
                    earlier: known,
                })
            };
        }
        self.counts[place] = Some(count);
        None
    }

    // The sum of what all parts have, or what is missing.
    pub(crate) fn total(&self) -> Result<u128, PartsFault>
        ensures total { (told : List Line) → Tells self.now told → IfOk result (HaveTotal told) }
        ensures lack { (told : List Line) → Tells self.now told → IfErr result (Lack told) }
    {
        if self.puzzle.is_none() {
            return Err(PartsFault::NoPuzzle);
        }
        if self.split.is_none() {
            return Err(PartsFault::NoSplit);
        }
        if self.counts.is_empty() {
            return Err(PartsFault::NoPart);
        }
        sum_of(&self.counts)
    }
}
