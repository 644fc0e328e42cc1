// For the library's own crates: the caller shows what each function requires. The runs of the pieces of a
// word are looked up from left to right. The run that encloses a piece and has its unit is the last one with
// that unit that starts at or before the piece, so each run is noted as its start is passed, at the place of
// its unit.
ghost use Rattle.std.specs.Prelude.{◌≡◌, ◌≤◌, ◌<◌, length};
ghost use Rattle.answers.specs.Outcome.{limit};
ghost use Rattle.periods.specs.Edition.{turns_in};
ghost use Rattle.periods.specs.Width.{symbols};
ghost use Rattle.paths.specs.LookUp.{Keyed, Noted, NextLater, Found};

use periods::{Edition, Word};
use runs::{KEY_STEP, Listing};

// What is found of a piece: its unit if it is a block, 0 else; and the number of its run.
#[derive(Clone, Copy, Debug, PartialEq, Eq)]
pub struct Located {
    pub unit: usize,
    pub number: u32,
}

// Writes the keys of all runs, and gives the count of the runs.
pub fn list_keys(w: Word, keys: &mut [u32]) -> usize
    requires { (length (symbols w) ≤ limit) × (length (symbols w) ≤ length keys.old) }
    ensures { Keyed (symbols w.entry) keys.new result }
{
    let mut none = [0u32; 0];
    halves::inner::list(w, Listing::Keys, &mut none, keys)
}

#[derive(Drop)]
pub struct LookUp<'a> {
    pub w: Word<'a>,
    // The keys of all runs, in the order of their numbers.
    pub keys: &'a [u32],
    // The boundary after which the next piece starts.
    pub before: usize,
    // The runs that are noted: so many of the first.
    pub noted: usize,
    // The number, from 1, of the last of them with each unit, 0 where there is none. What unit memory
    // does not hold has place 0.
    pub latest: [u32; KEY_STEP],
    ghost short: { length (symbols w) ≤ limit },
    ghost inside: { before ≤ length (symbols w) },
    ghost keyed: { Keyed (symbols w) keys.now (length keys.now) },
    ghost last: { Noted keys.now (length keys.now) before noted latest },
}

impl<'a> LookUp<'a> {
    // Before the first piece; writes the keys of all runs into the lent table.
    pub fn new(w: Word<'a>, table: &'a mut [u32]) -> LookUp<'a>
        requires { (length (symbols w) ≤ limit) × (length (symbols w) ≤ length table.old) }
        ensures word { symbols result.w ≡ symbols w.entry }
        ensures start { result.before ≡ 0 }
    {
        let count = list_keys(w, table);
        LookUp {
            w,
            keys: &table[..count],
            before: 0,
            noted: 0,
            latest: [0; KEY_STEP],
        }
    }

    // Notes the runs that start at or before the boundary.
    fn note(&mut self)
        ensures word { symbols self.new.w ≡ symbols self.old.w }
        ensures boundary { self.new.before ≡ self.old.before }
        ensures next_later { NextLater self.new.keys.now (length self.new.keys.now) self.new.before self.new.noted }
    {
        for k in self.noted..self.keys.len() {
            let key = self.keys[k] as usize;
            if self.before + 1 < key / KEY_STEP {
                return;
            }
            self.noted = k + 1;
            self.latest[key % KEY_STEP] = (k + 1) as u32;
        }
    }

    // The unit of the piece up to an end, and the run that encloses it and has its unit.
    pub fn locate(&mut self, edition: Edition, end: usize) -> Located
        requires { (self.old.before < end) × (end ≤ length (symbols self.old.w)) }
        ensures word { symbols self.new.w ≡ symbols self.old.w }
        ensures boundary { self.new.before ≡ end }
        ensures found { Found (turns_in edition) (symbols self.old.w) self.old.before end result.unit result.number }
    {
        self.note();
        let unit = self.w.part(self.before, end).block_unit(edition);
        self.before = end;
        Located {
            unit,
            number: self.latest[unit],
        }
    }
}
