// For the library's own crates: the caller shows what each function requires.
ghost use Rattle.std.specs.Prelude.{◌≡◌, ◌+◌, ◌*◌, ◌≤◌, ◌<◌, length};
ghost use Rattle.answers.specs.Outcome.{limit};
ghost use Rattle.periods.specs.Square.{square?};
ghost use Rattle.periods.specs.Width.{symbols};
ghost use Rattle.runs.specs.Table.{runs_of, stride};
ghost use Rattle.factors.specs.Choice.{choice_in};
ghost use Rattle.factors.specs.Table.{rows, filled};
ghost use Rattle.factorizer.specs.Piece.{piece?};
ghost use Rattle.factorizer.specs.Fill.{Workable};
ghost use Rattle.factorizer.specs.Window.{RestKept};
ghost use Rattle.slots.specs.Starts.{rank, rank_in, preferred, slot_of, InRun, Readable, lead_of};
ghost use Rattle.slots.specs.Ready.{RunsIn, Ready, kept_lead, best_with, Admitted, Added};

use factors::{AsChoice, Choice, NONE};
use periods::Word;
use std::cmp::Ordering;

// The number by which sizes are compared: less is better, and none is worst.
fn rank(choice: Choice, size: u32) -> u32
    ensures { result ≡ rank (choice_in choice) size }
{
    match choice {
        Choice::Fewest => size,
        Choice::Most if size == NONE => NONE,
        Choice::Most => NONE - 1 - size,
    }
}

// Of two starts the one with the better size, of equal sizes the lower one.
fn preferred(work: &[u32], choice: Choice, i: usize, k: usize) -> usize
    requires { (i < length work.now) × (k < length work.now) }
    ensures { result ≡ preferred (rank_in (choice_in choice) work.now) i k }
{
    match rank(choice, work[i]).cmp(&rank(choice, work[k])) {
        Ordering::Less => i,
        Ordering::Greater => k,
        Ordering::Equal => i.min(k),
    }
}

// A run of a word of n symbols, at a boundary e that lies in it: the run starts after boundary a and has
// twice the unit two.
#[derive(Clone, Copy)]
struct RunAt {
    n: usize,
    a: usize,
    two: usize,
    e: usize,
    ghost in_run: { InRun n a two e },
}

impl RunAt {
    // The place where the best start for boundary e is kept: one for each residue of two, at the first
    // boundaries of the run.
    fn slot(self) -> usize
        ensures { result ≡ slot_of self.n self.a self.two self.e }
    {
        self.n + 1 + (self.n + 1) + (self.a + (self.e - self.a) % self.two)
    }

    // The best start of the squares that end at boundary e: the one two before e, or the best start for
    // the boundary two before e, which stands in the slot.
    #[tactic(auto, unfolding(crate::specs::Starts::lead_of))]
    fn lead(self, work: &[u32], choice: Choice) -> usize
        requires { (rows * (self.n + 1) ≤ length work.now) × (self.a + self.two ≤ self.e) × Readable self.n work.now self.a self.two self.e }
        ensures { result ≡ lead_of (choice_in choice) self.n work.now self.a self.two self.e }
    {
        let start = self.e - self.two;
        if self.e - self.a < self.two + self.two {
            return start;
        }
        let kept = work[self.slot()] as usize;
        preferred(work, choice, kept, start)
    }

    // Keeps the best start of the run in the slot, and compares it with the best so far. No other run in
    // which a square ends at e has that slot, so what is kept stays until it is read.
    #[tactic(auto, using(crate::proofs::Computed::lead_bound), unfolding(crate::specs::Ready::kept_lead, crate::specs::Ready::best_with))]
    fn take(self, work: &mut [u32], choice: Choice, best: usize) -> usize
        requires { (rows * (self.n + 1) ≤ length work.old) × (best ≤ self.n) × Readable self.n work.old self.a self.two self.e }
        ensures value { result ≡ best_with (choice_in choice) self.n work.old self.a self.two self.e best }
        ensures work_after { work.new ≡ kept_lead (choice_in choice) self.n work.old self.a self.two self.e }
    {
        if self.e - self.a < self.two {
            return best;
        }
        let start = self.lead(work, choice);
        let better = preferred(work, choice, best, start);
        work[self.slot()] = start as u32;
        better
    }
}

// Takes boundary e: every run in the list that is not over at e, and then the best start of all. Gives
// how many runs stay in the list.
fn visit(w: Word, runs: &[u32], choice: Choice, e: usize, lives: usize, work: &mut [u32]) -> usize
    requires workable { Workable (symbols w) work.old × RunsIn (symbols w) runs.now × (1 ≤ e) × (e ≤ length (symbols w)) × (lives ≤ length (symbols w)) }
    requires ready { Ready (choice_in choice) (symbols w) runs.now (e + 1) e lives work.old }
    ensures upper_bound { (result ≤ lives) × Ready (choice_in choice) (symbols w.entry) runs.now (e + 1) (e + 1) result work.new }
    ensures rest_kept { RestKept (length (symbols w.entry)) work.old work.new }
{
    let n = w.len();
    let low = 3 * (n + 1);
    // boundary e, of which nothing is known yet, stands for no start
    let mut best = e;
    let mut kept: usize = 0;
    for k in 0..lives {
        let i = work[low + k];
        let run = runs::inner::row(runs, i as usize);
        if (run.last as usize) < e {
            continue;
        }
        work[low + kept] = i;
        kept += 1;
        let a = run.first as usize - 1;
        let two = 2 * (run.period as usize);
        best = RunAt { n, a, two, e }.take(work, choice, best);
    }
    let size = work[best];
    if size != NONE {
        factors::inner::offer(work, choice, e, n + 1 + e, size + 1, best as u32);
    }
    kept
}

// Adds the runs that start at position e at the latest to the list of those that are not over. Gives
// the number of the next run.
fn admit(
    work: &mut [u32],
    runs: &[u32],
    n: usize,
    count: usize,
    e: usize,
    next: usize,
    lives: usize,
) -> usize
    requires { (n ≤ limit) × (count ≤ n) × (stride * count ≤ length runs.now) × (next ≤ count) × (lives ≤ next) × (rows * (n + 1) ≤ length work.old) }
    ensures admitted { Admitted runs.now count e next result }
    ensures added { Added n lives next result work.old work.new }
{
    let low = 3 * (n + 1) + lives;
    for i in next..count {
        if e < runs::inner::row(runs, i).first as usize {
            return i;
        }
        work[low + (i - next)] = i as u32;
    }
    count
}

// Fills the working table: the best size of each prefix length, and the previous boundary that it came
// from. Boundaries in rising order; each takes the runs that it lies in. Time: a step for each run and
// each boundary in it.
// Kept: `RunsIn` is over the whole table that is lent, so the count of its runs stands beside it.
pub fn fill<C: AsChoice>(w: Word, runs: &[u32], count: usize, choice: C, work: &mut [u32])
    requires { Workable (symbols w) work.old × RunsIn (symbols w) runs.now × (count ≡ length (runs_of (symbols w))) }
    ensures { work.new ≡ filled (C.asked choice) (piece? square? (symbols w.entry)) (length (symbols w.entry)) work.old }
{
    let n = w.len();
    let row = n + 1;
    let two = row + row;
    factors::inner::start(work, n);
    work[row..two].fill(0);
    let asked = choice.choice();
    let mut next: usize = 0;
    let mut lives: usize = 0;
    for e in 1..n + 1 {
        let upto = admit(work, runs, n, count, e, next, lives);
        lives += upto - next;
        next = upto;
        lives = visit(w, runs, asked, e, lives, work);
    }
    let four = two + two;
    work[two..four].fill(0);
}
