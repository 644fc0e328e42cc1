// For the library's own crates: the caller shows what each function requires.
ghost use Rattle.std.specs.Prelude.{◌≡◌, ◌+◌, ◌-◌, ◌≤◌, ◌<◌, ◌^◌, length, drop};
ghost use Rattle.prefixes.specs.Match.{view, Agree, Match, Matched};
ghost use Rattle.prefixes.specs.Filled.{head_of, Filled, Fillable};

// A part of a word, read from its front on or, mirrored, from its end back.
#[derive(Clone, Copy)]
struct View<'a> {
    part: &'a [u16],
    // Kept: `view` of the clauses takes this Bool.
    mirrored: bool,
}

impl View<'_> {
    // Symbol i.
    fn symbol(self, i: usize) -> u16
        requires { i < length self.part.now }
        ensures { result ≡ view self.entry.mirrored self.entry.part.now i }
    {
        if self.mirrored {
            self.part[self.part.len() - 1 - i]
        } else {
            self.part[i]
        }
    }

    // Lengthens a common prefix of what stands from i on and from mid on as far as it goes.
    fn extend(self, mid: usize, i: usize, from: usize) -> usize
        requires { Agree (view self.mirrored self.part.now) (length self.part.now) mid i from }
        ensures { Match (view self.entry.mirrored self.entry.part.now) (length self.entry.part.now) mid i result }
    {
        let end = self.part.len() - i.max(mid);
        for k in from..end {
            if self.symbol(i + k) != self.symbol(mid + k) {
                return k;
            }
        }
        end
    }

    // Fills the places from `from` up to `to`, either those after mid, or those before it when
    // those after it are there. The box is the prefix found that reaches furthest, so that each
    // symbol is passed once.
    fn fill(self, mid: usize, from: usize, to: usize, t: &mut [u32])
        requires { Fillable self.mirrored self.part.now mid from to t.old }
        ensures filled { Filled (view self.entry.mirrored self.entry.part.now) (length self.entry.part.now) mid from to t.new }
        ensures t_unchanged { drop (length self.entry.part.now + 1) t.new ≡ drop (length self.entry.part.now + 1) t.old }
    {
        let mut l = from;
        let mut r = from;
        for i in from..to {
            let k = self.extend(mid, i, head(t, mid, i, l, r));
            t[i] = k as u32;
            if r < i + k {
                l = i;
                r = i + k;
            }
        }
    }
}

// A length at which what stands from i on surely agrees with what stands from mid on: out of the box
// [l, r), which agrees with what stands from mid on.
fn head(t: &[u32], mid: usize, i: usize, l: usize, r: usize) -> usize
    requires { i < r → (l ≤ i) × (mid + (i - l) < length t.now) }
    ensures { result ≡ head_of t.now mid i l r }
{
    if r <= i {
        return 0;
    }
    (r - i).min(t[mid + (i - l)] as usize)
}

// Place j of the table becomes the length of the longest common prefix of what stands from j on and
// from mid on, for each j from 0 to the part's length; the places past it stay as they are. Time
// linear in the part.
// Kept: `view`, by which the tables of `halves` are stated, takes this Bool.
pub fn matches(part: &[u16], mirrored: bool, mid: usize, t: &mut [u32])
    requires { (mid ≤ length part.now) × (length part.now < length t.old) × (length part.now < 2 ^ 32) }
    ensures cases { Matched (view mirrored part.now) (length part.now) mid t.new }
    ensures t_unchanged { drop (length part.now + 1) t.new ≡ drop (length part.now + 1) t.old }
{
    let read = View { part, mirrored };
    read.fill(mid, mid + 1, part.len() + 1, t);
    read.fill(mid, 0, mid, t);
    t[mid] = (part.len() - mid) as u32;
}
