// The places of the chosen state, tried one after the other.
ghost use Rattle.std.specs.Prelude.{◌≡◌, ℕ, ◌+◌, ◌<◌, ◌≤◌, List, [], ◌∷◌, ◌++◌, length, take, None as nowhere, slice_index_or};
ghost use Rattle.course.specs.Blanks.{Leads, Walk};
ghost use Rattle.course.specs.Machine.{Chain, Tried, Cuts, stands};
ghost use Rattle.course.proofs.SoundMarks.{SoundMarks};
ghost use Rattle.course.proofs.Marks.{Within};
ghost use Rattle.course.proofs.Moves.{During};
ghost use Rattle.planner.specs.Searches.{search_state};

use crate::search::{Incumbent, Search};
use blank::Blank;
use course::{Mark, Reach};

// What the cut from u to v costs.
fn cut_cost<B: Blank>(blank: &B, u: u32, v: u32) -> u32
    ensures low { result ≤ 1000 }
    ensures is { (c : ℕ) → Leads (B.meaning blank.now) u v c → result ≡ c }
{
    (0..blank.places(u))
        .filter_map(|place| blank.cut(u, place))
        .find(|&(to, _)| to == v)
        .map_or(0, |(_, cost)| cost)
}

impl Search {
    // What the walk by the first len states of the path costs. A loop, and no sum(): that each sum on the way fits is what its invariant shows.
    fn path_cost<B: Blank>(&self, blank: &B, len: u32) -> u32
        requires { len ≤ 1024 }
        ensures low { result ≤ 1024000 }
        ensures is { (s w e : ℕ) → Walk (B.meaning blank.now) s w (take len self.now.bench.path.items) e → result ≡ e }
    {
        let path = &self.bench.path()[..len as usize];
        let mut cost = 0;
        for pair in path.windows(2) {
            cost += cut_cost(blank, pair[0], pair[1]);
        }
        cost
    }

    // Makes the chain of n, and then v, the standing route. What it costs is counted anew along it, since a state of the chain may have been
    // reached more cheaply after n was.
    fn arrive<B: Blank>(&mut self, blank: &B, n: u32, v: u32, c: u32)
        requires { c ≤ 1000 }
        ensures { (path : List ℕ) (d : ℕ) → Chain (search_state self.old).mark n path → length path < 1024
            → Walk (B.meaning blank.now) (B.meaning blank.now).start n path d
            → search_state self.new ≡ stands (search_state self.old) (path ++ v ∷ []) (d + c) }
    {
        let len = self.bench.chain_length(n);
        if len >= 1024 {
            return;
        }
        self.bench.write_chain(n, len);
        let cost = self.path_cost(blank, len) + c;
        self.bench.set_step(len, v);
        self.standing = Some(Incumbent { cost, len: len + 1 });
    }

    // Tries one place of n, which was reached at g.
    fn try_place<B: Blank>(&mut self, blank: &B, n: u32, g: u32, place: u32)
        ensures { SoundMarks (B.meaning blank.now) (search_state self.old).mark → Within (search_state self.old).mark n g
            → Tried (B.meaning blank.now) n g (slice_index_or ((B.meaning blank.now).places n) place nowhere) (search_state self.old) (search_state self.new) }
    {
        let Some((v, c)) = blank.cut(n, place) else {
            return;
        };
        let sum = u64::from(g) + u64::from(c) + u64::from(blank.estimate(v));
        if sum >= u64::from(self.limit()) {
            return;
        }
        if v == blank.goal() {
            self.arrive(blank, n, v, c);
            return;
        }
        let reach = Reach {
            g: g + c,
            from: Some(n),
        };
        if self.bench.is_news(v, reach.g) {
            self.bench.set_mark(v, Mark::Open(reach));
        }
    }

    // Tries the places of n, which was reached at g, in order.
    pub(crate) fn expand<B: Blank>(&mut self, blank: &B, n: u32, g: u32)
        ensures { During (B.meaning blank.now) n g ((B.meaning blank.now).places n) (search_state self.old)
            → Cuts (B.meaning blank.now) n g ((B.meaning blank.now).places n) (search_state self.old) (search_state self.new) }
    {
        for place in 0..blank.places(n) {
            self.try_place(blank, n, g, place);
        }
    }
}
