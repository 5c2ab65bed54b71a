// A search by halving, by the rule of specs/Halving.antt (its laws: proofs/Laws.antt). With less work it may begin in a cell (proofs/Cells.antt).
#![tactic(auto)]

ghost use Rattle.std.specs.Prelude.{◌≡◌, ℕ, ◌+◌, ◌^◌, ◌≤◌, Bool};
ghost use Rattle.halving.specs.Halving.{InOrder, AskableBetween, halve};

// Where a search ends, and how many middles it asked.
#[derive(Clone, Copy)]
pub struct Edge {
    pub low: u64,
    pub high: u64,
    pub asked: u64,
}

// What a search asks of a point.
pub trait Search {
    // It may ask there.
    ghost can_ask: { Self → ℕ → Type 0 };

    // The low end moves there; else the high end does.
    ghost moves: { Self → ℕ → Bool };

    fn moves(&self, middle: u64) -> bool
        requires { can_ask self.now middle }
        ensures { result ≡ moves self.now middle };
}

// The neighbours at which the search between two ends stops: as many halvings as the ends need.
#[inline]
pub fn halve<S: Search>(search: &S, low: u64, high: u64) -> Edge
    requires ordered { InOrder low high }
    requires askable { AskableBetween (S.can_ask search.now) low high }
    ensures { (n : ℕ) → high ≤ low + 2 ^ n → result ≡ halve (S.moves search.now) n low high 0 }
{
    let mut edge = Edge {
        low,
        high,
        asked: 0,
    };
    while edge.high - edge.low > 1 {
        let middle = edge.low + (edge.high - edge.low) / 2;
        edge.asked += 1;
        if search.moves(middle) {
            edge.low = middle;
        } else {
            edge.high = middle;
        }
    }
    edge
}
