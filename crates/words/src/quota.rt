// How many jobs of a task have to come out right.
ghost use Rattle.std.specs.Prelude.{◌≡◌, ◌↔◌, IsSome, IfSome};
ghost use Rattle.words.specs.Patterns.{Window};

// Of any k jobs in a row, m are to come out right: 1 ≤ m ≤ k ≤ 64.
#[derive(Clone, Copy, PartialEq, Eq, Debug)]
pub struct Quota {
    pub m: u32,
    pub k: u32,
    ghost window: { Window m k },
}

impl Quota {
    // The quota with these numbers; none unless 1 ≤ m ≤ k ≤ 64.
    pub fn new(m: u32, k: u32) -> Option<Quota>
        ensures when { IsSome result ↔ Window m k }
        ensures values { IfSome result (λ q. (q.m ≡ m) × (q.k ≡ k)) }
    {
        if m < 1 || k < m || k > 64 {
            return None;
        }
        Some(Quota { m, k })
    }
}
