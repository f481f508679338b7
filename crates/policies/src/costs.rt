// What the bits of a line's word cost, given what a 0 and a 1 cost.
ghost use Rattle.std.specs.Prelude.{◌≡◌, ℕ, ◌*◌, ◌<◌, ◌≤◌};
ghost use Rattle.words.specs.Sums.{sum_below, greatest_row};
ghost use Rattle.policies.specs.Promises.{most_per_job};
ghost use Rattle.policies.specs.Patterns.{cost_at};

use tasks::line::Line;
use words::bits::bit_at;

// What a 0 and a 1 cost: neither more than a policy may demand for a job.
#[derive(Clone, Copy)]
pub(crate) struct BitCosts {
    pub(crate) zero: u64,
    pub(crate) one: u64,
    ghost small_zero: { zero ≤ most_per_job },
    ghost small_one: { one ≤ most_per_job },
}

impl BitCosts {
    // What the bit at a place of a word costs.
    fn at(self, word: u64, place: u32) -> u64
        ensures is { result ≡ cost_at self.zero self.one word place }
        ensures small { result ≤ most_per_job }
    {
        if bit_at(word, place) == 0 {
            self.zero
        } else {
            self.one
        }
    }

    // What the first n bits of a word cost together.
    fn of_first(self, word: u64, n: u32) -> u64
        requires { n ≤ 64 }
        ensures { result ≡ sum_below (cost_at self.zero self.one word) n }
    {
        (0..n).map(|place| self.at(word, place)).sum()
    }

    // What all the bits of a line's word cost together: its m ones and its zeros.
    pub(crate) fn of_round(self, line: &Line) -> u64
        ensures is { result ≡ sum_below (cost_at self.zero self.one line.now.word) line.now.k }
        ensures small { result ≤ most_per_job * line.now.k }
    {
        u64::from(line.m) * self.one + u64::from(line.k - line.m) * self.zero
    }

    // The greatest sum of n consecutive bits' costs, going round a line's word, n less than k: the window slides,
    // and each start's sum is made of the one before. A `for`: a fold would carry the pair of both sums and read no plainer.
    pub(crate) fn greatest_window(self, line: &Line, n: u32) -> u64
        requires { n < line.now.k }
        ensures is { result ≡ greatest_row (cost_at self.zero self.one line.now.word) line.now.k n }
        ensures small { result ≤ most_per_job * n }
    {
        let (word, k) = (line.word, line.k);
        let mut sum = self.of_first(word, n);
        let mut greatest = 0;
        for start in 0..k {
            greatest = sum.max(greatest);
            let entering = self.at(word, (start + n) % k);
            sum = sum + entering - self.at(word, start);
        }
        greatest
    }
}
