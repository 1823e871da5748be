//! Which bucket each pattern goes to.

ghost use Rattle.std.specs.Prelude.{◌<◌};

/// Patterns of this length and of more are taken alike.
const MAX_LEN: usize = 9;

/// How many buckets there are.
const NUM_BUCKETS: usize = 8;

/// Fills buckets by length and then in the order in which patterns are shown, which decides speed
/// alone. All are counted first, and then each is given its bucket.
///
/// No two lengths share a bucket while there are enough, since the shorter patterns would open the
/// later offsets of the longer ones' windows.
#[derive(Drop)]
pub struct Filling {
    // How many patterns of each length there are, and how many have a bucket.
    counts: [usize; 10],
    placed: [usize; 10],
    shortest: usize,
}

impl Filling {
    /// A filling with no pattern.
    pub fn new() -> Self {
        Self {
            counts: [0; 10],
            placed: [0; 10],
            shortest: usize::MAX,
        }
    }

    /// Counts a pattern of this length.
    pub fn count(&mut self, len: usize) {
        self.shortest = len.min(self.shortest);
        let len = len.min(MAX_LEN);
        self.counts[len] = self.counts[len].saturating_add(1);
    }

    /// Whether buckets are ahead of the prefilter: not with a pattern of fewer than three bytes,
    /// which they let pass almost anywhere, nor where the shortest has six and there are fewer than
    /// 1,024 states, where the prefilter was measured to be as fast.
    pub fn is_worth(&self, num_states: usize) -> bool {
        self.shortest >= 3 && (self.shortest < 6 || num_states >= 1024)
    }

    /// The bucket of the next pattern of this length.
    pub fn next_bucket(&mut self, len: usize) -> usize
        ensures { result < 8 }
    {
        let len = len.min(MAX_LEN);
        let first = self.first_bucket(len);
        let buckets = self.first_bucket(len + 1).saturating_sub(first);
        let rank = self.placed[len];
        self.placed[len] = rank.saturating_add(1);
        let behind = rank.saturating_mul(buckets) / self.counts[len].max(1);
        first.saturating_add(behind).min(NUM_BUCKETS - 1)
    }

    /// The first bucket of this length: each length of some pattern has one, and the rest are
    /// shared out by how many patterns there are.
    fn first_bucket(&self, len: usize) -> usize {
        let (lengths, patterns) = count_shorter(&self.counts, len);
        let (all_lengths, all) = count_shorter(&self.counts, MAX_LEN + 1);
        let rest = NUM_BUCKETS.saturating_sub(all_lengths);
        lengths.saturating_add(patterns.saturating_mul(rest) / all.max(1))
    }
}

/// How many shorter lengths some pattern has, and how many patterns have these.
fn count_shorter(counts: &[usize], len: usize) -> (usize, usize) {
    let mut lengths = 0usize;
    let mut patterns = 0usize;
    for shorter in 0..len {
        if shorter < counts.len() {
            lengths = lengths.saturating_add(counts[shorter].min(1));
            patterns = patterns.saturating_add(counts[shorter]);
        }
    }
    (lengths, patterns)
}
