//! One row of the counts, V(N, 0) to V(N, K) for a fixed K, which goes from N numbers to N + 1 and
//! back in place (RFC 6716, section 4.3.4.2).

ghost use Rattle.std.specs.Prelude.{◌≡◌, ◌+◌, ◌-◌, ◌^◌, ◌<◌, ◌≤◌, take};
ghost use Rattle.pulse_vectors.specs.Vectors.{count_of};
ghost use Rattle.pulse_vectors.specs.Rows.{IsRow, RowShape};

use std::marker::Model;

/// The counts V(N, 0) to V(N, K) for one N, 0 to 176, and one K, 0 to 4096. It takes no memory.
#[derive(Drop)]
pub struct Row {
    /// N.
    numbers: u32,
    /// K.
    pulses: u32,
    /// V(N, j) at place j, for j from 0 to K; the places behind are not used.
    counts: [u32; 4097],
}

impl Model for Row {
    ghost Value = { RowShape };

    ghost view = { λ r. record { numbers = r.numbers; pulses = r.pulses } };

    ghost invariant = { λ r. (r.numbers ≤ 176) × (r.pulses ≤ 4096) × IsRow r.numbers (take (r.pulses + 1) r.counts) };
}

impl Row {
    /// The row for no numbers: V(0, 0) is 1 and V(0, j) is 0 behind it. `pulses` is at most 4096.
    pub fn new(pulses: u32) -> Row
        requires { pulses ≤ 4096 }
        ensures numbers { result.numbers ≡ 0 }
        ensures pulses { result.pulses ≡ pulses }
    {
        Row {
            numbers: 0,
            pulses,
            counts: empty_counts(),
        }
    }

    /// V(N, j), where j is at most K.
    pub fn at(&self, j: u32) -> u32
        requires { j ≤ self.now.pulses }
        ensures { result ≡ count_of self.now.numbers j }
    {
        self.counts[j as usize]
    }

    /// V(N + 1, K), of any size, as the counts of this row give it: V(N, K) and twice all before it.
    pub(crate) fn next_top(&self) -> u64
        ensures { result ≡ count_of (self.now.numbers + 1) self.now.pulses }
    {
        let mut fewer = 0;
        for j in 0..self.pulses {
            fewer += self.at(j) as u64;
        }
        2 * fewer + self.at(self.pulses) as u64
    }

    /// From N numbers to N + 1, where N is below 176 and V(N + 1, K) is below 2^32.
    pub fn up(&mut self)
        requires numbers { self.old.numbers < 176 }
        requires fits { count_of (self.old.numbers + 1) self.old.pulses < 2 ^ 32 }
        ensures numbers { self.new.numbers ≡ self.old.numbers + 1 }
        ensures pulses { self.new.pulses ≡ self.old.pulses }
    {
        let top = self.pulses as usize + 1;
        let mut last = 0;
        let mut before = 0;
        for count in self.counts[..top].iter_mut() {
            let here = *count;
            last = last + before + here;
            before = here;
            *count = last;
        }
        self.numbers += 1;
    }

    /// From N numbers to N - 1, where N is at least 1.
    pub fn down(&mut self)
        requires { 1 ≤ self.old.numbers }
        ensures numbers { self.new.numbers ≡ self.old.numbers - 1 }
        ensures pulses { self.new.pulses ≡ self.old.pulses }
    {
        let top = self.pulses as usize + 1;
        let mut last = 0;
        let mut before = 0;
        for count in self.counts[..top].iter_mut() {
            let here = *count;
            last = here - before - last;
            before = here;
            *count = last;
        }
        self.numbers -= 1;
    }
}

/// The counts for no numbers.
fn empty_counts() -> [u32; 4097]
    ensures { IsRow 0 result }
{
    let mut counts = [0; 4097];
    counts[0] = 1;
    counts
}
