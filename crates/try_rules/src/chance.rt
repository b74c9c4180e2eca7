// Numbers that look thrown, the same at each run. Functions that only throw take the chance alone, which is lent from the run.
ghost use Rattle.std.specs.Prelude.{◌≤◌, ◌<◌, ◌^◌};

#[derive(Clone, Copy)]
pub struct Chance {
    seed: u64,
}

impl Chance {
    pub fn new() -> Chance {
        Chance { seed: 1 }
    }

    // The next number below a bound of at most 32,768; 0 where the bound is 0.
    pub fn below(&mut self, bound: u32) -> u32
        ensures most { result ≤ bound }
        ensures small { result < 2 ^ 15 }
    {
        let next = self.seed % 2147483648 * 1103515245 + 12345;
        self.seed = next % 2147483648;
        match bound {
            0 => 0,
            _ => (next / 65536 % 32768) as u32 % bound,
        }
    }

    // One of so many numbers from a least one on.
    pub fn from_on(&mut self, least: u32, count: u32) -> u32 {
        least.saturating_add(self.below(count))
    }

    // A term of one of so many fields, zero among them, and of up to 2 steps.
    pub fn low_term(&mut self, fields: u32) -> u32 {
        let field = self.below(fields);
        field + 32 * self.below(3)
    }

    // Once in so many times.
    pub fn once_in(&mut self, times: u32) -> bool {
        self.below(times) == 0
    }

    // Three numbers below a bound, one after the other.
    pub fn three_below(&mut self, bound: u32) -> [u32; 3] {
        let first = self.below(bound);
        let second = self.below(bound);
        let third = self.below(bound);
        [first, second, third]
    }
}
