// How often each number was met, at its place. An array, since a map would take an allocator.

#[derive(Clone, Copy, Default)]
pub struct Tally {
    times: [u32; 64],
}

impl Tally {
    pub fn count(&mut self, number: u32) {
        if let Some(times) = self.times.get_mut(number as usize) {
            *times = times.saturating_add(1);
        }
    }

    pub fn times(&self) -> &[u32] {
        &self.times
    }
}
