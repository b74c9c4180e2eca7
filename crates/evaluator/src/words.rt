// Words and other values at places that may not be there.
ghost use Rattle.std.specs.Prelude.{◌≡◌, ◌+◌, ◌<◌, ◌≤◌, length, take, slice_get, Some};

// The value at a place, zero or false beyond the end.
pub fn at<T: Copy + Default>(s: &[T], place: usize) -> T
    ensures { (place < length s.now) → slice_get s.now place ≡ Some result }
{
    s.get(place).copied().unwrap_or_default()
}

// Writes a value at a place, if it is there.
pub fn put<T: Drop>(s: &mut [T], place: usize, value: T) {
    if let Some(old) = s.get_mut(place) {
        *old = value;
    }
}

// The first values, all of them if they are not so many.
pub fn first<T>(s: &[T], count: usize) -> &[T]
    ensures values { result.now ≡ take count s.now }
    ensures within { length result.now ≤ length s.now }
{
    s.get(..count).unwrap_or(s)
}

// Writes the words of one slice over another, from its beginning, zeros where it has none. Word by word: copy_from_slice asks for equal lengths, so it
// would take a split and a fill as well.
pub fn copy(from: &[u32], to: &mut [u32]) {
    for (i, word) in to.iter_mut().enumerate() {
        *word = at(from, i);
    }
}

// Up to N words, and room behind them. In the value itself: with a Vec each function that makes words would take an allocator and give a Result. The
// kit's ArrayVec isn't Copy, and shows no room behind its items, which spoiled lists and written rows need.
#[derive(Clone, Copy)]
pub struct Words<const N: usize> {
    array: [u32; N],
    length: usize,
    ghost within: { length ≤ N },
}

impl<const N: usize> Words<N> {
    // No words, and room full of zeros.
    pub fn new() -> Words<N>
        ensures { result.length ≡ 0 }
    {
        Words::filled(0, 0)
    }

    // So many words that are all alike, as far as there is room, and room full of the same.
    pub fn filled(word: u32, count: usize) -> Words<N>
        ensures { (count ≤ N) → result.length ≡ count }
    {
        Words {
            array: [word; N],
            length: count.min(N),
        }
    }

    pub fn len(&self) -> usize
        ensures value { result ≡ self.now.length }
        ensures within { result ≤ N }
    {
        self.as_slice().len()
    }

    pub fn as_slice(&self) -> &[u32]
        ensures { length result.now ≡ self.now.length }
    {
        &self.array[..self.length]
    }

    pub fn as_mut_slice(&mut self) -> &mut [u32]
        ensures { length result.now ≡ self.old.length }
    {
        let length = self.length;
        let array = &mut self.array;
        &mut array[..length]
    }

    // The words and the room behind them.
    pub fn room(&self) -> &[u32]
        ensures { length result.now ≡ N }
    {
        &self.array[..]
    }

    pub fn room_mut(&mut self) -> &mut [u32]
        ensures { length result.now ≡ N }
    {
        let array = &mut self.array;
        &mut array[..]
    }

    // So many words, as far as there is room: new ones are what stands there.
    pub fn set_len(&mut self, count: usize)
        ensures { (count ≤ N) → self.new.length ≡ count }
    {
        self.length = count.min(N);
    }

    // One word more, if there is room.
    pub fn push(&mut self, word: u32)
        ensures { (self.old.length < N) → self.new.length ≡ self.old.length + 1 }
    {
        if self.length < N {
            self.array[self.length] = word;
            self.length += 1;
        }
    }

    // These words more, if there is room for all of them.
    pub fn extend_from_slice(&mut self, words: &[u32])
        ensures { (self.old.length + length words.now ≤ N) → self.new.length ≡ self.old.length + length words.now }
    {
        let start = self.length;
        let end = start.saturating_add(words.len());
        if let Some(room) = self.array.get_mut(start..end) {
            room.copy_from_slice(words);
            self.length = end;
        }
    }
}
