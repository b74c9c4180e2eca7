// What a diagram is finished for. An enum that each step of a walk looks at, and no trait of two types: the definitions go by the same two cases,
// and a trait would state them over again as members and laws.

// A rule table, or three handles of the store: if the first then the second else the third.
#[derive(Clone, Copy)]
pub enum Subject<'a> {
    Table(&'a [u32]),
    Choice { first: u32, second: u32, third: u32 },
}
