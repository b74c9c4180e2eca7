// What a row stands for, whatever its kind.
ghost use Rattle.std.specs.Prelude.{◌≡◌};
ghost use Rattle.tables.specs.Decoding as spec;

use crate::kind::Kind;
use crate::row::Row;
use terms::Equation;

// What a choice is made of: a leaf, or a lower row.
#[derive(Clone, Copy, Debug, PartialEq, Eq)]
pub enum Part {
    Leaf(bool),
    Row(u32),
}

// A leaf, an equation, or if the first part then the second else the third.
#[derive(Clone, Copy, Debug, PartialEq, Eq)]
pub enum Shape {
    Leaf(bool),
    Equation(Equation),
    Choice {
        first: Part,
        second: Part,
        third: Part,
    },
}

// The shape of a row: not and and are choices too. A row of an unknown kind is never.
#[tactic(auto, unfolding(crate::specs::Decoding::decode))]
pub fn decode(r: Row) -> Shape
    ensures { result ≡ spec.decode r }
{
    match Kind::try_from(r.kind) {
        Ok(Kind::Never) | Err(_) => Shape::Leaf(false),
        Ok(Kind::Always) => Shape::Leaf(true),
        Ok(Kind::Equation) => Shape::Equation(Equation::of_words(r.a, r.b)),
        Ok(Kind::Not) => Shape::Choice {
            first: Part::Row(r.a),
            second: Part::Leaf(false),
            third: Part::Leaf(true),
        },
        Ok(Kind::And) => Shape::Choice {
            first: Part::Row(r.a),
            second: Part::Row(r.b),
            third: Part::Leaf(false),
        },
        Ok(Kind::Choose) => Shape::Choice {
            first: Part::Row(r.a),
            second: Part::Row(r.b),
            third: Part::Row(r.c),
        },
    }
}
