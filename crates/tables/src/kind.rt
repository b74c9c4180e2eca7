// The kinds of rows, and their numbers.
ghost use Rattle.std.specs.Prelude.{◌≡◌};
ghost use Rattle.tables.specs.Kinds as spec;

// What a row is made of: a leaf, an equation, or one, two or three lower rows.
#[derive(Clone, Copy, Debug, PartialEq, Eq)]
pub enum Kind {
    Never,
    Always,
    Equation,
    Not,
    And,
    Choose,
}

// What a word is that names no kind.
#[derive(Clone, Copy, Debug, PartialEq, Eq)]
pub struct UnknownKind;

impl From<Kind> for u32 {
    // The number of a kind.
    fn from(kind: Kind) -> u32
        ensures { result ≡ spec.kind_number kind }
    {
        match kind {
            Kind::Never => 0,
            Kind::Always => 1,
            Kind::Equation => 2,
            Kind::Not => 3,
            Kind::And => 4,
            Kind::Choose => 5,
        }
    }
}

impl TryFrom<u32> for Kind {
    type Error = UnknownKind;

    // The kind that a word names.
    fn try_from(word: u32) -> Result<Kind, UnknownKind>
        ensures { result ≡ spec.kind_named word }
    {
        match word {
            0 => Ok(Kind::Never),
            1 => Ok(Kind::Always),
            2 => Ok(Kind::Equation),
            3 => Ok(Kind::Not),
            4 => Ok(Kind::And),
            5 => Ok(Kind::Choose),
            _ => Err(UnknownKind),
        }
    }
}
