// What a store may hold: at the institute, and on the deck logger.
ghost use Rattle.std.specs.Prelude.{◌≤◌};

// The largest numbers of fields, of a term's steps, of questions and of entries.
#[derive(Clone, Copy)]
pub struct Limits {
    pub fields: u32,
    pub steps: u32,
    pub questions: u32,
    pub entries: u32,
}

// The institute's numbers. None of the logger's is larger, so these are also what arrays are made for.
pub const MOST_FIELDS: u32 = 16;

pub const MOST_STEPS: u32 = 1023;

pub const MOST_QUESTIONS: u32 = 20;

pub const MOST_ENTRIES: u32 = 4096;

impl Limits {
    pub const INSTITUTE: Limits = Limits {
        fields: MOST_FIELDS,
        steps: MOST_STEPS,
        questions: MOST_QUESTIONS,
        entries: MOST_ENTRIES,
    };

    // The logger takes as many steps as the institute.
    pub const LOGGER: Limits = Limits {
        fields: 6,
        steps: MOST_STEPS,
        questions: 8,
        entries: 200,
    };
}

// Where a call is made.
#[derive(Clone, Copy, Debug, PartialEq, Eq)]
pub enum Side {
    Institute,
    Logger,
}

impl Side {
    pub fn limits(self) -> Limits
        ensures fields { result.fields ≤ 16 }
        ensures steps { result.steps ≤ 1023 }
        ensures questions { result.questions ≤ 20 }
        ensures entries { result.entries ≤ 4096 }
    {
        match self {
            Side::Institute => Limits::INSTITUTE,
            Side::Logger => Limits::LOGGER,
        }
    }
}
