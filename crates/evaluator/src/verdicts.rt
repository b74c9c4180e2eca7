// What a rule is over all sheets, or over all fillings of a sheet, and the documents' number of it.
ghost use Rattle.std.specs.Prelude.{◌≡◌, false, true};

#[derive(Clone, Copy, Debug, PartialEq, Eq)]
pub enum Verdict {
    Never,
    Always,
    Sometimes,
}

impl Verdict {
    // By whether some choice of counts satisfies the rule, and whether some breaks it.
    pub(crate) fn of(satisfied: bool, broken: bool) -> Verdict
        ensures never { (satisfied ≡ false) → result ≡ Verdict.Never }
        ensures always { (satisfied ≡ true) → (broken ≡ false) → result ≡ Verdict.Always }
        ensures sometimes { (satisfied ≡ true) → (broken ≡ true) → result ≡ Verdict.Sometimes }
    {
        match (satisfied, broken) {
            (false, _) => Verdict::Never,
            (true, false) => Verdict::Always,
            (true, true) => Verdict::Sometimes,
        }
    }
}

impl From<Verdict> for u32 {
    fn from(verdict: Verdict) -> u32
        ensures never { (verdict ≡ Verdict.Never) → result ≡ 0 }
        ensures always { (verdict ≡ Verdict.Always) → result ≡ 1 }
        ensures sometimes { (verdict ≡ Verdict.Sometimes) → result ≡ 2 }
    {
        match verdict {
            Verdict::Never => 0,
            Verdict::Always => 1,
            Verdict::Sometimes => 2,
        }
    }
}
