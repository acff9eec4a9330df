// The causes of a refusal, one error type for every crate, and the number that a caller is told of each.
#![tactic(auto)]

ghost use Rattle.causes.specs.Causes.{number};

// Those of the scope in the order of their numbers, then those of a move, which tests a target's length last.
#[derive(Clone, Copy)]
pub enum Refusal {
    Settings,
    Unsound,
    Address,
    Fresh,
    Token,
    Verdict,
    Body,
    Running,
    Full,
    NoRecord,
    Short,
    Slots,
    Group,
    Target,
}

// The number of a cause. A target that is not of the new length is 1 as a wrong length at set up is, so the numbers are no discriminants of the type.
impl From<Refusal> for u32 {
    ghost use Rattle.std.specs.Prelude.{◌≡◌};
    ghost use Rattle.causes.specs.Causes.{number};

    ghost from_gives = { λ c n. n ≡ number c };

    fn from(c: Refusal) -> u32 {
        match c {
            Refusal::Settings => 1,
            Refusal::Unsound => 2,
            Refusal::Address => 3,
            Refusal::Fresh => 4,
            Refusal::Token => 5,
            Refusal::Verdict => 6,
            Refusal::Body => 7,
            Refusal::Running => 8,
            Refusal::Full => 9,
            Refusal::NoRecord => 10,
            Refusal::Short => 11,
            Refusal::Slots => 15,
            Refusal::Group => 16,
            Refusal::Target => 1,
        }
    }
}
