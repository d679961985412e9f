// Why a call is refused. The numbers are the paper's, given by the definition `refusal_number`.
ghost use Rattle.std.specs.Prelude.{◌≡◌};
ghost use Rattle.rules.specs.Refusals.{refusal_number};

#[derive(Clone, Copy)]
pub enum Refusal {
    Unsound = 1,
    NoProcess = 2,
    Malformed = 3,
    NotHeld = 4,
    WrongDirection = 5,
    NameMissing = 6,
    NotADirectory = 7,
    WrongKind = 8,
    BitsForbid = 9,
    LabelForbids = 10,
    NameThere = 11,
    NotEmpty = 12,
    TableFull = 13,
    TooLong = 14,
    TooDeep = 15,
}

impl Refusal {
    #[tactic(auto, unfolding(crate::specs::Refusals::refusal_number))]
    pub fn number(self) -> u32
        ensures { result ≡ refusal_number self }
    {
        self as u32
    }
}
