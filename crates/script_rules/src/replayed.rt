// What came of a run of a script.
ghost use Rattle.std.specs.Prelude.{◌≡◌};
ghost use Rattle.script_rules.specs.Reasons.{reason_number};

// Why a run stopped, by the numbers of the definition `reason_number`.
#[derive(Clone, Copy)]
pub enum Reason {
    // The script's end.
    End = 1,
    // The allowance is spent.
    Allowance = 2,
    // The next block is broken.
    Broken = 3,
    // The next answer is too long for what is left of the output.
    Room = 4,
}

impl Reason {
    #[tactic(auto, unfolding(crate::specs::Reasons::reason_number))]
    pub fn number(self) -> u32
        ensures { result ≡ reason_number self }
    {
        self as u32
    }
}

#[derive(Clone, Copy)]
pub struct Replayed {
    // Calls answered.
    pub calls: u32,
    // Where the next block begins.
    pub next: usize,
    // How much of the output holds answers.
    pub written: usize,
    pub reason: Reason,
}
