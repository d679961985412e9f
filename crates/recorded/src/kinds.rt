// The kinds of records, by their numbers.
ghost use Rattle.std.specs.Prelude.{◌≡◌};
ghost use Rattle.recorded.specs.Taken.{kind_of};

use crate::records::Stop;

#[derive(Clone, Copy)]
pub(crate) enum Kind {
    Sizes,
    Files,
    Contents,
    OpenFiles,
    Processes,
    Policy,
    Call,
    Empty,
    Rom,
    Borrow,
}

// A record of no known kind is broken.
impl TryFrom<u8> for Kind {
    type Error = Stop;

    ghost try_from_gives = { λ n r. r ≡ kind_of n };

    #[tactic(auto, unfolding(crate::specs::Taken::kind_of))]
    fn try_from(number: u8) -> Result<Kind, Stop> {
        match number {
            0 => Ok(Kind::Sizes),
            1 => Ok(Kind::Files),
            2 => Ok(Kind::Contents),
            3 => Ok(Kind::OpenFiles),
            4 => Ok(Kind::Processes),
            5 => Ok(Kind::Policy),
            6 => Ok(Kind::Call),
            7 => Ok(Kind::Empty),
            8 => Ok(Kind::Rom),
            9 => Ok(Kind::Borrow),
            _ => Err(Stop::Broken),
        }
    }
}
