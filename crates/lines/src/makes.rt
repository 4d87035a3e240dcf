// A line made of what it does and the bytes that it gives.
ghost use Rattle.std.specs.Prelude.{◌≡◌};
ghost use Rattle.lines.specs.Makes.{asks_line, plain_line};

use crate::{Ask, Call, Does, Given, Line};

impl Does {
    pub(crate) fn giving(self, given: Given) -> Line
        ensures { result ≡ record { does = self; given = given } }
    {
        Line { does: self, given }
    }

    // With no bytes.
    pub(crate) fn plain(self) -> Line
        ensures { result ≡ plain_line self }
    {
        self.giving(Given::Nothing)
    }
}

pub fn asks(ask: Ask, given: Given) -> Line
    ensures { result ≡ asks_line ask given }
{
    Does::Calls(Call::Step(ask)).giving(given)
}
