// The registers that can be read.
ghost use Rattle.std.specs.Prelude.{◌≡◌};
ghost use Rattle.unit.specs.Registers.{register_word};

use state::Unit;

#[derive(Clone, Copy)]
pub enum Register {
    Tsba,
    Tssr,
}

#[tactic(auto, unfolding(crate::specs::Registers::register_word))]
pub fn register_word(u: Unit, register: Register) -> u16
    ensures { result ≡ register_word u register }
{
    match register {
        Register::Tsba => u.tsba(),
        Register::Tssr => u.tssr(),
    }
}
