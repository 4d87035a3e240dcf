// What the units share: three numbers, the used journal and the last mount's lengths of memory and journal.
ghost use Rattle.std.specs.Prelude.{◌≡◌};
ghost use Rattle.records.specs.Shares.{coupler_in, shares_of};

use lists::low;
use worlds::Coupler;

pub fn coupler_in(shared: &[u32; 3]) -> Coupler
    ensures { result ≡ coupler_in shared.now }
{
    let n = *shared;
    Coupler {
        used: n[0] as usize,
        memory: n[1] as usize,
        journal: n[2] as usize,
    }
}

pub fn put_coupler(shared: &mut [u32; 3], c: Coupler)
    ensures { shared.new ≡ shares_of c }
{
    *shared = [low(c.used), low(c.memory), low(c.journal)];
}
