// Position: records and marks, forward and in reverse.
ghost use Rattle.std.specs.Prelude.{◌≡◌, ◌≤◌, Ok};
ghost use Rattle.tape.specs.Numbers.{capacity_limit};
ghost use Rattle.motions.specs.Spaces.{positioned, residual_of, space_end, space_motion};

use crate::parts::{Ending, rest};
use moves::{Count, Rule, Spaced, Span, Stop, none_left, space};
use signals::{End, Residual, flag};
use state::Tape;
use tape::Damage;

fn residual_of(left: Count) -> Residual
    ensures { result ≡ residual_of left }
{
    match left {
        Count::Records(n) => Residual::Records(n),
        Count::Marks(n) => Residual::Marks(n),
    }
}

// How a stop ends the command; RLS if BOT or LET left any count.
fn space_end(r: Rule, s: Span, stop: Stop) -> End
    ensures { result ≡ space_end r s stop }
{
    let count = s.left;
    let residual = residual_of(count);
    let rev = flag(r.reverse, signals::REV);
    let tmk = flag(s.tmk, signals::TMK);
    let left = flag(!none_left(count), signals::RLS);
    match stop {
        Stop::Count => End {
            class: 0,
            found: tmk,
            xst3: rev,
            residual,
        },
        Stop::Mark => End {
            class: 2,
            found: signals::TMK + signals::RLS,
            xst3: rev,
            residual,
        },
        Stop::LogicalEnd => End {
            class: 2,
            found: tmk + signals::LET + left,
            xst3: rev,
            residual,
        },
        Stop::Nothing => if r.reverse {
            End {
                class: 2,
                found: tmk + left,
                xst3: signals::REV + signals::RIB,
                residual,
            }
        } else {
            End {
                class: 6,
                found: tmk,
                xst3: signals::OPI,
                residual,
            }
        },
    }
}

fn space_motion(r: Rule, x: Spaced, e: usize) -> Ending
    ensures { Ok result ≡ space_motion r (Ok x) e }
{
    let span = x.span;
    let end = space_end(r, span, x.stop);
    let tape = Tape {
        position: span.position,
        end: e,
    };
    rest(end, tape)
}

// A count of 0 moves nothing and no stage runs. With ENB a mark met first from block 0 counts as the second in a row.
pub fn position(reel: &[u8], t: Tape, r: Rule, count: Count, enb: bool) -> Result<Ending, Damage>
    requires { t.end ≤ capacity_limit }
    ensures { result ≡ positioned reel.now t r count enb }
{
    if none_left(count) {
        let residual = residual_of(count);
        let end = End {
            class: 0,
            found: 0,
            xst3: 0,
            residual,
        };
        return Ok(rest(end, t));
    }
    let after_mark = enb & (t.position == 0);
    let from = Span {
        position: t.position,
        left: count,
        tmk: false,
        after_mark,
    };
    match space(reel, r, t.end, from) {
        Ok(x) => Ok(space_motion(r, x, t.end)),
        Err(stuck) => Err(stuck.damage),
    }
}
