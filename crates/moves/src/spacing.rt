// Spacing over a count of records, or skipping a count of marks.
ghost use Rattle.std.specs.Prelude.{◌≡◌, ◌<◌, ◌≤◌, eqb};
ghost use Rattle.moves.specs.Counting.{after_record, how_many};
ghost use Rattle.moves.specs.Spacing.{mark_turn, record_turn, skip_turn, spaced, turn_after, turn_of};

use crate::seeking::{Sought, seek};
use signals::{MarkCount, RecordCount};
use tape::Damage;

// What a Position counts, and how many of it. A space over records never becomes a skip over marks on its way.
#[derive(Clone, Copy)]
pub enum Count {
    Records(RecordCount),
    Marks(MarkCount),
}

// Which way, and whether two marks in a row end it (ESS).
#[derive(Clone, Copy)]
pub struct Rule {
    pub reverse: bool,
    pub ess: bool,
}

// How far it came: the count that is left, whether a mark was passed, and whether the last object passed was a mark.
#[derive(Clone, Copy)]
pub struct Span {
    pub position: usize,
    pub left: Count,
    pub tmk: bool,
    pub after_mark: bool,
}

// Why it stopped.
#[derive(Clone, Copy)]
pub enum Stop {
    Count,
    Mark,
    LogicalEnd,
    Nothing,
}

#[derive(Clone, Copy)]
pub struct Spaced {
    pub span: Span,
    pub stop: Stop,
}

// A space that met a block at fault, and how far it had come.
#[derive(Clone, Copy)]
pub struct Stuck {
    pub damage: Damage,
    pub span: Span,
}

// Kept: no Result or `ControlFlow`, since neither end of a turn is a failure, and both have a name here.
#[derive(Clone, Copy)]
pub enum Turn {
    On(Span),
    Over(Spaced),
}

// Is all of it done?
pub fn none_left(c: Count) -> bool
    ensures { result ≡ eqb (how_many c) 0 }
{
    match c {
        Count::Records(n) => n.0 == 0,
        Count::Marks(n) => n.0 == 0,
    }
}

// A record is counted, unless marks are.
fn after_record(c: Count) -> Count
    requires { 1 ≤ how_many c }
    ensures { result ≡ after_record c }
{
    match c {
        Count::Records(n) => Count::Records(RecordCount(n.0 - 1)),
        Count::Marks(n) => Count::Marks(n),
    }
}

// What a turn goes by: the rule, and how far it came, with some of the count left.
#[derive(Clone, Copy)]
struct Onward {
    rule: Rule,
    span: Span,
    ghost some_left: { 1 ≤ how_many span.left },
}

impl Onward {
    fn record_turn(self, q: usize) -> Turn
        ensures { result ≡ record_turn self.span q }
    {
        let left = after_record(self.span.left);
        Turn::On(Span {
            position: q,
            left,
            after_mark: false,
            ..self.span
        })
    }

    // Of marks a mark is counted, and ends the command where the one before was a mark too.
    fn skip_turn(self, n: MarkCount, q: usize) -> Turn
        requires { 1 ≤ n.0 }
        ensures { result ≡ skip_turn self.rule self.span n q }
    {
        let counted = Span {
            position: q,
            left: Count::Marks(MarkCount(n.0 - 1)),
            tmk: true,
            after_mark: true,
        };
        if self.rule.ess & self.span.after_mark {
            return Turn::Over(Spaced {
                span: counted,
                stop: Stop::LogicalEnd,
            });
        }
        Turn::On(counted)
    }

    // A mark stops records and isn't counted.
    fn mark_turn(self, q: usize) -> Turn
        ensures { result ≡ mark_turn self.rule self.span q }
    {
        match self.span.left {
            Count::Records(n) => Turn::Over(Spaced {
                span: Span {
                    position: q,
                    left: Count::Records(n),
                    tmk: true,
                    after_mark: true,
                },
                stop: Stop::Mark,
            }),
            Count::Marks(n) => self.skip_turn(n, q),
        }
    }

    fn turn_over(self, f: Sought) -> Turn
        ensures { result ≡ turn_of self.rule self.span f }
    {
        match f {
            Sought::Record(_, q) => self.record_turn(q),
            Sought::Mark(q) => self.mark_turn(q),
            Sought::Nothing(q) => Turn::Over(Spaced {
                span: Span {
                    position: q,
                    ..self.span
                },
                stop: Stop::Nothing,
            }),
        }
    }

    #[tactic(auto, unfolding(crate::specs::Spacing::turn_after))]
    fn turn_after(self, f: Result<Sought, Damage>) -> Result<Turn, Stuck>
        ensures { result ≡ turn_after self.rule self.span f }
    {
        match f {
            Ok(found) => Ok(self.turn_over(found)),
            Err(damage) => Err(Stuck {
                damage,
                span: self.span,
            }),
        }
    }
}

// Each turn passes a block or more, so a turn for each block and one more are enough.
pub fn space(reel: &[u8], r: Rule, e: usize, from: Span) -> Result<Spaced, Stuck>
    requires { e < 18446744073709551615 }
    ensures { result ≡ spaced reel.now r e from }
{
    let mut s = from;
    for _ in 0..e + 1 {
        let left = s.left;
        if none_left(left) {
            return Ok(Spaced {
                span: s,
                stop: Stop::Count,
            });
        }
        let onward = Onward { rule: r, span: s };
        match onward.turn_after(seek(reel, r.reverse, s.position, e))? {
            Turn::On(next) => s = next,
            Turn::Over(last) => return Ok(last),
        }
    }
    Ok(Spaced {
        span: s,
        stop: Stop::Count,
    })
}
