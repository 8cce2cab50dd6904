// Makes, and a pile of patches over one, each looked at by the one function that is generic in the inserter.
#![tactic(auto)]

ghost use Rattle.std.specs.Prelude.{◌≡◌, length, Err, MatchResult, OnErr};
ghost use Rattle.lanes.specs.Making.{lanes_answer};
ghost use Rattle.pool.specs.Making.{pool_answer};
ghost use Rattle.piles.specs.Settling.{Settled, as_it_is, through};

use cell::cells::Cell;
use cell::lines::{Answer, Shown};
use inserter::interface::look_twice;
use patch::patch::Patch;
use patch::table::Table;
use pool::record::Record;
use refusal::Refusal;

// Looks twice at new lanes. This and the next function each say of one make what is promised of it with no premise left; what both
// do is `look_twice`.
pub fn settle_lanes(
    bytes: &mut [u8],
    offers: &[Cell],
    shown: Shown,
) -> Result<(Answer, Answer), Refusal>
    ensures settled { MatchResult result (λ a. Settled 0 as_it_is offers.now shown a.0 a.1) (λ e. lanes_answer (length bytes.old) (length offers.now) ≡ Err e) }
    ensures kept { OnErr result (bytes.new ≡ bytes.old) }
{
    lanes::may_use(bytes, offers)?;
    let mut lanes = lanes::over(bytes, offers);
    Ok(look_twice(&mut lanes, shown))
}

// Looks twice at a patch over a patch over a new pool.
pub fn settle_pile(
    records: &mut [Record],
    offers: &[Cell],
    tables: (&Table, &Table),
    shown: Shown,
) -> Result<(Answer, Answer), Refusal>
    ensures settled { MatchResult result (λ a. Settled 2 (through tables.entry.0.now.entries tables.entry.1.now.entries) offers.now shown a.0 a.1) (λ e. pool_answer (length records.old) (length offers.now) ≡ Err e) }
    ensures kept { OnErr result (records.new ≡ records.old) }
{
    pool::may_use(records, offers)?;
    let (outer, inner) = tables;
    let mut pile = Patch::new(Patch::new(pool::over(records, offers), inner), outer);
    Ok(look_twice(&mut pile, shown))
}
