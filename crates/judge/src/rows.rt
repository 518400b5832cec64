//! Judges the rows or the items of a sheet.
ghost use Rattle.std.specs.Prelude.{◌≡◌, length, if◌then◌else◌, Err, nat_lt};
ghost use Rattle.ledger.specs.Settled.{at};
ghost use Rattle.sides.specs.View.{seen};
ghost use Rattle.gaps.specs.Grounds.{shown_on};
ghost use Rattle.judge.specs.Judgement.{row_fault, first_fault, rooted, included_fault, excluded_fault, refusal};
ghost use Rattle.judge.specs.Faults.{no_memory};

use crate::claim::Claim;
use crate::fault::SheetFault;
use gaps::gap::find_gap;
use gaps::grounds::Grounds;
use member::hedge_states;
use model::rows::{Item, Row};
use model::sets::StateSet;
use records::fault::CallFault;
use sides::setting::Setting;
use text::fault::ensure;

/// Refuses the row at a line if it is inconsistent, wide or has a gap.
#[tactic(auto, unfolding(crate::specs::Judgement::row_fault))]
fn judge_row(
    setting: &Setting<'_>,
    grounds: &Grounds<'_>,
    line: usize,
    row: &Row,
) -> Result<(), SheetFault>
    ensures { result ≡ refusal (row_fault (seen setting.now) (shown_on grounds.now) line row.now) }
{
    ensure(
        !setting.is_inconsistent(row),
        SheetFault::Inconsistent { line },
    )?;
    ensure(!setting.is_wide(row), SheetFault::Wide { line })?;
    ensure(
        find_gap(setting, grounds, row).is_none(),
        SheetFault::Gap { line },
    )
}

/// Refuses the first row that is at fault; row 0 stands at line 3.
#[tactic(auto, using(crate::proofs::Lines::rows_more, crate::proofs::Lines::rows_here, crate::proofs::Lines::rows_past))]
fn judge_rows(setting: &Setting<'_>, grounds: &Grounds<'_>) -> Result<(), SheetFault>
    ensures { result ≡ refusal (first_fault (seen setting.now) (shown_on grounds.now) 3 grounds.now.rows.now) }
{
    for (i, row) in grounds.rows.iter().enumerate() {
        judge_row(setting, grounds, i + 3, row)?;
    }
    Ok(())
}

/// Whether row 0 is the root.
fn is_rooted(claim: Claim, rows: &[Row]) -> bool
    ensures { result ≡ rooted claim.left claim.right rows.now }
{
    rows.first() == Some(&claim.root())
}

/// Judges the rows of an included sheet.
#[tactic(auto, unfolding(crate::specs::Judgement::included_fault))]
pub fn judge_included(
    setting: &Setting<'_>,
    grounds: &Grounds<'_>,
    claim: Claim,
) -> Result<(), SheetFault>
    ensures { result ≡ refusal (included_fault (seen setting.now) (at grounds.now.ledger.now) grounds.now.rules claim.left claim.right grounds.now.rows.now) }
{
    ensure(is_rooted(claim, grounds.rows), SheetFault::Root)?;
    judge_rows(setting, grounds)
}

/// Judges the items of an excluded sheet. `sets` is working memory, one set more than there are
/// items; where it is shorter the items have no room.
#[tactic(auto, unfolding(crate::specs::Judgement::excluded_fault, meaning::specs::Tables::has_spelled, member::specs::Sets::spelled_set))]
pub fn judge_excluded(
    setting: &Setting<'_>,
    sets: &mut [StateSet],
    claim: Claim,
    items: &[Item],
) -> Result<(), SheetFault>
    ensures { result ≡ (if nat_lt (length items.now) (length sets.old) then refusal (excluded_fault (seen setting.now) claim.left claim.right items.now) else Err no_memory) }
{
    let set = hedge_states(setting, items, sets).ok_or(CallFault::Room { line: 0 })?;
    ensure(
        set.contains(claim.left) && !set.contains(claim.right),
        SheetFault::Witness,
    )
}
