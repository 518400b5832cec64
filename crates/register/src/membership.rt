//! Membership tests.
ghost use Rattle.std.specs.Prelude.{◌≡◌, ◌<◌, length, replicate};
ghost use Rattle.model.specs.Blank.{blank_row, blank_item};
ghost use Rattle.meaning.specs.Tables.{has_spelled};
ghost use Rattle.records.specs.Reading.{padded};
ghost use Rattle.register.specs.Basis.{tables_of, machine_of};
ghost use Rattle.register.specs.Member.{member_outcome, member_answer, items_tested, MemberTrue};
ghost use Rattle.register.specs.Calls.{RefusedBlank};

use crate::basis::Basis;
use crate::register::Register;
use member::has_hedge;
use model::rows::{Item, Row};
use model::sets::StateSet;
use records::fault::CallFault;
use records::read::{blank, first, read_hedge};

/// The answer of a membership test: whether the rule has the hedge, and how many items it has.
#[derive(Clone, Copy)]
pub struct Membership {
    pub yes: bool,
    pub records: usize,
}

impl Basis<'_, '_> {
    /// Whether the rule's state has the hedge that items spell; `sets` is working memory, one set
    /// more than there are items.
    fn has(&self, sets: &mut [StateSet], rule: usize, items: &[Item]) -> bool
        ensures { length items.now < length sets.old → result ≡ has_spelled (machine_of self.now) items.now rule }
    {
        has_hedge(&self.setting(), items, sets, rule).unwrap_or(false)
    }
}

impl Register<'_, '_> {
    /// Whether the rule's language has the hedge that a text spells.
    pub fn member(
        &mut self,
        rule: usize,
        text: &[u8],
        rows: &mut [Row],
        items: &mut [Item],
    ) -> Result<Membership, CallFault>
        ensures result { result ≡ member_answer (machine_of self.old.basis) rule (member_outcome (tables_of self.old.basis) rule (length rows.old) (length items.old) text.now) }
        ensures rows { rows.new ≡ replicate (length rows.old) blank_row }
        ensures items { items.new ≡ padded blank_item (length items.old) (items_tested (member_outcome (tables_of self.old.basis) rule (length rows.old) (length items.old) text.now)) }
        ensures leaves { RefusedBlank result (length rows.old) (length items.old) rows.new items.new }
        ensures truth { MemberTrue (tables_of self.old.basis) (machine_of self.old.basis) rule result items.new }
        ensures ledger { self.new.ledger ≡ self.old.ledger }
        ensures basis { self.new.basis ≡ self.old.basis }
    {
        if let Err(fault) = self.basis.check_rule(rule) {
            blank(rows, items);
            return Err(fault);
        }
        let records = read_hedge(text, self.basis.bounds().names, rows, items)?;
        let yes = self
            .basis
            .has(self.sets.as_mut_slice(), rule, first(items, records));
        Ok(Membership { yes, records })
    }
}
