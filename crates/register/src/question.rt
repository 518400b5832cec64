//! Questions.
ghost use Rattle.std.specs.Prelude.{◌≡◌, ℕ, length, IfOk, Ok, vec_len};
ghost use Rattle.ledger.specs.Settled.{at};
ghost use Rattle.law.specs.Question.{VerdictTrue, Exactly};
ghost use Rattle.law.specs.Sheets.{Exchanged};
ghost use Rattle.register.specs.Basis.{tables_of, machine_of};
ghost use Rattle.register.specs.Calls.{question_checked, Agrees, QuestionLeaves, QuestionAnswered, question_settles};

use crate::register::Register;
use ledger::table::Ledger;
use model::rows::{Item, Row};
use model::verdict::Verdict;
use records::fault::CallFault;
use records::read::blank;
use search::answer::{Answer, question};

/// Enters the verdict of an answer, if it has one.
fn note(ledger: &mut Ledger, left: usize, right: usize, answer: Answer)
    ensures { (c d : ℕ) → at ledger.new c d ≡ question_settles (at ledger.old) left right (Ok answer) c d }
{
    match answer {
        Answer::Included { .. } => ledger.enter(left, right, Some(Verdict::Included)),
        Answer::Excluded { .. } => ledger.enter(left, right, Some(Verdict::Excluded)),
        Answer::Wide { .. } | Answer::OutOfRows { .. } => {}
    }
}

impl Register<'_, '_> {
    /// Whether every hedge of the rule `left` is one of the rule `right`.
    pub fn question(
        &mut self,
        left: usize,
        right: usize,
        rows: &mut [Row],
        items: &mut [Item],
    ) -> Result<Answer, CallFault>
        ensures told { Agrees (question_checked (length (tables_of self.old.basis).bodies) left right (length rows.old) (length items.old)) result }
        ensures leaves { QuestionLeaves (machine_of self.old.basis) left right (length rows.old) (length items.old) (vec_len self.old.marks) result rows.new items.new }
        ensures answered { QuestionAnswered (machine_of self.old.basis) left right (length rows.old) (length items.old) result rows.new items.new }
        ensures truth { IfOk result (λ answer. VerdictTrue (tables_of self.old.basis) (machine_of self.old.basis) left right answer rows.new items.new) }
        ensures exact { IfOk result (λ answer. Exactly (machine_of self.old.basis) left right (length rows.old) answer) }
        ensures exchange { IfOk result (λ answer. Exchanged (tables_of self.old.basis) (machine_of self.old.basis) left right answer rows.new items.new) }
        ensures settled { (c d : ℕ) → at self.new.ledger c d ≡ question_settles (at self.old.ledger) left right result c d }
        ensures basis { self.new.basis ≡ self.old.basis }
    {
        // blanked here and in the other calls: a function over a result would say of rows and items twice
        // what they are
        if let Err(fault) = self
            .basis
            .check_question(left, right, rows.len(), items.len())
        {
            blank(rows, items);
            return Err(fault);
        }
        let answer = question(
            &self.basis.setting(),
            left,
            right,
            rows,
            items,
            self.marks.as_mut_slice(),
        );
        note(&mut self.ledger, left, right, answer);
        Ok(answer)
    }
}
