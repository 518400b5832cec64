// Marking the refuted rows. The mark of a row is the number of the hedge that refutes it: 0 is the
// empty hedge, and a higher number is that of an item. A row that is not refuted so far has none.
ghost use Rattle.std.specs.Prelude.{◌≡◌, ℕ, ◌<◌, ◌≤◌, length, if◌then◌else◌, slice_index_or};
ghost use Rattle.model.specs.Blank.{blank_row};
ghost use Rattle.theory.specs.Inequality.{inconsistent};
ghost use Rattle.sides.specs.View.{seen};
ghost use Rattle.marking.specs.Marks.{mark_at};
ghost use Rattle.marking.specs.Steps.{Roomy, Ready, Step, Swept, Settled};

use crate::met::MetRows;
use model::rows::Item;

impl MetRows<'_> {
    // Gives each row the mark that it begins with: that of the empty hedge if it is inconsistent.
    // (By number: rows and marks are lent apart, and there may be more marks than rows.)
    fn begin(&self, marks: &mut [Option<usize>])
        requires { length self.now.rows.now ≤ length marks.old }
        ensures { (i : ℕ) → i < length self.now.rows.now → mark_at marks.new i ≡ (if inconsistent (seen self.now.setting.now) (slice_index_or self.now.rows.now i blank_row) then Some 0 else None) }
    {
        for (i, row) in self.rows.iter().enumerate() {
            marks[i] = self.setting.is_inconsistent(row).then_some(0);
        }
    }

    // Looks at row number i: if it is not marked and marked rows refute it, the next item becomes its
    // witness. Gives the number of items used.
    // (Marks, items and the number used are lent apart, here and below: a struct would say each loan.)
    fn mark_row(
        &self,
        i: usize,
        marks: &mut [Option<usize>],
        items: &mut [Item],
        used: usize,
    ) -> usize
        requires row { i < length self.now.rows.now }
        requires ready { Ready (seen self.now.setting.now) self.now.rows.now marks.old items.old used }
        ensures { Step (seen self.now.setting.now) self.now.rows.now i marks.old marks.new items.new used result }
    {
        if marks[i].is_some() {
            return used;
        }
        match self.refutation(marks, &self.rows[i]) {
            Some(item) => {
                items[used] = item;
                marks[i] = Some(used + 1);
                used + 1
            }
            None => used,
        }
    }

    // Looks at all rows, the last first. Gives the number of items used.
    // (By number: rows and marks are lent apart, there may be more marks, and the last row is first.)
    fn sweep(&self, marks: &mut [Option<usize>], items: &mut [Item], used: usize) -> usize
        requires { Ready (seen self.now.setting.now) self.now.rows.now marks.old items.old used }
        ensures { Swept (seen self.now.setting.now) self.now.rows.now marks.old marks.new items.new used result }
    {
        let mut count = used;
        for i in (0..self.rows.len()).rev() {
            count = self.mark_row(i, marks, items, count);
        }
        count
    }

    // Marks refuted rows until the first one is marked or no further row can be. Gives the number of
    // items used.
    pub(crate) fn settle(&self, marks: &mut [Option<usize>], items: &mut [Item]) -> usize
        requires some { 0 < length self.now.rows.now }
        requires roomy { Roomy (seen self.now.setting.now) self.now.rows.now marks.old items.old }
        ensures { Settled (seen self.now.setting.now) self.now.rows.now marks.new items.new result }
    {
        self.begin(marks);
        let mut used = 0;
        while marks[0].is_none() {
            let next = self.sweep(marks, items, used);
            if next == used {
                return used;
            }
            used = next;
        }
        used
    }
}
