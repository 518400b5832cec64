//! What calls ask of a basis.
ghost use Rattle.std.specs.Prelude.{◌≡◌, length};
ghost use Rattle.sides.specs.View.{seen};
ghost use Rattle.register.specs.Basis.{tables_of, machine_of};
ghost use Rattle.register.specs.Calls.{rule_checked, question_checked};

use crate::basis::Basis;
use records::fault::CallFault;
use records::read::counts;
use records::sheet::Bounds;
use sides::setting::Setting;
use text::fault::ensure;

impl Basis<'_, '_> {
    /// The states, and which name covers which.
    pub(crate) fn setting(&self) -> Setting<'_>
        ensures { seen result ≡ machine_of self.now }
    {
        Setting {
            machine: &self.grammar.machine,
            covers: &self.covers,
        }
    }

    /// What the numbers of a sheet are held against.
    pub(crate) fn bounds(&self) -> Bounds<'_>
        ensures rules { result.rules ≡ length (tables_of self.now).bodies }
        ensures states { result.states ≡ length (machine_of self.now).states }
        ensures names { result.names.now ≡ (tables_of self.now).names }
    {
        let tables = &self.grammar.tables;
        Bounds {
            rules: tables.bodies().len(),
            states: self.grammar.machine.count(),
            names: tables.names(),
        }
    }

    /// Refuses a rule that the grammar does not have.
    pub(crate) fn check_rule(&self, rule: usize) -> Result<(), CallFault>
        ensures { result ≡ rule_checked (length (tables_of self.now).bodies) rule }
    {
        ensure(
            rule < self.grammar.tables.bodies().len(),
            CallFault::Rule { line: 0 },
        )
    }

    /// Refuses what a question may not be given.
    pub(crate) fn check_question(
        &self,
        left: usize,
        right: usize,
        rows: usize,
        items: usize,
    ) -> Result<(), CallFault>
        ensures { result ≡ question_checked (length (tables_of self.now).bodies) left right rows items }
    {
        self.check_rule(left)?;
        self.check_rule(right)?;
        counts(rows, items)
    }
}
