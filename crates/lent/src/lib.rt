// A caller that lends its own record: `step_in_place` is called on a local, and what was left in the local is handed back.

#![tactic(auto)]

ghost use Rattle.std.specs.Prelude.{◌≡◌};
ghost use Rattle.sheet.specs.Table.{lent_table};
ghost use Rattle.sheet_engine.specs.Answers.{step_answer};

use engine::Stepped;
use sheet::Table;
use state::State;

// One step on a record that the function owns and lends: the answer and the record are those of `take_step`.
pub fn step_lent(s: State, t: &Table, row: usize) -> Stepped
    ensures { (result.answer ≡ (step_answer (lent_table t.now) s row).answer) × (result.state ≡ (step_answer (lent_table t.now) s row).state) }
{
    let mut own = s;
    let answer = sheet_engine::step_in_place(&mut own, t, row);
    Stepped { answer, state: own }
}
