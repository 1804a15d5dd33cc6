// A caller of the library, as README shows it.

#![tactic(auto)]

use sheet::{Refusal, Table};
use state::StepKind;

// What the first step of a sheet is, at that row and with cleaning; or number and place of the refusal.
pub fn first_step(sheet: &[u8], row: usize) -> Result<StepKind, Refusal> {
    let table = Table {
        head: sheet_engine::read_sheet(sheet)?,
        terms: sheet_engine::terms_part(sheet),
        conditions: sheet_engine::conditions_part(sheet),
    };
    let fresh = sheet_engine::start(&table, 1)?;
    sheet_engine::take_step(fresh, &table, row).answer
}
