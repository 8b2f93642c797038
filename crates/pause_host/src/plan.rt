//! What a program is given: its module, and what a host says of it.

use host_setup::Entry;
use wa_model::{AnswerLine, Area};
use wa_types::{Name, Value};
use wasm_validate::Valid;

/// What a program is given: its module, which function imports are listed where that is told, for each function import the device
/// to which it is bound where it is, its area, its number of steps, the values of the imported globals, its entries and its answer
/// lines.
#[derive(Drop)]
pub struct Plan<'m> {
    pub module: &'m Valid,
    pub listed: Option<Vec<bool>>,
    pub binds: Vec<Option<Name>>,
    pub area: Area,
    pub steps: u64,
    pub globals: Vec<Value>,
    pub entries: Vec<Entry>,
    pub answers: Vec<AnswerLine>,
}
