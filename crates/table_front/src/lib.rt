// What the payloads of both sample tables begin with (document 01, parts 3 and 4): type, parameter and count.
#![tactic(auto)]

ghost use Rattle.std.specs.Prelude.{◌≡◌, ◌≤◌, length};
ghost use Rattle.base_fields.specs.Answer.{given, choose};
ghost use Rattle.base_fields.specs.Number.{be_at};
ghost use Rattle.table_front.specs.Front.{has_parameter, fronted, front_fields};
ghost use Rattle.table_front.specs.Told.{told_front};

use base_fields::refusal::Refusal;
use base_fields::{INPUT_LIMIT, read_u8, read_u32};

#[derive(Clone, Copy)]
pub enum TableKind {
    Sbgp,
    Csgp,
}

#[derive(Clone, Copy)]
pub struct TableFront {
    pub grouping_type: u32,
    pub grouping_type_parameter: u32,
    // Of rows or of patterns.
    pub count: u32,
    // The byte place behind the count.
    pub first: usize,
}

// Whether a parameter stands before the count.
fn has_parameter(s: &[u8], kind: TableKind) -> bool
    requires { 8 ≤ length s.now }
    ensures { result ≡ has_parameter kind s.now }
{
    match kind {
        TableKind::Sbgp => match read_u8(s, 0) {
            1 => true,
            _ => false,
        },
        TableKind::Csgp => match read_u8(s, 3) / 64 % 2 {
            1 => true,
            _ => false,
        },
    }
}

// The byte place of the count.
fn count_place(parameter: bool) -> usize
    ensures { (result ≡ choose parameter 12 8) × (8 ≤ result) × (result ≤ 12) }
{
    if parameter { 12 } else { 8 }
}

// The parameter, 0 where there is none.
fn parameter_value(s: &[u8], parameter: bool) -> u32
    requires { choose parameter 12 8 ≤ length s.now }
    ensures { result ≡ choose parameter (be_at 4 s.now 8) 0 }
{
    if parameter { read_u32(s, 8) } else { 0 }
}

pub fn read_front(s: &[u8], kind: TableKind) -> Result<TableFront, Refusal>
    ensures { told_front result ≡ fronted kind s.now (given (front_fields kind s.now)) }
{
    if INPUT_LIMIT < s.len() {
        return Err(Refusal::InputTooLong);
    }
    if s.len() < 8 {
        return Err(Refusal::ShortTable);
    }
    let parameter = has_parameter(s, kind);
    let place = count_place(parameter);
    if s.len() < place + 4 {
        if s.len() < place {
            return Err(Refusal::NoParameter);
        }
        return Err(Refusal::NoCount);
    }
    Ok(TableFront {
        grouping_type: read_u32(s, 4),
        grouping_type_parameter: parameter_value(s, parameter),
        count: read_u32(s, place),
        first: place + 4,
    })
}
