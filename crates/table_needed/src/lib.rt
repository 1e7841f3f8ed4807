// How many rows a payload needs: so many records are enough for its reader, and with fewer it answers 29.
#![tactic(auto)]

ghost use Rattle.std.specs.Prelude.{◌≡◌};
ghost use Rattle.table_sbgp.specs.Sbgp.{parse_sbgp};
ghost use Rattle.table_csgp.specs.Table.{parse_csgp};
ghost use Rattle.table_runs.specs.Ahead.{LaidIn};
ghost use Rattle.table_records.specs.Lent.{table_from};
ghost use Rattle.table_needed.specs.Needed.{rows_needed};
ghost use Rattle.base_fields.specs.Refusal.{told_value};

use base_fields::refusal::Refusal;
use table_csgp_head::read_csgp;
use table_records::count_rows;
use table_runs::SampleTable;
use table_sbgp::read_sbgp;

// More records than any table has rows.
pub const UNLIMITED: usize = 18446744073709551615;

// The rows of a table that was read; 28 where a row's count would pass its limit.
fn needed(s: &[u8], table: SampleTable) -> Result<usize, Refusal>
    requires { LaidIn s.now table }
    ensures { told_value result ≡ rows_needed (λ p. table_from p table) s.now }
{
    count_rows(s, table, UNLIMITED)
}

// The number of rows that an sbgp payload needs, or its first refusal.
pub fn sbgp_rows_needed(s: &[u8]) -> Result<usize, Refusal>
    ensures { told_value result ≡ rows_needed parse_sbgp s.now }
{
    let head = read_sbgp(s)?;
    needed(s, SampleTable::Rows(head))
}

// The same for a csgp payload.
pub fn csgp_rows_needed(s: &[u8]) -> Result<usize, Refusal>
    ensures { told_value result ≡ rows_needed parse_csgp s.now }
{
    let head = read_csgp(s)?;
    needed(s, SampleTable::Patterns(head))
}
