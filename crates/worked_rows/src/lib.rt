// Worked examples of steps and of judged histories, as one table that is proved from the definitions.
#![tactic(auto)]

ghost use Rattle.worked_rows.specs.Table.{Table};

use judge::theorems::worked_rows_stand;

pub fn table_stands()
    ensures { Table }
{
    worked_rows_stand()
}
