//! The law of tables. The function is empty: its clauses are the law.

ghost use Rattle.halving_texts.specs.TableLaws.{TablesAreRead, OnlyTablesAreRead};

/// Reading a table is the inverse of writing it: the table of an accepted plan is read as that
/// plan, and a text that is read as a plan is that plan's table, the plan being accepted.
pub fn tables_read_back()
    ensures read { TablesAreRead }
    ensures only { OnlyTablesAreRead }
{}
