//! The laws of table texts. Each function is empty: its clauses are the laws.

ghost use Rattle.plan_certificate.specs.TableLaws.{TablesAreRead, OnlyTablesAreRead};

/// Reading a table text is the inverse of writing it: the table text of an accepted plan is read as
/// that plan, and a text that is read as a plan is that plan's table text, the plan being accepted.
pub fn tables_read_back()
    ensures read { TablesAreRead }
    ensures only { OnlyTablesAreRead }
{}
