//! The laws of slot tables. Each function is empty: its clause is the law.

ghost use Rattle.std.specs.Prelude.{ℕ, List, IfOk};
ghost use Rattle.construction.specs.Plans.{Plan};
ghost use Rattle.slot_table.specs.Tables.{HolderHolds, HolderIsOne};
ghost use Rattle.slot_table.specs.HoldLaws.{AtMostOneHolds};
ghost use Rattle.slot_table.specs.HoldWords.{WordsAreExact, OneHolds};
ghost use Rattle.slot_table.specs.SlotPart.{part_for, part_of, IsTable, AreFor};
ghost use Rattle.slot_table.specs.SlotTexts.{TableTextIsRead, SlotTextIsRead};

/// If no output stands in two lines, a node that holds at an output is its holder, and the holder
/// holds.
pub fn one_holder()
    ensures holds { HolderHolds }
    ensures is_one { HolderIsOne }
{}

/// In a line of who holds a node's word is 1 exactly if the table gives it the output that it
/// shows, and so that of one node at most if all show one.
pub fn hold_words()
    ensures exact { WordsAreExact }
    ensures one { OneHolds }
{}

/// In each configuration of a run of an accepted plan, from the plan's bound on, at most one
/// correct node holds at the output that it shows, whatever the table and the lies.
pub fn at_most_one_holds()
    ensures { AtMostOneHolds }
{}

/// The lines of a table that is read are at most 256, of the nodes and outputs for which it is
/// read, and no output stands in two of them.
pub fn lines_fit()
    ensures any { (nodes modulus number : ℕ) (lines : List (List ℕ))
        → IfOk (part_for nodes modulus number lines) (λ found. IsTable nodes modulus found.value) }
    ensures plan { (plan : Plan) (number : ℕ) (lines : List (List ℕ))
        → IfOk (part_of plan number lines) (λ found. AreFor plan found.value) }
{}

/// The text of each table is read as this table, at the beginning of any text, for an accepted plan
/// too.
pub fn slot_texts_read_back()
    ensures any { TableTextIsRead }
    ensures plan { SlotTextIsRead }
{}
