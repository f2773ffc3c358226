ghost use Rattle.edge_io.specs.Writing.{Writes};
ghost use Rattle.std.specs.Prelude.{◌≡◌};
ghost use Rattle.plan_numbers.specs.Numbers.{level_of};
ghost use Rattle.adversary_script.specs.Eras.{faulty_at};
ghost use Rattle.run_checker.specs.Recorded.{recorded_version};
ghost use Rattle.run_checker.specs.RunLines.{version_line, base_line, spares_text, level_front};
ghost use Rattle.run_checker.specs.RunLines.{level_line, level_lines, head_text};

use crate::row_lines::put_faulty;
use adversary_script::Script;
use edge_io::{Piece, Sink, Writer};
use plan_numbers::{LevelNums, Plan};

/// The version of what is recorded of a script: 3 for a plan that may have spares, else the
/// script's.
fn recorded_version(plan: &Plan, script: &Script) -> u32
    ensures { result ≡ recorded_version plan.now script.now }
{
    if plan.version() == 2 {
        3
    } else if script.version() == 1 {
        1
    } else {
        2
    }
}

fn put_version<K: Sink>(writer: &mut Writer<'_, K>, version: u32)
    ensures { Writes K.told (version_line version) writer.old writer.new }
{
    writer.pieces(&[
        Piece::Text(b"run "),
        Piece::Number(u64::from(version)),
        Piece::Text(b"\n"),
    ]);
}

fn put_base<K: Sink>(writer: &mut Writer<'_, K>, plan: &Plan)
    ensures { Writes K.told (base_line plan.now.base) writer.old writer.new }
{
    writer.pieces(&[
        Piece::Text(b"base "),
        Piece::Number(plan.base_modulus()),
        Piece::Text(b"\n"),
    ]);
}

/// Writes the end of a level's line: its spares in version 3, and a newline.
fn put_spares<K: Sink>(writer: &mut Writer<'_, K>, version: u32, spares: u32)
    ensures { Writes K.told (spares_text version spares) writer.old writer.new }
{
    if version == 3 {
        writer.pieces(&[
            Piece::Text(b" spare "),
            Piece::Number(u64::from(spares)),
            Piece::Text(b"\n"),
        ]);
    } else {
        writer.text(b"\n");
    }
}

fn put_level_front<K: Sink>(writer: &mut Writer<'_, K>, nums: &LevelNums)
    ensures { Writes K.told (level_front (level_of nums.now)) writer.old writer.new }
{
    writer.pieces(&[
        Piece::Text(b"level "),
        Piece::Number(u64::from(nums.blocks)),
        Piece::Text(b" "),
        Piece::Number(u64::from(nums.faults)),
        Piece::Text(b" "),
        Piece::Number(nums.modulus),
    ]);
}

fn put_level<K: Sink>(writer: &mut Writer<'_, K>, version: u32, nums: &LevelNums)
    ensures { Writes K.told (level_line version (level_of nums.now))
        writer.old writer.new }
{
    put_level_front(writer, nums);
    put_spares(writer, version, nums.spares);
}

fn put_levels<K: Sink>(writer: &mut Writer<'_, K>, version: u32, plan: &Plan)
    ensures { Writes K.told (level_lines version plan.now.levels)
        writer.old writer.new }
{
    for i in 0..plan.depth() {
        put_level(writer, version, plan.level(i));
    }
}

/// Writes the lines of the plan and of the nodes that are faulty at first.
pub fn put_head<K: Sink>(writer: &mut Writer<'_, K>, plan: &Plan, script: &Script)
    ensures { Writes K.told (head_text plan.now script.now) writer.old writer.new }
{
    let version = recorded_version(plan, script);
    put_version(writer, version);
    put_base(writer, plan);
    put_levels(writer, version, plan);
    put_faulty(writer, script.faulty_at(0));
}
