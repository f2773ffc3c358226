ghost use Rattle.std.specs.Prelude.{◌≡◌, ◌<◌};
ghost use Rattle.texts.specs.Growth.{Puts};
ghost use Rattle.edge_io.specs.Writing.{Writes};
ghost use Rattle.halving_texts.specs.Tables.{plan_line, sizes_line, group_front, halves_end};
ghost use Rattle.halving_texts.specs.Tables.{spares_of, group_line, group_lines};
ghost use Rattle.halving_texts.specs.Tables.{node_line, node_lines, table_text};

use edge_io::{Piece, Sink, WriteFault, Writer};
use halving_plan::{
    Group, HalvingPlan, levels, node_bytes, output_bits, output_start, state_bits, state_bytes,
};

fn put_plan<K: Sink>(writer: &mut Writer<'_, K>, plan: &HalvingPlan)
    ensures { Writes K.told (plan_line plan.now) writer.old writer.new }
{
    writer.pieces(&[
        Piece::Text(b"table halving 1\nplan nodes "),
        Piece::Number(u64::from(plan.nodes())),
        Piece::Text(b" faults "),
        Piece::Number(u64::from(plan.faults())),
        Piece::Text(b" modulus "),
        Piece::Number(plan.modulus()),
        Piece::Text(b"\n"),
    ]);
}

fn put_sizes<K: Sink>(writer: &mut Writer<'_, K>, plan: &HalvingPlan)
    ensures { Writes K.told (sizes_line plan.now) writer.old writer.new }
{
    writer.pieces(&[
        Piece::Text(b"bound "),
        Piece::Number(plan.bound()),
        Piece::Text(b" levels "),
        Piece::Number(levels(plan)),
        Piece::Text(b" bits "),
        Piece::Number(u64::from(state_bits(plan))),
        Piece::Text(b" bytes "),
        Piece::Number(state_bytes(plan)),
        Piece::Text(b"\n"),
    ]);
}

fn put_group_front<K: Sink>(writer: &mut Writer<'_, K>, group: &Group)
    ensures { Writes K.told (group_front group.now) writer.old writer.new }
{
    writer.pieces(&[
        Piece::Text(b"group "),
        Piece::Number(u64::from(group.first())),
        Piece::Text(b" nodes "),
        Piece::Number(u64::from(group.nodes())),
        Piece::Text(b" faults "),
        Piece::Number(u64::from(group.faults())),
        Piece::Text(b" modulus "),
        Piece::Number(group.modulus()),
    ]);
}

/// How many nodes of a group that has halves are in none of them.
fn spares(group: &Group) -> u64
    requires { 0 < group.now.faults }
    ensures { result ≡ spares_of group.now }
{
    group.facts();
    u64::from(group.nodes() - group.left().nodes() - group.right().nodes())
}

fn put_halves_end<K: Sink>(writer: &mut Writer<'_, K>, group: &Group)
    requires { 0 < group.now.faults }
    ensures { Writes K.told (halves_end group.now) writer.old writer.new }
{
    writer.pieces(&[
        Piece::Text(b" share "),
        Piece::Number(group.right_share()),
        Piece::Text(b" left "),
        Piece::Number(group.left_share()),
        Piece::Text(b" right "),
        Piece::Number(group.right_period()),
        Piece::Text(b" kings "),
        Piece::Number(u64::from(group.left().faults()) + 1),
        Piece::Text(b" "),
        Piece::Number(u64::from(group.right().faults()) + 1),
        Piece::Text(b" spares "),
        Piece::Number(spares(group)),
        Piece::Text(b"\n"),
    ]);
}

/// The line of a group.
fn put_group<K: Sink>(writer: &mut Writer<'_, K>, group: &Group)
    ensures { Writes K.told (group_line group.now) writer.old writer.new }
{
    put_group_front(writer, group);
    if group.faults() == 0 {
        writer.text(b"\n");
    } else {
        put_halves_end(writer, group);
    }
}

/// The lines of a group and of all groups in it.
fn put_groups<K: Sink>(writer: &mut Writer<'_, K>, group: &Group)
    ensures { Writes K.told (group_lines group.now) writer.old writer.new }
{
    put_group(writer, group);
    if group.faults() == 0 {
        return;
    }
    put_groups(writer, &group.left());
    put_groups(writer, &group.right());
}

fn put_node<K: Sink>(writer: &mut Writer<'_, K>, plan: &HalvingPlan, node: u32)
    ensures { Writes K.told (node_line plan.now node) writer.old writer.new }
{
    writer.pieces(&[
        Piece::Text(b"node "),
        Piece::Number(u64::from(node)),
        Piece::Text(b" bytes "),
        Piece::Number(node_bytes(plan, node)),
        Piece::Text(b" output "),
        Piece::Number(u64::from(output_start(plan, node))),
        Piece::Text(b" "),
        Piece::Number(u64::from(output_bits(plan))),
        Piece::Text(b"\n"),
    ]);
}

/// The lines of all nodes.
fn put_nodes<K: Sink>(writer: &mut Writer<'_, K>, plan: &HalvingPlan)
    ensures { Writes K.told (node_lines plan.now) writer.old writer.new }
{
    for node in 0..plan.nodes() {
        put_node(writer, plan, node);
    }
}

fn put_table<K: Sink>(writer: &mut Writer<'_, K>, plan: &HalvingPlan)
    ensures { Writes K.told (table_text plan.now) writer.old writer.new }
{
    put_plan(writer, plan);
    put_sizes(writer, plan);
    put_groups(writer, &plan.whole());
    put_nodes(writer, plan);
    writer.text(b"end\n");
}

/// Writes the table of a plan. It takes no memory, and a text of at most 8192 bytes is one write if
/// the sink takes it whole.
///
/// `WriteFault` comes only if the sink counted a fault; a prefix of the text was then taken.
pub fn write_table<K: Sink>(plan: &HalvingPlan, sink: &mut K) -> Result<(), WriteFault>
    ensures { Puts result (table_text plan.now) (K.told sink.old) (K.told sink.new) }
{
    let mut writer = Writer::new(sink);
    put_table(&mut writer, plan);
    writer.finish()
}
