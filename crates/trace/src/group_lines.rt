//! The lines of the groups in which a node is.

ghost use Rattle.std.specs.Prelude.{◌≡◌, ◌+◌, ◌≤◌, length};
ghost use Rattle.construction.specs.Steps.{state_of};
ghost use Rattle.edge_io.specs.Writing.{Writes};
ghost use Rattle.halving_plan.specs.GroupHearing.{level_state_in};
ghost use Rattle.trace.specs.Around.{IsAround};
ghost use Rattle.trace.specs.GroupTexts.{sound_word, trust_word, is_sound, held_part, heard_if};
ghost use Rattle.trace.specs.GroupTexts.{group_front, group_line};
ghost use Rattle.trace.specs.Groups.{groups_of};
ghost use Rattle.trace.specs.HalvingNodeTexts.{group_lines};

use crate::counted::{count_said, half_word, put_said};
use crate::group_views::GroupView;
use crate::line_words::{mark_word, number_piece};
use crate::rooms::ValueRoom;
use crate::sides::Side;
use crate::views::View;
use counter_core::Heard;
use edge_io::{Piece, Sink, Writer};
use halving_plan::{Group, LevelState};

/// The word of a group, by whether it is sound.
fn sound_word(sound: bool) -> &'static str
    ensures { result.now ≡ sound_word sound }
{
    if sound { " sound" } else { " unsound" }
}

/// The word of what was seen of the left half, by whether it is trusted.
fn trust_word(trusted: bool) -> &'static str
    ensures { result.now ≡ trust_word trusted }
{
    if trusted { " trusted" } else { " untrusted" }
}

/// Whether a group has no more faulty nodes than it tolerates.
fn is_sound(view: &View<'_>, group: &Group) -> bool
    requires { group.now.first + group.now.nodes ≤ length view.now.config.now }
    ensures { result ≡ is_sound group.now view.now.faulty.now.ids }
{
    group.facts();
    view.faults_in(group.first(), group.nodes()) <= group.faults()
}

/// Writes what a level state of a group holds after its register.
fn put_held<K: Sink>(writer: &mut Writer<'_, K>, seen: &GroupView<'_>, own: &LevelState)
    ensures { Writes K.told (held_part seen.now.group seen.now.view.now.faulty.now.ids own.now)
        writer.old writer.new }
{
    let group = &seen.group;
    let left = group.right_share() <= own.seen;
    writer.pieces(&[
        Piece::Text(sound_word(is_sound(seen.view, group)).as_bytes()),
        Piece::Text(b" seen "),
        Piece::Number(own.seen),
        Piece::Text(trust_word(own.trusted).as_bytes()),
        Piece::Text(b" share"),
        Piece::Text(half_word(left).as_bytes()),
    ]);
}

/// Writes the beginning of a group's line, up to the node's own register there.
fn put_front<K: Sink>(writer: &mut Writer<'_, K>, seen: &GroupView<'_>, own: &LevelState)
    ensures { Writes K.told (group_front seen.now.view.now.heading
        seen.now.view.now.faulty.now.ids seen.now.view.now.config.now
        (record { side = seen.now.side; group = seen.now.group }) own.now.register)
        writer.old writer.new }
{
    let (view, group) = (seen.view, seen.group);
    group.facts();
    let (first, nodes) = (group.first(), group.nodes());
    let register = own.register;
    let all = view.all_have(group.register(), first, nodes, register.a);
    writer.pieces(&[
        Piece::Text(b"at "),
        Piece::Number(view.heading.at),
        Piece::Text(b" node "),
        Piece::Number(u64::from(view.heading.node)),
        Piece::Text(view.heading.faulty_word().as_bytes()),
        Piece::Text(seen.side.word().as_bytes()),
        Piece::Number(u64::from(first)),
        Piece::Text(b" "),
        Piece::Number(u64::from(first + nodes - 1)),
        Piece::Text(b" value "),
        number_piece(register.a),
        Piece::Text(mark_word(register.d, all).as_bytes()),
    ]);
}

/// Writes what the node, which has this level state, hears of the group, if nodes hear one another.
fn put_heard_if<K: Sink>(
    writer: &mut Writer<'_, K>,
    seen: &GroupView<'_>,
    own: &LevelState,
    room: &mut ValueRoom,
)
    ensures { Writes K.told (heard_if seen.now.view.now.hears seen.now.group own.now
        seen.now.heard.now) writer.old writer.new }
{
    if seen.view.hears {
        let said = count_said(seen, own, room);
        put_said(writer, &seen.group, &said);
    }
}

/// The level state that the node has in the group.
fn own_in(seen: &GroupView<'_>) -> LevelState
    ensures { result ≡ level_state_in seen.now.group
        (state_of seen.now.view.now.config.now seen.now.view.now.heading.node) }
{
    let view = seen.view;
    LevelState::read(&view.config[view.heading.node as usize], &seen.group)
}

/// Writes the line of the group, by what its node hears of all nodes.
fn put_group_line<K: Sink>(writer: &mut Writer<'_, K>, seen: &GroupView<'_>, room: &mut ValueRoom)
    ensures { Writes K.told (group_line seen.now.view.now.heading
        seen.now.view.now.faulty.now.ids seen.now.view.now.config.now seen.now.view.now.hears
        seen.now.heard.now (record { side = seen.now.side; group = seen.now.group }))
        writer.old writer.new }
{
    let own = own_in(seen);
    put_front(writer, seen, &own);
    put_held(writer, seen, &own);
    put_heard_if(writer, seen, &own, room);
    writer.byte(b'\n');
}

/// Writes the lines of the groups with halves in which the node is, from a group down, by what it
/// hears of all nodes.
pub fn put_groups<K: Sink>(
    writer: &mut Writer<'_, K>,
    side: Side,
    group: &Group,
    view: &View<'_>,
    heard: &Heard<'_>,
    room: &mut ValueRoom,
)
    requires { IsAround group.now view.now heard.now }
    ensures { Writes K.told (group_lines view.now.heading view.now.faulty.now.ids
        view.now.config.now view.now.hears heard.now
        (groups_of side group.now view.now.heading.node)) writer.old writer.new }
{
    group.facts();
    if group.faults() == 0 {
        return;
    }
    let seen = GroupView {
        view: &*view,
        side,
        group: *group,
        heard: &*heard,
    };
    put_group_line(writer, &seen, room);
    if let Some(half) = group.half_of(view.heading.node) {
        put_groups(writer, Side::of(group, &half), &half, view, heard, room);
    }
}
