//! The lines of the levels in which a node takes part.

ghost use Rattle.edge_io.specs.Writing.{Writes};
ghost use Rattle.plan_numbers.specs.Numbers.{levels_in};
ghost use Rattle.plan_numbers.specs.Stacked.{AreSomeLevels};
ghost use Rattle.trace.specs.LevelTexts.{level_lines};

use crate::level_groups::LevelGroup;
use crate::line_words::{mark_word, number_piece};
use crate::places::Place;
use crate::rooms::VoteRoom;
use edge_io::{Piece, Sink, Writer};
use sync_types::Reg;

impl Place<'_> {
    ghost use Rattle.sync_types.specs.States.{register_at};
    ghost use Rattle.construction.specs.Steps.{state_of};
    ghost use Rattle.plan_numbers.specs.Numbers.{level_of};
    ghost use Rattle.plan_numbers.specs.Sizes.{block_nodes};
    ghost use Rattle.trace.specs.LevelTexts.{level_front, heard_if, level_line};

    /// Writes the beginning of the level's line, up to the node's own register there.
    fn put_level_front<K: Sink>(&self, writer: &mut Writer<'_, K>, own: Reg)
        ensures { Writes K.told (level_front self.now.view.heading self.now.view.faulty.now.ids
            self.now.view.config.now self.now.below self.now.first self.now.nums.nodes own)
            writer.old writer.new }
    {
        let heading = &self.view.heading;
        let all = self
            .view
            .all_have(self.below, self.first, self.nums.nodes, own.a);
        writer.pieces(&[
            Piece::Text(b"at "),
            Piece::Number(heading.at),
            Piece::Text(b" node "),
            Piece::Number(u64::from(heading.node)),
            Piece::Text(heading.faulty_word().as_bytes()),
            Piece::Text(b" level "),
            Piece::Number(self.below as u64 + 1),
            Piece::Text(b" value "),
            number_piece(own.a),
            Piece::Text(mark_word(own.d, all).as_bytes()),
        ]);
    }

    /// Writes what the node hears of the group, if nodes hear one another.
    fn put_heard_if<K: Sink>(
        &self,
        writer: &mut Writer<'_, K>,
        own: Option<u64>,
        room: &mut VoteRoom,
    )
        ensures { Writes K.told (heard_if self.now.view.hears self.now.below
            (block_nodes self.now.nums) (level_of self.now.nums) self.now.first own self.now.group)
            writer.old writer.new }
    {
        if self.view.hears {
            self.put_heard(writer, own, room);
        }
    }

    /// Writes the line of the level, by what the node hears of the group.
    fn put_level_line<K: Sink>(&self, writer: &mut Writer<'_, K>, room: &mut VoteRoom)
        ensures { Writes K.told (level_line self.now.view.heading
            self.now.view.faulty.now.ids self.now.view.config.now self.now.view.hears
            self.now.below (block_nodes self.now.nums) (level_of self.now.nums) self.now.first
            self.now.group) writer.old writer.new }
    {
        let node = self.view.heading.node as usize;
        let own = self.view.config[node].reg(self.below);
        self.put_level_front(writer, own);
        self.put_heard_if(writer, own.a, room);
        writer.byte(b'\n');
    }
}

/// Writes the lines of the levels of a group in which its node takes part, by what it hears of the
/// group. The lowest level stands first.
pub fn put_levels<K: Sink>(writer: &mut Writer<'_, K>, group: &LevelGroup<'_>, room: &mut VoteRoom)
    requires { AreSomeLevels group.now.levels.now }
    ensures { Writes K.told (level_lines group.now.view.now.heading
        group.now.view.now.faulty.now.ids group.now.view.now.config.now
        group.now.view.now.hears (levels_in group.now.levels.now) group.now.place
        group.now.heard.now) writer.old writer.new }
{
    let Some((nums, below)) = group.levels.split_last() else {
        return;
    };
    let place = group.place;
    let n = nums.block_nodes();
    if place < nums.blocks * n {
        let heard = group.heard.block(place / n, n);
        let block = LevelGroup {
            view: group.view,
            levels: below,
            place: place % n,
            heard: &heard,
        };
        put_levels(writer, &block, room);
    }
    let at = Place {
        view: group.view,
        nums,
        below: below.len(),
        first: group.view.heading.node - place,
        group: group.heard,
    };
    at.put_level_line(writer, room);
}
