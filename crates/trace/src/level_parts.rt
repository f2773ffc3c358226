//! What a node hears of its group at a level, as words.

use crate::line_words::{number_piece, turn_word};
use crate::places::Place;
use crate::rooms::VoteRoom;
use boost_step::{beat, lead, vote};
use edge_io::{Piece, Sink, Writer};
use majority_votes::Tally;
use tower::set_outputs;

impl Place<'_> {
    ghost use Rattle.std.specs.Prelude.{◌≡◌, ◌≤◌, take, map, length};
    ghost use Rattle.std.specs.List.{flat_map, range_with_len};
    ghost use Rattle.sync_types.specs.States.{register_at};
    ghost use Rattle.edge_io.specs.Writing.{Writes};
    ghost use Rattle.plan_numbers.specs.Numbers.{level_of};
    ghost use Rattle.plan_numbers.specs.Sizes.{block_nodes};
    ghost use Rattle.boost_step.specs.Kept.{KeepsOutputs};
    ghost use Rattle.boost_step.specs.Numbers.{in_blocks};
    ghost use Rattle.trace.specs.LevelTexts.{votes_part, turn_part, counts_part};
    ghost use Rattle.trace.specs.LevelTexts.{heard_part, vote_word};

    /// Writes the vote of each block.
    fn put_each_vote<K: Sink>(&self, writer: &mut Writer<'_, K>, room: &mut VoteRoom)
        ensures words { Writes K.told (flat_map (vote_word (block_nodes self.now.nums)
            (level_of self.now.nums) (take (in_blocks self.now.nums) room.old.work.outputs.items))
            (range_with_len 0 self.now.nums.blocks)) writer.old writer.new }
        ensures work { KeepsOutputs room.old.work room.new.work }
    {
        let nums = self.nums;
        for i in 0..nums.blocks {
            writer.labelled(b" ", vote(nums, i, &mut room.work));
        }
    }

    /// Writes the votes of the blocks.
    fn put_votes<K: Sink>(&self, writer: &mut Writer<'_, K>, room: &mut VoteRoom)
        ensures part { Writes K.told (votes_part (block_nodes self.now.nums)
            (level_of self.now.nums)
            (take (in_blocks self.now.nums) room.old.work.outputs.items)) writer.old writer.new }
        ensures work { KeepsOutputs room.old.work room.new.work }
    {
        writer.text(b" votes");
        self.put_each_vote(writer, room);
    }

    /// Writes the lead, the position that is heard of the beat, and whose phase that is.
    fn put_turn<K: Sink>(&self, writer: &mut Writer<'_, K>, room: &mut VoteRoom)
        ensures part { Writes K.told (turn_part (block_nodes self.now.nums) (level_of self.now.nums)
            self.now.first (take (in_blocks self.now.nums) room.old.work.outputs.items))
            writer.old writer.new }
        ensures work { KeepsOutputs room.old.work room.new.work }
    {
        let leader = lead(self.nums, &mut room.work);
        let position = beat(self.nums, &mut room.work);
        writer.pieces(&[
            Piece::Text(b" lead "),
            Piece::Number(u64::from(leader)),
            Piece::Text(b" position "),
            Piece::Number(position),
            Piece::Text(turn_word(position % 3).as_bytes()),
            Piece::Text(b" king "),
            Piece::Number(u64::from(self.first) + position / 3),
        ]);
    }

    /// Takes the values heard of the level's register, by place.
    fn tally(&self, values: &mut Tally)
        requires { length self.now.group ≤ values.old.capacity }
        ensures { values.new ≡ record values.old {
          values = map (λ s. (register_at self.now.below s).a) self.now.group;
        } }
    {
        values.clear();
        for place in 0..self.group.len() {
            values.add(self.group.state(place as u32).reg(self.below).a);
        }
    }

    /// Writes at how many places the node's own value is heard, and the least value that more
    /// places have than may be faulty.
    fn put_counts<K: Sink>(&self, writer: &mut Writer<'_, K>, own: Option<u64>, room: &mut VoteRoom)
        ensures { Writes K.told (counts_part self.now.nums.faults own
            (map (λ s. (register_at self.now.below s).a) self.now.group)) writer.old writer.new }
    {
        let faults = self.nums.faults as usize;
        self.tally(&mut room.work.values);
        let same = room.work.values.count_of(own);
        let least = room.work.values.least_above(faults);
        writer.pieces(&[
            Piece::Text(b" same "),
            Piece::Number(same as u64),
            Piece::Text(b" least "),
            number_piece(least),
        ]);
    }

    /// Writes what the node, which has this value, hears of the group.
    pub fn put_heard<K: Sink>(
        &self,
        writer: &mut Writer<'_, K>,
        own: Option<u64>,
        room: &mut VoteRoom,
    )
        ensures { Writes K.told (heard_part self.now.below (block_nodes self.now.nums)
            (level_of self.now.nums) self.now.first own self.now.group) writer.old writer.new }
    {
        let nums = self.nums;
        set_outputs(
            self.below,
            nums.blocks * nums.block_nodes(),
            self.group,
            &mut room.work,
        );
        self.put_votes(writer, room);
        self.put_turn(writer, room);
        self.put_counts(writer, own, room);
    }
}
