ghost use Rattle.std.specs.Prelude.{◌≡◌};
ghost use Rattle.trace.specs.Groups.{side_in};
ghost use Rattle.trace.specs.GroupTexts.{side_word};

use halving_plan::Group;

/// Which group of a plan it is.
#[derive(Clone, Copy, Debug, PartialEq, Eq)]
pub enum Side {
    /// All nodes.
    Whole,
    /// The left half of a group.
    Left,
    /// The right half of a group.
    Right,
}

impl Side {
    /// Which half of a group it is: the left one begins where the group does.
    pub fn of(group: &Group, half: &Group) -> Side
        ensures { result ≡ side_in group.now half.now }
    {
        if half.first() == group.first() {
            Side::Left
        } else {
            Side::Right
        }
    }

    /// Its word in a line.
    pub fn word(self) -> &'static str
        ensures { result.now ≡ side_word self }
    {
        match self {
            Side::Whole => " whole ",
            Side::Left => " left ",
            Side::Right => " right ",
        }
    }
}
