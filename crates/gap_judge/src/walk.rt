//! A tree that is read in order.

ghost use Rattle.std.specs.Prelude.{◌≡◌, ◌<◌, List, [], ◌∷◌, length, drop, slice_get, OnOk, OnErr};
ghost use Rattle.std.specs.Option.{option_copied};
ghost use Rattle.gap_judge.specs.Walks.{splits_first, IsLawfulNext};

use crate::level::{Level, asset_of, climb};
use gap_base::OutOfMemory;
use gap_box::{Part, Side, Split};
use std::alloc::Global;
use std::marker::Model;

/// The place in a tree whose nodes are read in order, each before those of its first side and these before those of its
/// second. It keeps one part, and for each split above the next node the cell that it replaced.
///
/// Contracts see a walk as the list of the parts that are to come, the next node's first: a leaf takes one away, and a
/// split puts its two sides' in the place of one.
#[derive(Drop)]
pub struct Walk {
    part: Part,
    levels: Vec<Level>,
    whole: bool,
}

impl Model for Walk {
    ghost use Rattle.std.specs.Prelude.{List, length, reverse};
    ghost use Rattle.gap_box.specs.declared.cell.Cell.{Cell};
    ghost use Rattle.gap_judge.specs.Walks.{parts_to_come, AreLevels};

    ghost Value = { List (List Cell) };

    ghost view = { λ w. parts_to_come w.whole w.part (reverse w.levels.items) };

    ghost invariant = { λ w. AreLevels (length w.part) (reverse w.levels.items) };
}

impl Walk {
    /// A walk before the root of a tree, which stands at this part. It takes no memory.
    pub fn new(alloc: Global, root: Part) -> Walk
        ensures { result ≡ root ∷ [] }
    {
        Walk {
            part: root,
            levels: Vec::new(alloc),
            whole: false,
        }
    }

    /// The part of the next node; None exactly where the tree is whole.
    pub fn part(&self) -> Option<&Part>
        ensures { option_copied result ≡ slice_get self.now 0 }
    {
        if self.whole { None } else { Some(&self.part) }
    }

    /// Goes past a leaf. It takes no memory, and a step for each split whose second side the leaf ends.
    pub fn leaf(&mut self)
        requires { 0 < length self.old }
        ensures { self.new ≡ drop 1 self.old }
    {
        self.whole = !climb(&mut self.part, &mut self.levels);
    }

    /// Goes to the first side of a split. After want of memory the walk is as it was. It costs O(1).
    pub fn split(&mut self, split: Split) -> Result<(), OutOfMemory>
        requires { IsLawfulNext self.old split }
        ensures ok { OnOk result (self.new ≡ splits_first self.old split) }
        ensures err { OnErr result (self.new ≡ self.old) }
    {
        let replaced = self.part.cell(asset_of(split));
        self.levels.push(Level {
            split,
            replaced,
            in_first: true,
        })?;
        self.part.narrow(split, Side::First);
        Ok(())
    }
}
