//! What is kept before the first item.

ghost use Rattle.std.specs.Prelude.{◌≡◌};
ghost use Rattle.gap_judge.specs.Progress.{fresh_head, fresh_progress};
ghost use Rattle.gap_judge.specs.Courses.{progress_at};

use crate::course::Course;
use gap_base::Weight;
use gap_model::Shown;
use std::alloc::Global;

#[tactic(auto, unfolding(crate::specs::Progress::fresh_progress))]
/// Before the first section. It takes no memory.
pub fn fresh_course(alloc: Global) -> Course
    ensures { progress_at fresh_head result ≡ fresh_progress }
{
    Course {
        told: Vec::new(alloc),
        weight: Weight { p: 0, q: 1 },
        outcome: 2,
        lots: None,
        best: None,
        bound: 0,
        overall: Shown::Nothing,
        walk: None,
        splits: 0,
        least: Shown::Empty,
        ended: false,
    }
}
