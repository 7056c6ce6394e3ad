//! The laws of differences, as contracts over their definitions alone. Nothing is computed here.

ghost use Rattle.std.specs.Prelude.{◌≡◌, ◌↔◌, List, All, length, Option, None};
ghost use Rattle.gap_base.specs.declared.job.Job.{Job};
ghost use Rattle.gap_base.specs.Markets.{MarketValue};
ghost use Rattle.gap_instance.specs.Instances.{InstanceValue, IsInstance, instance_of};
ghost use Rattle.gap_valid.specs.Said.{said_instance, IsSaid};
ghost use Rattle.gap_verify.specs.declared.difference.Difference.{Difference};
ghost use Rattle.gap_verify.specs.declared.field.Field.{Field};
ghost use Rattle.gap_verify.specs.Sides.{Side, fields_of};
ghost use Rattle.gap_verify.specs.Differences.{AgreeOn, IsToldOf, difference_of, first_in};

/// What is told of a list of fields is right: a difference is the first field that differs, with what both sides say of
/// it, and none is told exactly where the sides agree on every field. Nothing else could be told.
pub fn differences_are_the_first()
    ensures told { (a b : Side) (fields : List Field) → IsToldOf a b fields (first_in a b fields) }
    ensures one { (a b : Side) (fields : List Field) (d : Option Difference) → IsToldOf a b fields d
        → d ≡ first_in a b fields }
    ensures none { (a b : Side)
        → (difference_of a b ≡ None) ↔ All (AgreeOn a b) (fields_of b.instance.market.assets (length b.weights)) }
{}

/// Two sides without a difference are the same: where the one says an instance as a head does, it is the other's instance
/// as a head says it, with the same budget and the same weights.
pub fn equal_sides_are_the_same()
    ensures instance { (a b : Side) → IsInstance a.instance → IsInstance b.instance → IsSaid a.instance
        → difference_of a b ≡ None → a.instance ≡ said_instance b.instance }
    ensures nodes { (a b : Side) → difference_of a b ≡ None → a.nodes ≡ b.nodes }
    ensures weights { (a b : Side) → difference_of a b ≡ None → a.weights ≡ b.weights }
    ensures same { (a b : Side) → a.instance ≡ said_instance b.instance → a.nodes ≡ b.nodes → a.weights ≡ b.weights
        → difference_of a b ≡ None }
{}
