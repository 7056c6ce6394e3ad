//! Plain instances always have a start, as contracts. Nothing is answered here.

ghost use Rattle.std.specs.Prelude.{◌≤◌, List, ℕ};
ghost use Rattle.gap_base.specs.Markets.{MarketValue};
ghost use Rattle.gap_base.specs.declared.job.Job.{Job};
ghost use Rattle.gap_instance.specs.declared.order.By.{By};
ghost use Rattle.gap_instance.specs.Instances.{IsInstance, instance_of};
ghost use Rattle.gap_instance.specs.Orders.{IsOrder, GivesList, SomeOrderGives};
ghost use Rattle.gap_start.specs.Plain.{IsPlain, IsPlainJob};

use gap_base::Weight;
use gap_instance::{By, Instance};

/// The instance of a plain job is plain.
pub fn plain_job()
    ensures { (market : MarketValue) (job : Job) → IsPlainJob market.assets job → IsPlain (instance_of market job) }
{}

/// Each order of the assets of a plain instance gives a list, with a number of assets from K1 to K2 that its limits name;
/// so some order gives one. Costs O(N * N), and takes no memory.
pub fn plain_gives(inst: &Instance, w: Weight)
    ensures each { (plain : IsPlain inst.now) (by : By) (order : List ℕ) → IsOrder inst.now w.p w.q by order
        → GivesList inst.now w.p w.q by plain.count order }
    ensures some { IsPlain inst.now → SomeOrderGives inst.now w.p w.q }
{
    let _assets = inst.n();
    let _order = inst.order(w, By::Key);
}
