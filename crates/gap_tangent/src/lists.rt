//! The limits of an instance as lists.

ghost use Rattle.std.specs.Prelude.{◌≡◌, ◌<◌, ◌≤◌};

use gap_base::Lots;
use gap_instance::Instance;

/// The least lots of each asset.
pub(crate) fn least_list(inst: &Instance) -> Lots
    ensures { result ≡ inst.now.least }
{
    let mut list = Lots::zeros(inst.n());
    for i in 0..inst.n() {
        list.set(i, inst.lo(i));
    }
    list
}

/// The greatest lots of each asset.
pub(crate) fn greatest_list(inst: &Instance) -> Lots
    ensures { result ≡ inst.now.greatest }
{
    let mut list = Lots::zeros(inst.n());
    for i in 0..inst.n() {
        list.set(i, inst.hi(i));
    }
    list
}

/// The present lots of each asset.
pub(crate) fn present_list(inst: &Instance) -> Lots
    ensures { result ≡ inst.now.present }
{
    let mut list = Lots::zeros(inst.n());
    for i in 0..inst.n() {
        list.set(i, inst.present(i));
    }
    list
}
