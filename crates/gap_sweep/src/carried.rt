//! What is carried from weight to weight.
ghost use Rattle.std.specs.Prelude.{◌≡◌, ◌++◌, [], Some, None, OnOk};
ghost use Rattle.std.specs.Option.{option_copied, ForSome};
ghost use Rattle.gap_instance.specs.Limits.{MeetsLimits};
ghost use Rattle.gap_sweep.specs.Asked.{lots_of};
ghost use Rattle.gap_sweep.specs.Texts.{row_of, own_row, own_number};

use gap_base::{Lots, OutOfMemory, Weight};
use gap_instance::Instance;
use gap_model::{Best, FrontRow};
use gap_objective::{ret, risk};
use std::alloc::Global;

/// The portfolio of the weight before, where it has one, and the rows of the frontier so far with the numbers of their
/// weights, from 1.
#[derive(Drop)]
pub(crate) struct Carried {
    pub(crate) warm: Option<Lots>,
    pub(crate) numbers: Vec<u8>,
    pub(crate) rows: Vec<FrontRow>,
}

/// The row of a portfolio.
fn row(inst: &Instance, weight: Weight, best: &Best) -> FrontRow
    requires { MeetsLimits inst.now best.now.lots }
    ensures { result ≡ row_of inst.now weight best.now }
{
    let _assets = inst.n();
    FrontRow {
        weight,
        risk: risk(inst, &best.lots),
        ret: ret(inst, &best.lots),
    }
}

impl Carried {
    /// Before the first weight. It takes no memory.
    pub(crate) fn new(alloc: Global) -> Carried
        ensures warm { result.warm ≡ None }
        ensures numbers { result.numbers.items ≡ [] }
        ensures rows { result.rows.items ≡ [] }
    {
        Carried {
            warm: None,
            numbers: Vec::new(alloc),
            rows: Vec::new(alloc),
        }
    }

    /// Notes a portfolio of the weight with this number.
    fn keep(
        &mut self,
        number: u8,
        inst: &Instance,
        weight: Weight,
        best: &Best,
    ) -> Result<(), OutOfMemory>
        requires { MeetsLimits inst.now best.now.lots }
        ensures warm { OnOk result (self.new.warm ≡ lots_of (Some best.now)) }
        ensures numbers { OnOk result
            (self.new.numbers.items ≡ self.old.numbers.items ++ own_number number (Some best.now)) }
        ensures rows { OnOk result (self.new.rows.items ≡ self.old.rows.items ++ own_row inst.now weight (Some best.now)) }
    {
        self.numbers.push(number)?;
        self.rows.push(row(inst, weight, best))?;
        self.warm = Some(best.lots.copy());
        Ok(())
    }

    /// Goes behind the weight with this number, by the portfolio that was found where one was.
    pub(crate) fn go_behind(
        &mut self,
        number: u8,
        inst: &Instance,
        weight: Weight,
        best: Option<&Best>,
    ) -> Result<(), OutOfMemory>
        requires { ForSome (option_copied best) (λ b. MeetsLimits inst.now b.lots) }
        ensures warm { OnOk result (self.new.warm ≡ lots_of (option_copied best.entry)) }
        ensures numbers { OnOk result
            (self.new.numbers.items ≡ self.old.numbers.items ++ own_number number (option_copied best.entry)) }
        ensures rows { OnOk result
            (self.new.rows.items ≡ self.old.rows.items ++ own_row inst.now weight (option_copied best.entry)) }
    {
        match best {
            Some(best) => self.keep(number, inst, weight, best),
            None => {
                self.warm = None;
                Ok(())
            }
        }
    }
}
