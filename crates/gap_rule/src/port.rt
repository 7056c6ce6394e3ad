//! The market of a port file.
ghost use Rattle.std.specs.Prelude.{◌≡◌};
ghost use Rattle.gap_rule.specs.Rules.{market_ruling};
ghost use Rattle.gap_rule.specs.Steps.{IsLooked, MayHalt, IsOfPort};

use crate::consumer::{Consumer, ReadStop};
use crate::reading::read_file;
use crate::stop::Halt;
use gap_base::Market;
use gap_files::Files;
use gap_orlib::{PortFault, PortStop, Reader};
use gap_words::Refusal;
use std::alloc::Global;

/// The reader of a port file as a consumer of its bytes.
#[derive(Drop)]
struct PortFile(Reader);

impl Consumer for PortFile {
    type Made = Market;

    type Fault = PortFault;

    ghost use Rattle.std.specs.Prelude.{◌≡◌};
    ghost use Rattle.gap_orlib.specs.Ports.{port};
    ghost use Rattle.gap_orlib.specs.States.{HasRead};

    ghost MOST = { 16777216 };

    const MOST: u64 = 16_777_216;

    ghost has_read = { λ file. HasRead file.0 };

    ghost said = { λ bytes r. port bytes ≡ r };

    fn feed(&mut self, piece: &[u8]) -> Result<(), ReadStop<PortFault>> {
        match self.0.feed(piece) {
            Ok(()) => Ok(()),
            Err(PortStop::Fault(fault)) => Err(ReadStop::Refused(fault)),
            Err(PortStop::OutOfMemory) => Err(ReadStop::OutOfMemory),
        }
    }

    fn finish(self) -> Result<Market, ReadStop<PortFault>> {
        match self.0.finish() {
            Ok(market) => Ok(market),
            Err(PortStop::Fault(fault)) => Err(ReadStop::Refused(fault)),
            Err(PortStop::OutOfMemory) => Err(ReadStop::OutOfMemory),
        }
    }
}

/// Reads the market of a port file, up to its first fault. One pass over its bytes, of which it reads at most 16777217.
pub(crate) fn read_market<F: Files>(
    alloc: Global,
    files: &mut F,
    name: &str,
) -> Result<Market, Halt>
    ensures looked { IsLooked name.now (λ bytes r. r ≡ market_ruling bytes) (F.files files.old) (F.files files.new) result }
    ensures halts { MayHalt IsOfPort result }
{
    match read_file(alloc, files, name, PortFile(Reader::new(alloc))) {
        Ok(market) => Ok(market),
        Err(ReadStop::Refused(fault)) => Err(Halt::Refused(Refusal::Port(fault))),
        Err(ReadStop::ReadFault) => Err(Halt::ReadFault),
        Err(ReadStop::OutOfMemory) => Err(Halt::OutOfMemory),
    }
}
