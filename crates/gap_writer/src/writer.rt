//! The writer.

ghost use Rattle.std.specs.Prelude.{◌≡◌, ◌<◌, ◌≤◌, ◌^◌, [], ◌∷◌, ◌++◌, length, drop, OnOk, OnErr};
ghost use Rattle.gap_box.specs.Narrow.{asset_of};
ghost use Rattle.gap_cert.specs.Certificates.{claim_of, head_fields, leaf_field, opening_fields};
ghost use Rattle.gap_cert.specs.Contexts.{IsFieldIn};
ghost use Rattle.gap_cert.specs.declared.field.Field.TheVariants as field;
ghost use Rattle.gap_valid.specs.HeadOf.{head_of};
ghost use Rattle.gap_solved.specs.Solveds.{cert_leaf_of};
ghost use Rattle.gap_writer.specs.Writing.{blank, put, put_all};

use crate::groups::{go_behind, put_field, put_opening};
use crate::heads::put_head;
use crate::leaves::field_of;
use gap_base::{OutOfMemory, Witness};
use gap_box::Split;
use gap_cert::{Field, Item};
use gap_instance::Instance;
use gap_model::{Leaf, SectionHead};
use gap_psd::Shift;
use std::alloc::Global;
use std::marker::Model;

/// Writes the items of a certificate in version 2 into a buffer. Each call appends the bytes of its items, and after want
/// of memory nothing was appended.
///
/// Contracts see a writer as the record `Written`: its bytes, and the witness of the last tangent leaf of the tree that is
/// being written, which a leaf with the same one repeats in one byte.
#[derive(Drop)]
pub struct Writer {
    bytes: Vec<u8>,
    item: Vec<u8>,
    last: Option<Witness>,
}

impl Model for Writer {
    ghost use Rattle.gap_writer.specs.Writing.{Written};

    ghost Value = { Written };

    ghost view = { λ w. record {
      bytes = w.bytes.items;
      last = w.last;
    } };
}

impl Writer {
    /// A writer that wrote nothing. It takes no memory.
    pub fn new(alloc: Global) -> Writer
        ensures { result ≡ blank }
    {
        Writer {
            bytes: Vec::new(alloc),
            item: Vec::new(alloc),
            last: None,
        }
    }

    /// The bytes that were written and not dropped.
    pub fn bytes(&self) -> &[u8]
        ensures { result.now ≡ self.now.bytes }
    {
        self.bytes.as_slice()
    }

    /// Drops the first `n` bytes.
    pub fn drop_front(&mut self, n: usize)
        requires { n ≤ length self.old.bytes }
        ensures { self.new ≡ record self.old { bytes = drop n self.old.bytes } }
    {
        drop_front(&mut self.bytes, n);
    }

    /// Appends an item. A split speaks of one of at most 256 assets, and a head's numbers are in their ranges.
    pub fn item(&mut self, item: &Item) -> Result<(), OutOfMemory>
        requires { IsFieldIn item.now.field }
        ensures ok { OnOk result (self.new ≡ put self.old item.now.field) }
        ensures err { OnErr result (self.new ≡ self.old) }
    {
        self.write(&item.field)
    }

    /// Appends an item. A split speaks of one of at most 256 assets, and a head's numbers are in their ranges.
    fn write(&mut self, field: &Field) -> Result<(), OutOfMemory>
        requires { IsFieldIn field.now }
        ensures ok { OnOk result (self.new ≡ put self.old field.now) }
        ensures err { OnErr result (self.new ≡ self.old) }
    {
        self.item.clear();
        put_field(&mut self.item, &self.last, field)?;
        self.bytes.extend_from_slice(&self.item)?;
        go_behind(&mut self.last, field);
        Ok(())
    }

    #[tactic(auto, using(crate::proofs::Headed::head_last))]
    /// Appends a whole head, which says an instance, a shift of its assets and a budget of splits, and the number of
    /// sections
    /// behind it. It takes memory for the head, beside what the buffer takes.
    pub fn head(
        &mut self,
        inst: &Instance,
        shift: &Shift,
        nodes: u32,
        sections: u8,
    ) -> Result<(), OutOfMemory>
        requires { shift.now.assets ≡ inst.now.market.assets }
        ensures ok { OnOk result
            (self.new ≡ put_all self.old
            (head_fields (head_of inst.now shift.now nodes) ++ field.Sections sections ∷ [])) }
        ensures err { OnErr result (self.new ≡ self.old) }
    {
        self.item.clear();
        put_head(&mut self.item, inst, shift, nodes, sections)?;
        self.bytes.extend_from_slice(&self.item)?;
        Ok(())
    }

    #[tactic(auto, using(crate::proofs::Spelled::opening_last))]
    /// Appends what a section says before its tree. Whether its numbers are in their ranges isn't looked at.
    pub fn section(&mut self, part: &SectionHead) -> Result<(), OutOfMemory>
        ensures ok { OnOk result
            (self.new ≡ put_all self.old (opening_fields part.now.weight (claim_of part.now.outcome part.now.overall))) }
        ensures err { OnErr result (self.new ≡ self.old) }
    {
        self.item.clear();
        put_opening(&mut self.item, part)?;
        self.bytes.extend_from_slice(&self.item)?;
        self.last = None;
        Ok(())
    }

    /// Appends a bound's leaf. Of its tangent point the eighths of the instance's assets are written.
    pub fn leaf(&mut self, inst: &Instance, leaf: &Leaf<'_>) -> Result<(), OutOfMemory>
        ensures ok { OnOk result (self.new ≡ put self.old (leaf_field (cert_leaf_of inst.now.market.assets leaf.now))) }
        ensures err { OnErr result (self.new ≡ self.old) }
    {
        let field = field_of(inst.n(), leaf);
        self.write(&field)
    }

    /// Appends a split. It speaks of one of at most 256 assets.
    pub fn split(&mut self, split: Split) -> Result<(), OutOfMemory>
        requires { asset_of split < 256 }
        ensures ok { OnOk result (self.new ≡ put self.old (field.Split split)) }
        ensures err { OnErr result (self.new ≡ self.old) }
    {
        self.write(&Field::Split(split))
    }

    /// Appends the end mark.
    pub fn end(&mut self) -> Result<(), OutOfMemory>
        ensures ok { OnOk result (self.new ≡ put self.old field.End) }
        ensures err { OnErr result (self.new ≡ self.old) }
    {
        self.write(&Field::End)
    }
}

/// Drops the first `n` bytes.
fn drop_front(bytes: &mut Vec<u8>, n: usize)
    requires { n ≤ length bytes.old.items }
    ensures { bytes.new.items ≡ drop n bytes.old.items }
{
    bytes.drain(..n);
}
