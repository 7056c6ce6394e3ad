//! The head of a certificate, as far as it was read.

ghost use Rattle.std.specs.Prelude.{◌≡◌, ◌↔◌, ◌<◌, ℕ, length, slice_get, Some, OnOk, OnErr, IsTrue, List};
ghost use Rattle.gap_judge.specs.Progress.{fresh_head, with_asset, with_correlation, with_factor, with_diagonal};
ghost use Rattle.gap_base.specs.Sums.{at};
ghost use Rattle.gap_judge.specs.Lines.{asset_line};

use crate::line::Line;
use gap_base::OutOfMemory;
use std::alloc::Global;
use std::marker::Model;

/// The numbers of a head as they come: contracts see a `CertHead`. It keeps 4 bytes a pair of assets, 8 an entry of R and 16
/// one of D.
#[derive(Drop)]
pub struct Head {
    n: u16,
    lots: u16,
    held: u16,
    held_most: u16,
    turnover: Option<u32>,
    nodes: u32,
    assets: Vec<Line>,
    correlations: Vec<i32>,
    factor: Vec<i64>,
    diagonal: Vec<i128>,
}

impl Model for Head {
    ghost use Rattle.std.specs.Prelude.{map};
    ghost use Rattle.gap_cert.specs.Certificates.{CertHead};
    ghost use Rattle.gap_judge.specs.Lines.{asset_line};

    ghost Value = { CertHead };

    ghost view = { λ a. record {
      n = a.n;
      lots = a.lots;
      held = a.held;
      held_most = a.held_most;
      turnover = a.turnover;
      nodes = a.nodes;
      assets = map asset_line a.assets.items;
      correlations = a.correlations.items;
      factor = a.factor.items;
      diagonal = a.diagonal.items;
    } };
}

/// The numbers of a head before its lists.
#[derive(Clone, Copy)]
pub struct Numbers {
    pub n: u16,
    pub lots: u16,
    pub held: u16,
    pub held_most: u16,
    pub turnover: Option<u32>,
    pub nodes: u32,
}

impl Head {
    /// A head of which nothing was read. It takes no memory.
    pub fn new(alloc: Global) -> Head
        ensures { result ≡ fresh_head }
    {
        Head {
            n: 2,
            lots: 1,
            held: 1,
            held_most: 1,
            turnover: None,
            nodes: 0,
            assets: Vec::new(alloc),
            correlations: Vec::new(alloc),
            factor: Vec::new(alloc),
            diagonal: Vec::new(alloc),
        }
    }

    /// Sets the numbers before the lists.
    pub fn set_numbers(&mut self, with: Numbers)
        ensures { self.new ≡ record self.old {
          n = with.n;
          lots = with.lots;
          held = with.held;
          held_most = with.held_most;
          turnover = with.turnover;
          nodes = with.nodes;
        } }
    {
        self.n = with.n;
        self.lots = with.lots;
        self.held = with.held;
        self.held_most = with.held_most;
        self.turnover = with.turnover;
        self.nodes = with.nodes;
    }

    /// Takes the next asset.
    pub fn push_asset(&mut self, line: Line) -> Result<(), OutOfMemory>
        ensures ok { OnOk result (self.new ≡ with_asset self.old (asset_line line)) }
        ensures err { OnErr result (self.new ≡ self.old) }
    {
        self.assets.push(line)?;
        Ok(())
    }

    /// Takes the next correlation.
    pub fn push_correlation(&mut self, rho: i32) -> Result<(), OutOfMemory>
        ensures ok { OnOk result (self.new ≡ with_correlation self.old rho) }
        ensures err { OnErr result (self.new ≡ self.old) }
    {
        self.correlations.push(rho)?;
        Ok(())
    }

    /// Takes the next entry of R.
    pub fn push_factor(&mut self, r: i64) -> Result<(), OutOfMemory>
        ensures ok { OnOk result (self.new ≡ with_factor self.old r) }
        ensures err { OnErr result (self.new ≡ self.old) }
    {
        self.factor.push(r)?;
        Ok(())
    }

    /// Takes the next entry of D.
    pub fn push_diagonal(&mut self, d: i128) -> Result<(), OutOfMemory>
        ensures ok { OnOk result (self.new ≡ with_diagonal self.old d) }
        ensures err { OnErr result (self.new ≡ self.old) }
    {
        self.diagonal.push(d)?;
        Ok(())
    }

    /// The number of assets.
    pub fn n(&self) -> u16
        ensures { result ≡ self.now.n }
    {
        self.n
    }

    /// The budget of splits for each section.
    pub fn nodes(&self) -> u32
        ensures { result ≡ self.now.nodes }
    {
        self.nodes
    }

    /// The lots to place.
    pub fn lots(&self) -> u16
        ensures { result ≡ self.now.lots }
    {
        self.lots
    }

    /// The fewest assets to hold.
    pub fn held(&self) -> u16
        ensures { result ≡ self.now.held }
    {
        self.held
    }

    /// The most assets to hold.
    pub fn held_most(&self) -> u16
        ensures { result ≡ self.now.held_most }
    {
        self.held_most
    }

    /// The limit on turnover, where there is one.
    pub fn turnover(&self) -> Option<u32>
        ensures { result ≡ self.now.turnover }
    {
        self.turnover
    }

    /// What is said of asset `i`.
    pub fn line(&self, i: u16) -> Line
        requires { i < length self.now.assets }
        ensures { slice_get self.now.assets i ≡ Some (asset_line result) }
    {
        self.assets[usize::from(i)]
    }

    /// The correlation of the pair with this number.
    pub fn correlation(&self, k: usize) -> i32
        requires { k < length self.now.correlations }
        ensures { result ≡ at self.now.correlations k }
    {
        self.correlations[k]
    }

    /// The entry of R with this number.
    pub fn factor(&self, k: usize) -> i64
        requires { k < length self.now.factor }
        ensures { result ≡ at self.now.factor k }
    {
        self.factor[k]
    }

    /// Entry `i` of D.
    pub fn diagonal(&self, i: u16) -> i128
        requires { i < length self.now.diagonal }
        ensures { result ≡ at self.now.diagonal i }
    {
        self.diagonal[usize::from(i)]
    }

    /// Are as many entries of D there as assets?
    pub fn is_whole(&self) -> bool
        ensures { IsTrue result ↔ (length self.now.diagonal ≡ self.now.n) }
    {
        self.diagonal.len() == usize::from(self.n)
    }
}
