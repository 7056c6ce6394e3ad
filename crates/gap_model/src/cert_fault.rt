//! Why bytes are no valid certificate.

use gap_base::Row;
use gap_instance::Broken;

/// What is wrong at a place of a certificate.
#[derive(Clone, Copy, PartialEq, Eq, Debug)]
pub enum CertKind {
    /// One of the first eight bytes isn't that of a certificate.
    Magic,
    /// The bytes end inside the certificate.
    Short,
    /// A byte stands behind the end mark.
    Trail,
    /// A number, a flag, an outcome or the first byte of a node is out of its range.
    Range,
    /// The asset of an entry isn't above that of the entry before.
    Order,
    /// A row of the shift isn't dominant.
    Shift(Row),
    /// A split that isn't lawful at its part.
    Split,
    /// A leaf says that the count can't be met, and it can.
    Count,
    /// The least of the terms with alpha and tau isn't above 0, and the count can be met.
    Void { found: i128 },
    /// What the section shows is less than it claims.
    Weak { found: i128, claimed: i128 },
    /// The portfolio breaks this limit.
    Portfolio(Broken),
    /// The objective isn't that of the portfolio.
    Objective { found: i128, claimed: i128 },
    /// An open section whose bound isn't below its objective.
    NotOpen { objective: i128, bound: i128 },
    /// More splits than the budget, or an open section with fewer.
    Nodes { inner: u32, budget: u32 },
}

/// The first fault of a certificate.
#[derive(Clone, Copy, PartialEq, Eq, Debug)]
pub struct CertFault {
    /// The number of the first byte of what is at fault, from 0.
    pub place: u64,
    /// What is wrong there.
    pub kind: CertKind,
}
