//! The groups of a certificate, each read by its format.

ghost use Rattle.std.specs.Prelude.{◌≡◌, ℕ, ◌+◌, ◌*◌, ◌-◌, ◌<◌, ◌≤◌, length, IfOk, Option, List, suc, pos};
ghost use Rattle.gap_model.specs.declared.cert_fault.CertKind.TheVariants.{Magic, Range, Order};
ghost use Rattle.gap_cert.specs.declared.field.Field.TheVariants.{End};
ghost use Rattle.gap_cert.specs.Formats.{Takes, read, natural, says, natural_at, fault_back};
ghost use Rattle.gap_cert.specs.Contexts.{tau_most, head_end, head_limits, head_numbers, head_format, asset_format, start_format, lots_format, portfolio_format, witness_end, witness_tail, witness_of, eighths_format, IsContext, IsFieldIn, overall_format, void_format, tangent_format, again_format, held_format, lots_split_format, node_behind, node_format, format_of};
ghost use Rattle.gap_scan.specs.Steps.{version_at, entry_at};

use crate::cursor::Cursor;
use gap_base::{Eighths, Lots, Witness};
use gap_box::Split;
use gap_cert::{Context, Field, Group, Phase, Stop, Version, is_repeated};
use gap_model::{CertFault, CertKind};

/// A fault so many bytes back.
pub fn back(cursor: &Cursor<'_>, bytes: u64, kind: CertKind) -> Stop
    ensures { result ≡ fault_back bytes kind cursor.now }
{
    Stop::Fault(CertFault {
        place: cursor.place().saturating_sub(bytes),
        kind,
    })
}

/// A byte that every certificate has at its place.
fn letter(cursor: &mut Cursor<'_>, letter: u8) -> Result<u64, Stop>
    ensures { Takes (natural_at 1 Magic letter letter cursor.old) cursor.new result }
{
    let letter = u64::from(letter);
    cursor.natural(1, CertKind::Magic, letter, letter)
}

/// The first bytes of a certificate, each judged by itself.
#[tactic(auto, unfolding(crate::specs::Steps::version_at))]
fn version(cursor: &mut Cursor<'_>) -> Result<u64, Stop>
    ensures { Takes (version_at cursor.old) cursor.new result }
{
    letter(cursor, b'G')?;
    letter(cursor, b'A')?;
    letter(cursor, b'P')?;
    letter(cursor, b'C')?;
    letter(cursor, b'E')?;
    letter(cursor, b'R')?;
    letter(cursor, b'T')?;
    cursor.natural(1, CertKind::Magic, 49, 50)
}

/// The end of a head.
#[tactic(auto, unfolding(gap_cert::specs::Contexts::head_end))]
fn head_end(
    cursor: &mut Cursor<'_>,
    version: Version,
    n: u16,
    lots: u16,
    held: u16,
    held_most: u16,
    turnover: Option<u32>,
) -> Result<Group, Stop>
    requires { (2 ≤ n) × (n ≤ 256) × (lots ≤ 10000) × (held ≤ 256) × (held_most ≤ 256) }
    ensures read { Takes (read (head_end version n lots held held_most turnover) cursor.old) cursor.new result }
    ensures inside { IfOk result (λ g. IsFieldIn g.field) }
{
    let nodes = cursor.natural(4, CertKind::Range, 0, 100_000)? as u32;
    Ok(Group {
        version,
        field: Field::Head {
            n,
            lots,
            held,
            held_most,
            turnover,
            nodes,
        },
    })
}

/// The numbers of a head behind those of the assets to hold.
#[tactic(auto, unfolding(gap_cert::specs::Contexts::head_limits))]
fn head_limits(
    cursor: &mut Cursor<'_>,
    version: Version,
    n: u16,
    lots: u16,
    held: u16,
    held_most: u16,
) -> Result<Group, Stop>
    requires { (2 ≤ n) × (n ≤ 256) × (lots ≤ 10000) × (held ≤ 256) × (held_most ≤ 256) }
    ensures read { Takes (read (head_limits version n lots held held_most) cursor.old) cursor.new result }
    ensures inside { IfOk result (λ g. IsFieldIn g.field) }
{
    let flag = cursor.natural(1, CertKind::Range, 0, 1)?;
    if flag == 0 {
        head_end(cursor, version, n, lots, held, held_most, None)
    } else {
        let turnover = cursor.natural(4, CertKind::Range, 0, 3_000_000)? as u32;
        head_end(cursor, version, n, lots, held, held_most, Some(turnover))
    }
}

/// The numbers of a head behind its first bytes.
#[tactic(auto, unfolding(gap_cert::specs::Contexts::head_numbers))]
fn head_numbers(cursor: &mut Cursor<'_>, version: Version) -> Result<Group, Stop>
    ensures read { Takes (read (head_numbers version) cursor.old) cursor.new result }
    ensures inside { IfOk result (λ g. IsFieldIn g.field) }
{
    let n = cursor.natural(2, CertKind::Range, 2, 256)? as u16;
    let lots = cursor.natural(2, CertKind::Range, 1, 10000)? as u16;
    let held = cursor.natural(2, CertKind::Range, 1, u64::from(n))? as u16;
    match version {
        Version::One => head_limits(cursor, version, n, lots, held, held),
        Version::Two => {
            let most = cursor.natural(2, CertKind::Range, u64::from(held), u64::from(n))? as u16;
            head_limits(cursor, version, n, lots, held, most)
        }
    }
}

/// The head up to the assets.
#[tactic(auto, unfolding(gap_cert::specs::Contexts::head_format, crate::specs::Steps::version_at))]
fn head(cursor: &mut Cursor<'_>) -> Result<Group, Stop>
    ensures read { Takes (read head_format cursor.old) cursor.new result }
    ensures inside { IfOk result (λ g. IsFieldIn g.field) }
{
    if version(cursor)? == 50 {
        head_numbers(cursor, Version::Two)
    } else {
        head_numbers(cursor, Version::One)
    }
}

/// What is said of an asset.
#[tactic(auto, unfolding(gap_cert::specs::Contexts::asset_format))]
fn asset(cursor: &mut Cursor<'_>, version: Version, lots: u16) -> Result<Group, Stop>
    ensures read { Takes (read (asset_format version lots) cursor.old) cursor.new result }
    ensures inside { IfOk result (λ g. IsFieldIn g.field) }
{
    let mean = cursor.signed(4, -1_000_000, 1_000_000)?;
    let dev = cursor.natural(4, CertKind::Range, 0, 1_000_000)?;
    let least = cursor.natural(2, CertKind::Range, 1, u64::from(lots))?;
    let greatest = cursor.natural(2, CertKind::Range, 1, u64::from(lots))?;
    let present = cursor.natural(2, CertKind::Range, 0, 10000)?;
    Ok(Group {
        version,
        field: Field::Asset {
            mean: mean as i32,
            dev: dev as u32,
            least: least as u16,
            greatest: greatest as u16,
            present: present as u16,
        },
    })
}

/// The weight and the outcome of a section.
#[tactic(auto, unfolding(gap_cert::specs::Contexts::start_format))]
fn section_start(cursor: &mut Cursor<'_>, version: Version) -> Result<Group, Stop>
    ensures read { Takes (read (start_format version) cursor.old) cursor.new result }
    ensures inside { IfOk result (λ g. IsFieldIn g.field) }
{
    let p = cursor.natural(1, CertKind::Range, 0, 100)?;
    let q = cursor.natural(1, CertKind::Range, p.max(1), 100)?;
    let outcome = cursor.natural(1, CertKind::Range, 1, 4)?;
    Ok(Group {
        version,
        field: Field::SectionStart {
            p: p as u8,
            q: q as u8,
            outcome: outcome as u8,
        },
    })
}

/// A leaf of the terms with alpha and tau alone, behind its first byte.
#[tactic(auto, unfolding(gap_cert::specs::Contexts::void_format))]
fn void_leaf(cursor: &mut Cursor<'_>, context: &Context) -> Result<Group, Stop>
    ensures read { Takes (read (void_format context.now) cursor.old) cursor.new result }
    ensures inside { IfOk result (λ g. IsFieldIn g.field) }
{
    let alpha = cursor.signed(16, -MULTIPLIER_MOST, MULTIPLIER_MOST)?;
    let tau = cursor.signed(16, 0, tau_most(context.turnover))?;
    Ok(Group {
        version: context.version,
        field: Field::VoidLeaf { alpha, tau },
    })
}

/// A split by whether an asset is held, behind its first byte.
#[tactic(auto, unfolding(gap_cert::specs::Contexts::held_format))]
fn held_split(cursor: &mut Cursor<'_>, context: &Context) -> Result<Group, Stop>
    requires { IsContext context.now }
    ensures read { Takes (read (held_format context.now) cursor.old) cursor.new result }
    ensures inside { IfOk result (λ g. IsFieldIn g.field) }
{
    let asset = cursor.natural(2, CertKind::Range, 1, u64::from(context.n))? as u16;
    Ok(Group {
        version: context.version,
        field: Field::Split(Split::Held(asset - 1)),
    })
}

/// A split of the lots of an asset, behind its first byte.
#[tactic(auto, unfolding(gap_cert::specs::Contexts::lots_split_format))]
fn lots_split(cursor: &mut Cursor<'_>, context: &Context) -> Result<Group, Stop>
    requires { IsContext context.now }
    ensures read { Takes (read (lots_split_format context.now) cursor.old) cursor.new result }
    ensures inside { IfOk result (λ g. IsFieldIn g.field) }
{
    let asset = cursor.natural(2, CertKind::Range, 1, u64::from(context.n))? as u16;
    let t = cursor.natural(2, CertKind::Range, 0, 65535)? as u16;
    Ok(Group {
        version: context.version,
        field: Field::Split(Split::Lots(asset - 1, t)),
    })
}

/// The greatest size of alpha and the greatest tau.
const MULTIPLIER_MOST: i128 = 1_000_000_000_000_000_000_000_000_000_000;

/// The greatest tau: 0 where no limit on turnover is set.
fn tau_most(turnover: Option<u32>) -> i128
    ensures value { result ≡ pos (tau_most turnover) }
{
    match turnover {
        None => 0,
        Some(_) => MULTIPLIER_MOST,
    }
}

/// An entry of a list: its asset, from 1 on, and its number.
#[derive(Clone, Copy)]
struct Entry {
    asset: u16,
    number: u32,
}

/// The next entry of a list: an asset in `1..=n` above `last`, and a number in `1..=greatest` that with `total` is at
/// most `most`.
#[tactic(auto, unfolding(crate::specs::Steps::entry_at))]
fn next_entry(
    cursor: &mut Cursor<'_>,
    n: u16,
    width: usize,
    greatest: u32,
    most: u32,
    last: u16,
    total: u32,
) -> Result<Entry, Stop>
    requires { width ≤ 8 }
    ensures read { Takes (entry_at n width greatest most last total cursor.old) cursor.new result }
    ensures range { IfOk result
        (λ e. (1 ≤ e.asset) × (e.asset ≤ n) × (1 ≤ e.number) × (e.number ≤ greatest) × (total + e.number ≤ most)) }
{
    let asset = cursor.natural(2, CertKind::Range, 1, u64::from(n))? as u16;
    if last >= asset {
        return Err(back(cursor, 2, CertKind::Order));
    }
    let number = cursor.natural(width, CertKind::Range, 1, u64::from(greatest))? as u32;
    if u64::from(total) + u64::from(number) > u64::from(most) {
        return Err(back(cursor, 2 + width as u64, CertKind::Range));
    }
    Ok(Entry { asset, number })
}

/// A portfolio of `count` entries.
fn lots_entries(
    cursor: &mut Cursor<'_>,
    version: Version,
    n: u16,
    count: u16,
) -> Result<Group, Stop>
    requires few { 2 ≤ n }
    requires many { n ≤ 256 }
    requires counted { count ≤ 256 }
    ensures read { Takes (read (lots_format version n count) cursor.old) cursor.new result }
    ensures inside { IfOk result (λ g. IsFieldIn g.field) }
{
    let most = 10000 * u32::from(count);
    let mut x = Lots::zeros(n);
    let mut last = 0;
    let mut total = 0;
    for _entry in 0..count {
        let entry = next_entry(cursor, n, 2, 10000, most, last, total)?;
        x.set(entry.asset - 1, entry.number as u16);
        last = entry.asset;
        total += entry.number;
    }
    Ok(Group {
        version,
        field: Field::Portfolio(x),
    })
}

/// A portfolio.
#[tactic(auto, unfolding(gap_cert::specs::Contexts::portfolio_format))]
fn portfolio(cursor: &mut Cursor<'_>, context: &Context) -> Result<Group, Stop>
    requires { IsContext context.now }
    ensures read { Takes (read
        (portfolio_format context.now.version context.now.n context.now.held context.now.held_most) cursor.old)
        cursor.new result }
    ensures inside { IfOk result (λ g. IsFieldIn g.field) }
{
    match context.version {
        Version::One => lots_entries(cursor, context.version, context.n, context.held),
        Version::Two => {
            let low = u64::from(context.held);
            let high = u64::from(context.held_most);
            let count = cursor.natural(2, CertKind::Range, low, high)? as u16;
            lots_entries(cursor, context.version, context.n, count)
        }
    }
}

/// What a witness says that was read.
#[tactic(auto, unfolding(gap_cert::specs::Contexts::witness_end))]
fn witness_end(
    cursor: &Cursor<'_>,
    context: &Context,
    leaf: bool,
    count: u16,
    w: Witness,
) -> Result<Group, Stop>
    ensures read { Takes (read (witness_end context.now leaf count w) cursor.now) cursor.now result }
    ensures inside { IfOk result (λ g. IsFieldIn g.field) }
{
    let version = context.version;
    if !leaf {
        let field = Field::Overall(Some(w));
        return Ok(Group { version, field });
    }
    if is_repeated(context.version, &context.last, &w) {
        return Err(back(cursor, 35 + 6 * u64::from(count), CertKind::Range));
    }
    let field = Field::TangentLeaf(w);
    Ok(Group { version, field })
}

/// The multipliers of a witness behind its entries.
fn multipliers(
    cursor: &mut Cursor<'_>,
    context: &Context,
    leaf: bool,
    count: u16,
    y: Eighths,
) -> Result<Group, Stop>
    ensures read { Takes (read (witness_tail context.now.turnover (witness_end context.now leaf) count y) cursor.old)
        cursor.new result }
    ensures inside { IfOk result (λ g. IsFieldIn g.field) }
{
    let alpha = cursor.signed(16, -MULTIPLIER_MOST, MULTIPLIER_MOST)?;
    let tau = cursor.signed(16, 0, tau_most(context.turnover))?;
    witness_end(cursor, context, leaf, count, Witness { y, alpha, tau })
}

/// The entries of a witness and what follows them.
fn eighths_entries(
    cursor: &mut Cursor<'_>,
    context: &Context,
    leaf: bool,
    count: u16,
) -> Result<Group, Stop>
    requires { IsContext context.now }
    ensures read { Takes (read
        (eighths_format context.now.n context.now.lots context.now.turnover (witness_end context.now leaf) count)
        cursor.old) cursor.new result }
    ensures inside { IfOk result (λ g. IsFieldIn g.field) }
{
    let most = 8 * u32::from(context.lots);
    let mut y = Eighths::zeros(context.n);
    let mut last = 0;
    let mut total = 0;
    for _entry in 0..count {
        let entry = next_entry(cursor, context.n, 4, u32::MAX, most, last, total)?;
        y.set(entry.asset - 1, entry.number);
        last = entry.asset;
        total += entry.number;
    }
    multipliers(cursor, context, leaf, count, y)
}

/// A witness, as a tangent leaf or for the whole root.
#[tactic(auto, unfolding(gap_cert::specs::Contexts::witness_format))]
fn witness(cursor: &mut Cursor<'_>, context: &Context, leaf: bool) -> Result<Group, Stop>
    requires { IsContext context.now }
    ensures read { Takes (read (witness_of context.now leaf) cursor.old) cursor.new result }
    ensures inside { IfOk result (λ g. IsFieldIn g.field) }
{
    let count = cursor.natural(2, CertKind::Range, 0, u64::from(context.n))? as u16;
    eighths_entries(cursor, context, leaf, count)
}

/// The witness for the whole root, where one is given.
#[tactic(auto, unfolding(gap_cert::specs::Contexts::overall_format))]
fn overall(cursor: &mut Cursor<'_>, context: &Context) -> Result<Group, Stop>
    requires { IsContext context.now }
    ensures read { Takes (read (overall_format context.now) cursor.old) cursor.new result }
    ensures inside { IfOk result (λ g. IsFieldIn g.field) }
{
    let flag = cursor.natural(1, CertKind::Range, 0, 1)?;
    if flag == 0 {
        let version = context.version;
        let field = Field::Overall(None);
        Ok(Group { version, field })
    } else {
        witness(cursor, context, false)
    }
}

/// A tangent leaf, behind its first byte.
#[tactic(auto, unfolding(gap_cert::specs::Contexts::tangent_format))]
fn tangent_leaf(cursor: &mut Cursor<'_>, context: &Context) -> Result<Group, Stop>
    requires { IsContext context.now }
    ensures read { Takes (read (tangent_format context.now) cursor.old) cursor.new result }
    ensures inside { IfOk result (λ g. IsFieldIn g.field) }
{
    if context.outcome == 2 {
        return Err(back(cursor, 1, CertKind::Range));
    }
    witness(cursor, context, true)
}

/// The last tangent leaf again.
fn again(cursor: &Cursor<'_>, context: &Context) -> Result<Group, Stop>
    ensures read { Takes (read (again_format context.now.version context.now.last) cursor.now) cursor.now result }
    ensures inside { IfOk result (λ g. IsFieldIn g.field) }
{
    let version = context.version;
    match &context.last {
        None => Err(back(cursor, 1, CertKind::Range)),
        Some(w) => {
            let field = Field::TangentLeaf(w.copy());
            Ok(Group { version, field })
        }
    }
}

/// What follows the first byte of a node.
#[tactic(auto, unfolding(gap_cert::specs::Contexts::node_behind))]
fn node_behind(cursor: &mut Cursor<'_>, context: &Context, first: u64) -> Result<Group, Stop>
    requires { IsContext context.now }
    ensures read { Takes (read (node_behind context.now first) cursor.old) cursor.new result }
    ensures inside { IfOk result (λ g. IsFieldIn g.field) }
{
    if first == 1 {
        let version = context.version;
        let field = Field::CountLeaf;
        Ok(Group { version, field })
    } else if first == 2 {
        void_leaf(cursor, context)
    } else if first == 3 {
        tangent_leaf(cursor, context)
    } else if first == 4 {
        held_split(cursor, context)
    } else if first == 5 {
        lots_split(cursor, context)
    } else if context.outcome == 2 {
        Err(back(cursor, 1, CertKind::Range))
    } else {
        again(cursor, context)
    }
}

/// A leaf or a split.
#[tactic(auto, unfolding(gap_cert::specs::Contexts::node_format))]
fn node(cursor: &mut Cursor<'_>, context: &Context) -> Result<Group, Stop>
    requires { IsContext context.now }
    ensures read { Takes (read (node_format context.now) cursor.old) cursor.new result }
    ensures inside { IfOk result (λ g. IsFieldIn g.field) }
{
    let most = match context.version {
        Version::One => 5,
        Version::Two => 6,
    };
    let first = cursor.natural(1, CertKind::Range, 1, most)?;
    node_behind(cursor, context, first)
}

/// The end mark, or a byte behind it.
fn end(
    cursor: &mut Cursor<'_>,
    version: Version,
    wrong: CertKind,
    width: usize,
    low: u64,
    high: u64,
) -> Result<Group, Stop>
    requires { width ≤ 8 }
    ensures read { Takes (read (natural width wrong low high (λ _. says (record { version = version; field = End })))
        cursor.old) cursor.new result }
    ensures inside { IfOk result (λ g. IsFieldIn g.field) }
{
    cursor.natural(width, wrong, low, high)?;
    let field = Field::End;
    Ok(Group { version, field })
}

/// The greatest size of a bound.
const BOUND_MOST: i128 = 1_000_000_000_000_000_000_000_000_000_000_000_000;

/// The next item of the context's phase.
pub fn read_group(cursor: &mut Cursor<'_>, context: &Context) -> Result<Group, Stop>
    requires { IsContext context.now }
    ensures read { Takes (read (format_of context.now context.now.phase) cursor.old) cursor.new result }
    ensures inside { IfOk result (λ g. IsFieldIn g.field) }
{
    let version = context.version;
    match context.phase {
        Phase::Head => head(cursor),
        Phase::Assets => asset(cursor, version, context.lots),
        Phase::Correlations => {
            let rho = cursor.signed(4, -1_000_000, 1_000_000)? as i32;
            Ok(Group {
                version,
                field: Field::Correlation { rho },
            })
        }
        Phase::Factor => {
            let r = cursor.signed(8, -1_000_000_000_000_000, 1_000_000_000_000_000)? as i64;
            Ok(Group {
                version,
                field: Field::FactorEntry { r },
            })
        }
        Phase::Diagonal => {
            let d = cursor.signed(16, 0, 1_000_000_000_000_000_000_000)?;
            Ok(Group {
                version,
                field: Field::ShiftEntry { d },
            })
        }
        Phase::Sections => {
            let count = cursor.natural(1, CertKind::Range, 1, 101)? as u8;
            Ok(Group {
                version,
                field: Field::Sections { count },
            })
        }
        Phase::Section => section_start(cursor, version),
        Phase::Portfolio => portfolio(cursor, context),
        Phase::Objective => {
            let value = cursor.signed(16, i128::MIN, i128::MAX)?;
            Ok(Group {
                version,
                field: Field::Objective(value),
            })
        }
        Phase::Bound => {
            let value = cursor.signed(16, -BOUND_MOST, BOUND_MOST)?;
            Ok(Group {
                version,
                field: Field::Bound(value),
            })
        }
        Phase::Overall => overall(cursor, context),
        Phase::Node => node(cursor, context),
        Phase::End => end(cursor, version, CertKind::Range, 4, END_MARK, END_MARK),
        Phase::Over => end(cursor, version, CertKind::Trail, 1, 1, 0),
    }
}

/// The number of the end mark, `END` and a line feed.
const END_MARK: u64 = 0x454e_440a;
