// Which parts a machine takes out of those that it is handed.
ghost use Rattle.std.specs.Prelude.{◌≡◌, ◌≤◌, ◌<◌, ◌∷◌, length, map, IfOk, IfSome, IfNone, slice_index_or};
ghost use Rattle.cfg_tree.specs.Valid.{IsValidConfig};
ghost use Rattle.gm_words.specs.Platform.{platform};
ghost use Rattle.gm_words.specs.Shown.{part_shown};
ghost use Rattle.gm_model.specs.ObjState.{Blank, kind_of, IsBlank};
ghost use Rattle.gm_words.specs.declared.kind.Kind.{Kind};
ghost use Rattle.kernel.specs.Build.{rank_of, parts_of, rows_of, asks_more, is_lacking, lacking, AreBlank, AreDrawn, AreEnough, IsPart};

use crate::boxes::kind_of_box;
use gc_base::NoMemory;
use gm_model::platform::Part;
use gm_model::{Config, Kind};
use obj_core::SimObject;
use std::alloc::Global;

/// The kinds in the order in which a missing one is told.
const KINDS: [Kind; 9] = [
    Kind::AtomicCpu,
    Kind::TimingCpu,
    Kind::Xbar,
    Kind::Cache,
    Kind::Mem,
    Kind::Uart,
    Kind::Timer,
    Kind::Exit,
    Kind::Dma,
];

/// The place of a kind in the order in which a missing one is told.
fn rank(kind: Kind) -> u8
    ensures { result ≡ rank_of kind }
{
    match kind {
        Kind::AtomicCpu => 0,
        Kind::TimingCpu => 1,
        Kind::Xbar => 2,
        Kind::Cache => 3,
        Kind::Mem => 4,
        Kind::Uart => 5,
        Kind::Timer => 6,
        Kind::Exit => 7,
        Kind::Dma => 8,
    }
}

/// How many of the parts are of a kind.
fn count_parts(parts: &[Box<dyn SimObject>], kind: Kind) -> usize
    ensures { result ≡ parts_of kind (map (λ b. state b) parts.now) }
{
    let mut count = 0;
    for i in 0..parts.len() {
        if rank(kind_of_box(&parts[i])) == rank(kind) {
            count += 1;
        }
    }
    count
}

/// How many rows of the platform are of a kind.
fn count_rows(rows: &[Part], kind: Kind) -> usize
    ensures { result ≡ rows_of kind (map part_shown rows.now) }
{
    let mut count = 0;
    for i in 0..rows.len() {
        if rank(rows[i].own.kind()) == rank(kind) {
            count += 1;
        }
    }
    count
}

/// The configuration asks for a part of a kind that isn't built yet.
fn asks(c: &Config, kind: Kind) -> bool
    ensures { result ≡ asks_more c.now kind }
{
    match kind {
        Kind::Cache => !c.caches.items().is_empty(),
        Kind::Dma => c.dma.is_some(),
        _ => false,
    }
}

/// There are too few parts of a kind.
fn lacks(c: &Config, rows: &[Part], parts: &[Box<dyn SimObject>], kind: Kind) -> bool
    requires { map part_shown rows.now ≡ platform c.now }
    ensures { result ≡ is_lacking c.now (map (λ b. state b) parts.now) kind }
{
    asks(c, kind) || count_parts(parts, kind) < count_rows(rows, kind)
}

/// The first kind of which there are too few parts, if there is one.
pub(crate) fn first_lacking(c: &Config, rows: &[Part], parts: &[Box<dyn SimObject>]) -> Option<Kind>
    requires { map part_shown rows.now ≡ platform c.now }
    ensures { result ≡ lacking c.now (map (λ b. state b) parts.now) }
{
    for kind in KINDS {
        if lacks(c, rows, parts, kind) {
            return Some(kind);
        }
    }
    None
}

/// Where the first part of a kind stands, if there is one.
fn find_kind(parts: &[Box<dyn SimObject>], kind: Kind) -> Option<usize>
    ensures within { IfSome result (λ i. i < length parts.now) }
    ensures kind { IfSome result (λ i.
        rank_of (kind_of (slice_index_or (map (λ b. state b) parts.now) i (Blank kind))) ≡ rank_of kind) }
    ensures none { IfNone result (parts_of kind (map (λ b. state b) parts.now) ≡ 0) }
{
    for i in 0..parts.len() {
        if rank(kind_of_box(&parts[i])) == rank(kind) {
            return Some(i);
        }
    }
    None
}

/// Takes the first part of a kind out.
fn take_kind(parts: &mut Vec<Box<dyn SimObject>>, kind: Kind) -> Box<dyn SimObject>
    requires blank { AreBlank (map (λ b. state b) parts.old.items) }
    requires there { 1 ≤ parts_of kind (map (λ b. state b) parts.old.items) }
    ensures part { IsPart kind (state result) }
    ensures blank { AreBlank (map (λ b. state b) parts.new.items) }
    ensures others { (k : Kind) → parts_of k (map (λ b. state b) parts.old.items)
        ≡ parts_of k (state result ∷ map (λ b. state b) parts.new.items) }
{
    match find_kind(parts.as_slice(), kind) {
        Some(i) => parts.remove(i),
        None => unreachable!(),
    }
}

/// For each row of the platform, in order, the first part of its kind that is left.
pub(crate) fn draw(
    alloc: Global,
    rows: &[Part],
    parts: Vec<Box<dyn SimObject>>,
) -> Result<Vec<Box<dyn SimObject>>, NoMemory>
    requires blank { AreBlank (map (λ b. state b) parts.items) }
    requires enough { AreEnough (map (λ b. state b) parts.items) (map part_shown rows.now) }
    ensures { IfOk result (λ v. AreDrawn (map (λ b. state b) v.items) (map part_shown rows.now)) }
{
    let mut parts = parts;
    let mut drawn = Vec::new(alloc);
    for i in 0..rows.len() {
        drawn.push(take_kind(&mut parts, rows[i].own.kind()))?;
    }
    Ok(drawn)
}
