// The labels of a source.
ghost use Rattle.std.specs.Prelude.{◌≡◌, ◌^◌, ◌<◌, ℕ, List, IfOk, OnOk, map, length, Some, None, if◌then◌else◌};
ghost use Rattle.std.specs.Option.{option_or};
ghost use Rattle.std.specs.Str.{bytes_eq};
ghost use Rattle.rv_asm.specs.Labels.{labels_from, place_of};
ghost use Rattle.rv_asm.specs.Seen.{line_seen, labels_seen};

use crate::line::Line;
use crate::place::Place;
use std::alloc::{AllocFailed, Global};
use std::collections::HashMap;

/// Where each label of a source is given first.
#[derive(Drop)]
pub(crate) struct Labels<'a> {
    pub(crate) places: HashMap<&'a [u8], Place>,
}

/// The labels of a source's lines.
pub(crate) fn labels_of<'a>(
    alloc: Global,
    lines: &[Line<'a>],
) -> Result<Labels<'a>, AllocFailed<(&'a [u8], Place)>>
    requires { length lines.now < 2 ^ 32 }
    ensures { IfOk result (λ labels. (name : List ℕ) → labels_seen labels name ≡ place_of (labels_from 1 0 (map line_seen lines.now)) name) }
{
    let mut labels = Labels {
        places: HashMap::new(alloc),
    };
    let mut place = Place { line: 0, words: 0 };
    for line in lines {
        place.line += 1;
        match *line {
            Line::Blank => {}
            Line::Label(name) => add(&mut labels, name, place)?,
            Line::Instruction(..) => place.words += 1,
        }
    }
    Ok(labels)
}

/// Gives a label, unless it is given already.
fn add<'a>(
    labels: &mut Labels<'a>,
    name: &'a [u8],
    place: Place,
) -> Result<(), AllocFailed<(&'a [u8], Place)>>
    ensures { OnOk result ((other : List ℕ) → labels_seen labels.new other ≡ option_or (labels_seen labels.old other) (if bytes_eq name.now other then Some place else None)) }
{
    if labels.places.contains_key(&name) {
        return Ok(());
    }
    labels.places.insert(name, place)?;
    Ok(())
}

/// Where a label is given first.
pub(crate) fn place_of(labels: &Labels, name: &[u8]) -> Option<Place>
    ensures { result ≡ labels_seen labels.now name.now }
{
    labels.places.get(&name).copied()
}
