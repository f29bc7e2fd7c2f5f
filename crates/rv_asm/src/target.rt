// The targets of jumps and branches.
ghost use Rattle.std.specs.Prelude.{◌≡◌};
ghost use Rattle.rv_asm.specs.Targets.{target, to_label, distance};
ghost use Rattle.rv_asm.specs.Seen.{scope_seen};

use crate::bytes::without_front;
use crate::fault::AsmKind;
use crate::labels::{Labels, place_of};
use crate::line::is_label;
use crate::number::{immediate_number, nearest};

/// Where a line stands: the words in front of it, and the labels of the source.
#[derive(Clone, Copy)]
pub(crate) struct Scope<'a> {
    pub(crate) place: u32,
    pub(crate) labels: &'a Labels<'a>,
}

/// A target, as a distance in bytes: a number behind `.+` or `.-`, or a label.
pub(crate) fn target(scope: &Scope, text: &[u8]) -> Result<i32, AsmKind>
    ensures { result ≡ target (scope_seen scope.now) text.now }
{
    if let Some(size) = without_front(b".+", text) {
        return immediate_number(size);
    }
    if let Some(size) = without_front(b".-", text) {
        return Ok(-immediate_number(size)?);
    }
    to_label(scope, text)
}

/// The distance to a label.
fn to_label(scope: &Scope, text: &[u8]) -> Result<i32, AsmKind>
    ensures { result ≡ to_label (scope_seen scope.now) text.now }
{
    if !is_label(text) {
        return Err(AsmKind::Operand);
    }
    match place_of(scope.labels, text) {
        Some(place) => Ok(distance(scope.place, place.words)),
        None => Err(AsmKind::Label),
    }
}

/// How many bytes one place in words is from another, or the nearest that 32 bits hold.
fn distance(from: u32, to: u32) -> i32
    ensures { result ≡ distance from to }
{
    nearest(4 * i64::from(to) - 4 * i64::from(from))
}
