// The platform of a machine, as its loop reads it.
ghost use Rattle.std.specs.Prelude.{◌≡◌, ◌≤◌, ◌&&◌, nat_le, length, map, is_some, slice_index_or, Option};
ghost use Rattle.std.specs.Option.{option_map};
ghost use Rattle.rv_step.specs.Flat.{exit_base};
ghost use Rattle.gm_words.specs.Platform.{is_within, wires_of, ways_of};
ghost use Rattle.gm_words.specs.Routes.{destination, routes_of, route_to};
ghost use Rattle.gm_words.specs.Shown.{end_shown, part_shown};
ghost use Rattle.gm_model.specs.Sys.{peer_in};

use gc_base::{ObjId, PortNo};
use gm_model::platform::{EXIT_BASE, End, Part};
use std::marker::Model;

/// What the parts of a machine are, to which peers their ports are wired, and where packets come in that are passed at once.
#[derive(Drop)]
pub struct Board {
    parts: Vec<Part>,
    /// The exit device, if there is one. It is kept, since it is asked before each event.
    exit: Option<ObjId>,
}

impl Model for Board {
    ghost use Rattle.std.specs.Option.{option_map};
    ghost use Rattle.std.specs.Prelude.{◌≡◌, List, map};
    ghost use Rattle.rv_step.specs.Flat.{exit_base};
    ghost use Rattle.gm_words.specs.Platform.{Part as ModelPart};
    ghost use Rattle.gm_words.specs.Routes.{destination, routes_of};
    ghost use Rattle.gm_words.specs.Shown.{part_shown};

    ghost Value = { List ModelPart };

    ghost view = { λ b. map part_shown b.parts.items };

    ghost invariant = { λ b. option_map (λ o. o.0) b.exit ≡ destination (routes_of 0 (map part_shown b.parts.items)) exit_base };
}

impl Board {
    /// The board of the rows of a platform.
    pub(crate) fn new(rows: Vec<Part>) -> Board
        requires few { length rows.items ≤ 256 }
        ensures { result ≡ map part_shown rows.items }
    {
        let exit = exit_of(rows.as_slice());
        Board { parts: rows, exit }
    }

    /// The peer of a port; one that isn't wired is its own.
    #[inline(always)]
    pub(crate) fn peer(&self, part: ObjId, port: PortNo) -> End
        ensures { end_shown result ≡ peer_in (wires_of self.now) part.0 port.0 }
    {
        peer_of(self.parts.as_slice(), part, port)
    }

    /// Where a packet comes in that a part passes at once from a port.
    #[inline(always)]
    pub(crate) fn way(&self, part: ObjId, port: PortNo) -> End
        ensures { end_shown result ≡ peer_in (ways_of self.now) part.0 port.0 }
    {
        way_of(self.parts.as_slice(), part, port)
    }

    /// The part to which the exit device's address goes, if there is one.
    #[inline(always)]
    pub(crate) fn exit(&self) -> Option<ObjId>
        ensures { option_map (λ o. o.0) result ≡ destination (routes_of 0 self.now) exit_base }
    {
        self.exit
    }
}

/// The peer of a port of one of the rows; one that isn't wired is its own.
#[inline(always)]
fn peer_of(rows: &[Part], part: ObjId, port: PortNo) -> End
    ensures { end_shown result ≡ peer_in (wires_of (map part_shown rows.now)) part.0 port.0 }
{
    if (part.0 as usize) < rows.len() {
        end_of(rows[part.0 as usize].peers.as_slice(), part, port)
    } else {
        End { part, port }
    }
}

/// Where a packet comes in that the part of one of the rows passes at once from a port.
#[inline(always)]
fn way_of(rows: &[Part], part: ObjId, port: PortNo) -> End
    ensures { end_shown result ≡ peer_in (ways_of (map part_shown rows.now)) part.0 port.0 }
{
    if (part.0 as usize) < rows.len() {
        end_of(rows[part.0 as usize].ways.as_slice(), part, port)
    } else {
        End { part, port }
    }
}

/// Where the port leads to which one of these belongs; a port that has none leads to itself.
#[inline(always)]
fn end_of(ends: &[End], part: ObjId, port: PortNo) -> End
    ensures { end_shown result ≡ slice_index_or (map end_shown ends.now) port.0 (end_shown (record { part = part; port = port })) }
{
    if (port.0 as usize) < ends.len() {
        ends[port.0 as usize]
    } else {
        End { part, port }
    }
}

/// The part to which the exit device's address goes, if there is one.
fn exit_of(rows: &[Part]) -> Option<ObjId>
    requires { length rows.now ≤ 256 }
    ensures { option_map (λ o. o.0) result ≡ destination (routes_of 0 (map part_shown rows.now)) exit_base }
{
    for i in 0..rows.len() {
        if has_exit(&rows[i]) {
            return Some(ObjId(i as u8));
        }
    }
    None
}

/// Whether the exit device's address goes to a part.
fn has_exit(row: &Part) -> bool
    ensures { result ≡ is_some (destination (route_to 0 (part_shown row.now).range) exit_base) }
{
    match &row.range {
        Some(range) => range.first <= EXIT_BASE && EXIT_BASE <= range.last,
        None => false,
    }
}
