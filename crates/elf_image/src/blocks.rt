// What an image puts into memory that is zero, block by block.
ghost use Rattle.std.specs.Prelude.{◌≡◌, ◌+◌, ◌<◌, ◌≤◌, ℕ, All, length, take, drop, fold, replicate, slice_get, IfNone, IfSome, Some, option_copied};
ghost use Rattle.rv_step.specs.FlatMem.{zeroed};
ghost use Rattle.elf_image.specs.Image.{LiesInRam};
ghost use Rattle.elf_image.specs.Loading.{unloaded, ram_so_far, bytes_left, PutsBlock, SameRam};
ghost use Rattle.elf_image.specs.Ram.{bytes_of_piece, with_piece};

use crate::layout::RAM_BASE;
use crate::piece::Piece;
use crate::written_pages::{WrittenPages, room_in_page};
use gc_base::limits::{PAGE, RAM_MAX};
use std::marker::Model;

/// As many zeros as a page has bytes.
static ZEROS: [u8; PAGE as usize] = [0; PAGE as usize];

/// So many zeros.
fn zeros(count: u64) -> &'static [u8]
    requires { count ≤ PAGE }
    ensures { result.now ≡ replicate count 0 }
{
    &ZEROS[..count as usize]
}

/// Bytes for an address, all of one page.
#[derive(Clone, Copy, Debug)]
pub struct Block<'a> {
    /// The address of its first byte.
    pub addr: u64,
    pub bytes: &'a [u8],
}

/// Gives the blocks that load pieces into memory which is zero, in the order in which they are to be put.
///
/// The zeros of a piece are given only in pages into which a block before put bytes.
#[derive(Drop)]
pub struct Blocks<'a> {
    pieces: &'a [Piece],
    /// How many of the pieces are loaded whole.
    whole: usize,
    /// How many bytes of the next piece are loaded.
    done: u64,
    written: WrittenPages,
}

impl<'a> Model for Blocks<'a> {
    ghost use Rattle.elf_image.specs.Loading.{Loading, IsTracked};

    ghost Value = { Loading };

    ghost view = { λ b. record { pieces = b.pieces.now; whole = b.whole; done = b.done } };

    ghost invariant = { λ b. IsTracked (record { pieces = b.pieces.now; whole = b.whole; done = b.done }) b.written.pages };
}

impl<'a> Blocks<'a> {
    /// The blocks of pieces, which lie in the largest RAM, none given yet.
    pub fn new(pieces: &'a [Piece]) -> Blocks<'a>
        requires { All (LiesInRam RAM_MAX) pieces.now }
        ensures start { result ≡ unloaded pieces.now }
        ensures zero { (ram : ℕ) → ram_so_far result ram ≡ zeroed ram }
    {
        Blocks {
            pieces,
            whole: 0,
            done: 0,
            written: WrittenPages::new(),
        }
    }

    /// The next block to be put, or `None`, where all pieces are loaded.
    pub fn next(&mut self) -> Option<Block<'a>>
        ensures pieces { self.new.pieces ≡ self.old.pieces }

        // a block is a step of loading, in RAM of each size in which the pieces lie
        ensures put { IfSome result (λ block. (ram : ℕ) → All (LiesInRam ram) self.old.pieces
            → PutsBlock ram block.addr block.bytes.now self.old self.new) }
        ensures some { IfSome result (λ block. 0 < length block.bytes.now) }
        ensures short { IfSome result (λ block. length block.bytes.now ≤ PAGE) }
        ensures fewer { IfSome result (λ _. bytes_left self.new < bytes_left self.old) }

        // at the end RAM is what the pieces make of it
        ensures end { IfNone result ((ram : ℕ) → All (LiesInRam ram) self.old.pieces
            → ram_so_far self.old ram ≡ fold with_piece (zeroed ram) self.old.pieces) }
    {
        while let Some(piece) = self.piece() {
            if let Some(block) = self.block_of(piece) {
                return Some(block);
            }
            self.pass(piece);
        }
        None
    }

    /// The piece that is loaded next.
    fn piece(&self) -> Option<&'a Piece>
        ensures next { option_copied result ≡ slice_get self.now.pieces self.now.whole }
        ensures lies { IfSome result (λ piece. LiesInRam RAM_MAX piece.now) }
    {
        self.pieces.get(self.whole)
    }

    /// The next block of a piece, if one is left.
    fn block_of(&mut self, piece: &'a Piece) -> Option<Block<'a>>
        requires next { slice_get self.old.pieces self.old.whole ≡ Some piece.now }
        requires lies { LiesInRam RAM_MAX piece.now }
        ensures moved { self.new ≡ record self.old { done = self.new.done } }
        ensures least { self.old.done ≤ self.new.done }
        ensures put { IfSome result (λ block. (ram : ℕ) → All (LiesInRam ram) self.old.pieces
            → PutsBlock ram block.addr block.bytes.now self.old self.new) }
        ensures some { IfSome result (λ block. 0 < length block.bytes.now) }
        ensures short { IfSome result (λ block. length block.bytes.now ≤ PAGE) }
        ensures fewer { IfSome result (λ _. bytes_left self.new < bytes_left self.old) }
        ensures end { IfNone result (self.new.done ≡ length (bytes_of_piece piece.now)) }
        ensures same { IfNone result (SameRam self.old self.new) }
    {
        if self.done < piece.bytes.items().len() as u64 {
            return Some(self.own_bytes(piece));
        }
        self.skip_zeros(piece);
        if self.done == piece.size() {
            return None;
        }
        Some(self.zeros(piece))
    }

    /// As many of a piece's own bytes as lie in the next one's page.
    fn own_bytes(&mut self, piece: &'a Piece) -> Block<'a>
        requires next { slice_get self.old.pieces self.old.whole ≡ Some piece.now }
        requires lies { LiesInRam RAM_MAX piece.now }
        requires more { self.old.done < length piece.now.bytes }
        ensures moved { self.new ≡ record self.old { done = self.old.done + length result.bytes.now } }
        ensures addr { result.addr ≡ piece.now.addr + self.old.done }
        ensures bytes { result.bytes.now ≡ take (length result.bytes.now) (drop self.old.done (bytes_of_piece piece.now)) }
        ensures some { 0 < length result.bytes.now }
        ensures short { length result.bytes.now ≤ PAGE }
    {
        let own = piece.bytes.items();
        let from = self.done as usize;
        let addr = piece.addr + self.done;
        let count = room_in_page(addr - RAM_BASE).min((own.len() - from) as u64);
        self.written.mark(addr - RAM_BASE);
        self.done += count;
        Block {
            addr,
            bytes: &own[from..from + count as usize],
        }
    }

    /// Passes over a piece's zeros up to the next page that counts as written, or to the piece's end.
    fn skip_zeros(&mut self, piece: &Piece)
        requires next { slice_get self.old.pieces self.old.whole ≡ Some piece.now }
        requires lies { LiesInRam RAM_MAX piece.now }
        requires zeros { length piece.now.bytes ≤ self.old.done }
        ensures moved { self.new ≡ record self.old { done = self.new.done } }
        ensures least { self.old.done ≤ self.new.done }
        ensures most { self.new.done ≤ length (bytes_of_piece piece.now) }
        ensures same { SameRam self.old self.new }
    {
        let start = piece.addr - RAM_BASE;
        let place = self
            .written
            .first_from(start + self.done, start + piece.size());
        self.done = place - start;
    }

    /// As many of a piece's zeros as lie in the next one's page. Where they fill it, it counts as written no more.
    fn zeros(&mut self, piece: &Piece) -> Block<'a>
        requires next { slice_get self.old.pieces self.old.whole ≡ Some piece.now }
        requires lies { LiesInRam RAM_MAX piece.now }
        requires zeros { length piece.now.bytes ≤ self.old.done }
        requires more { self.old.done < length (bytes_of_piece piece.now) }
        ensures moved { self.new ≡ record self.old { done = self.old.done + length result.bytes.now } }
        ensures addr { result.addr ≡ piece.now.addr + self.old.done }
        ensures bytes { result.bytes.now ≡ take (length result.bytes.now) (drop self.old.done (bytes_of_piece piece.now)) }
        ensures some { 0 < length result.bytes.now }
        ensures short { length result.bytes.now ≤ PAGE }
    {
        let addr = piece.addr + self.done;
        let count = room_in_page(addr - RAM_BASE).min(piece.size() - self.done);
        if count == PAGE {
            self.written.forget(addr - RAM_BASE);
        }
        self.done += count;
        Block {
            addr,
            bytes: zeros(count),
        }
    }

    /// Goes on to the piece behind one that is loaded.
    fn pass(&mut self, piece: &Piece)
        requires next { slice_get self.old.pieces self.old.whole ≡ Some piece.now }
        requires end { self.old.done ≡ length (bytes_of_piece piece.now) }
        ensures moved { self.new ≡ record self.old { whole = self.old.whole + 1; done = 0 } }
        ensures same { SameRam self.old self.new }
    {
        self.whole += 1;
        self.done = 0;
    }
}
