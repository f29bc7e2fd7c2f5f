// What an image puts into memory.
ghost use Rattle.std.specs.Prelude.{◌≡◌, min, replicate};

use gc_base::Octets;
use std::marker::Model;

/// Zeros that pieces lend, some at a time.
static ZEROS: [u8; 256] = [0; 256];

/// So many zeros, at most as many as are lent at a time.
fn zeros(count: u64) -> &'static [u8]
    ensures { result.now ≡ replicate (min count 256) 0 }
{
    &ZEROS[..count.min(256) as usize]
}

/// Bytes for an address, and zeros behind them.
#[derive(Debug, Drop)]
pub struct Piece {
    /// The address of its first byte.
    pub addr: u64,
    pub bytes: Octets,
    /// How many zero bytes follow its bytes.
    pub zeros: u64,
}

impl Piece {
    ghost use Rattle.std.specs.Prelude.{◌<◌, ◌≤◌, ◌+◌, ◌^◌, length, take, drop, IfNone, IfSome};
    ghost use Rattle.elf_image.specs.Ram.{bytes_of_piece};

    /// How many bytes it puts into memory.
    pub(crate) fn size(&self) -> u64
        requires { length self.now.bytes + self.now.zeros < 2 ^ 64 }
        ensures { result ≡ length (bytes_of_piece self.now) }
    {
        self.bytes.items().len() as u64 + self.zeros
    }

    /// What it puts into memory from one of its bytes on, as many bytes as lie together; none behind its last.
    pub fn block(&self, from: u64) -> Option<&[u8]>
        ensures end { IfNone result (length (bytes_of_piece self.now) ≤ from) }
        ensures some { IfSome result (λ block. 0 < length block.now) }
        ensures bytes { IfSome result (λ block. block.now ≡ take (length block.now) (drop from (bytes_of_piece self.now))) }
    {
        let own = self.bytes.items();
        let size = own.len() as u64;
        if from < size {
            return Some(&own[from as usize..]);
        }
        let left = self.zeros.saturating_sub(from - size);
        if left == 0 {
            return None;
        }
        Some(zeros(left))
    }
}

/// The pieces of an image, in the order in which they are loaded. Contracts see them as a list.
#[derive(Debug, Drop)]
pub struct Pieces {
    items: Vec<Piece>,
}

impl Model for Pieces {
    ghost use Rattle.std.specs.Prelude.{List};
    ghost use Rattle.elf_image.specs.declared.piece.Piece.{Piece};

    ghost Value = { List Piece };

    ghost view = { λ p. p.items.items };
}

impl Pieces {
    /// The pieces of a vector. It takes no memory.
    pub fn new(items: Vec<Piece>) -> Pieces
        ensures { result ≡ items.items }
    {
        Pieces { items }
    }

    /// The pieces, lent.
    pub fn items(&self) -> &[Piece]
        ensures { result.now ≡ self.now }
    {
        self.items.as_slice()
    }
}
