//! A part of a band.
ghost use Rattle.std.specs.Prelude.{◌≡◌, ◌+◌, ◌≤◌};
ghost use Rattle.band_plan.specs.Pieces.{half_of};

/// A part of a band of one channel: `n` coefficients from `offset` on, of so many blocks.
#[derive(Clone, Copy)]
pub struct Piece {
    pub band: u8,
    pub channel: u8,
    pub offset: u32,
    pub n: u32,
    pub blocks: u32,
}

/// A half of a part.
#[tactic(auto, unfolding(crate::specs::Pieces::half_of))]
pub fn half(piece: Piece, second: bool) -> Piece
    requires offset { piece.offset + piece.n ≤ 65536 }
    requires blocks { piece.blocks ≤ 65536 }
    ensures { result ≡ half_of piece second }
{
    let n = piece.n / 2;
    Piece {
        band: piece.band,
        channel: piece.channel,
        offset: if second {
            piece.offset + n
        } else {
            piece.offset
        },
        n,
        blocks: (piece.blocks + 1) / 2,
    }
}
