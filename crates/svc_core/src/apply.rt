//! What a change's delta does to the writer's stores and to the ranges that the cache lacks.
ghost use Rattle.std.specs.Prelude.{◌≡◌, All};
ghost use Rattle.var_trace.specs.Pieces.{with_change, with_piece, with_pieces};
ghost use Rattle.var_types.specs.Stores.{HaveSizes};
ghost use Rattle.svc_core.specs.Plan.{IsInStore};
ghost use Rattle.svc_core.specs.Ranges.{covering};

use pending_range::Ranges;
use runtime_cache::Cache;
use var_trace::{Delta, Piece};

#[tactic(auto, unfolding(var_trace::specs::Pieces::with_piece))]
fn write_piece(stores: &mut Cache, piece: &Piece)
    requires sizes { HaveSizes stores.old }
    requires inside { IsInStore piece.now }
    ensures is { stores.new ≡ with_piece stores.old piece.now }
    ensures sizes { HaveSizes stores.new }
{
    stores.write(piece.store, piece.at, piece.bytes.as_slice());
}

fn write_pieces(stores: &mut Cache, pieces: &[Piece])
    requires sizes { HaveSizes stores.old }
    requires inside { All IsInStore pieces.now }
    ensures { stores.new ≡ with_pieces stores.old pieces.now }
{
    for piece in pieces {
        write_piece(stores, piece);
    }
}

/// Turns the stores into those behind a change.
#[tactic(auto, unfolding(var_trace::specs::Pieces::with_change))]
pub(crate) fn apply(stores: &mut Cache, delta: &Delta)
    requires sizes { HaveSizes stores.old }
    requires inside { All IsInStore delta.now.pieces }
    ensures { stores.new ≡ with_change stores.old delta.now }
{
    write_pieces(stores, delta.pieces());
    stores.turn(delta.phase());
}

/// Lets ranges cover the places of a change too.
pub(crate) fn cover(ranges: &mut Ranges, delta: &Delta)
    requires { All IsInStore delta.now.pieces }
    ensures { ranges.new ≡ covering ranges.old delta.now.pieces }
{
    for piece in delta.pieces() {
        let to = piece.at + piece.bytes.as_slice().len() as u32;
        ranges.extend(piece.store, piece.at, to);
    }
}
