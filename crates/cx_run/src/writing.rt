//! The writing of a report to the two sinks.
ghost use Rattle.std.specs.Prelude.{◌≡◌, ℕ, List as Items, [], ◌∷◌, take, OnOk, OnErr, IfErr};
ghost use Rattle.cx_run.specs.declared.report.ReportPiece.{ReportPiece as APiece};
ghost use Rattle.cx_run.specs.Written.{IsFaultless, IsFront, Took, sinks};
ghost use Rattle.cx_run.specs.Shapes.Stops.{HasFaultsOfStop, TookFirst, TookFront};

use crate::report::{ReportPiece, SinkName};
use cx_base::{Lost, Sink, write_whole};

/// Where and why a writing stopped.
#[derive(Clone, Copy, Debug)]
pub(crate) struct Stop {
    pub(crate) sink: SinkName,
    pub(crate) lost: Lost,
}

// Writes a piece to its sink.
fn write_piece<O: Sink, E: Sink>(piece: &ReportPiece, out: &mut O, err: &mut E) -> Result<(), Stop>
    ensures whole { OnOk result (Took
        (sinks (O.state out.old) (E.state err.old))
        (sinks (O.state out.new) (E.state err.new)) (piece.now ∷ [])) }
    ensures front { OnErr result (TookFirst
        (sinks (O.state out.old) (E.state err.old))
        (sinks (O.state out.new) (E.state err.new)) piece.now) }
    ensures goes { IfErr result (λ stop. stop.sink ≡ piece.now.sink) }
    ensures faultless { OnOk result (IsFaultless
        (sinks (O.state out.old) (E.state err.old))
        (sinks (O.state out.new) (E.state err.new))) }
    ensures faults { IfErr result (λ stop. HasFaultsOfStop stop.sink stop.lost
        (sinks (O.state out.old) (E.state err.old))
        (sinks (O.state out.new) (E.state err.new))) }
{
    match piece.sink {
        SinkName::Out => match write_whole(out, piece.bytes.as_slice()) {
            Ok(()) => Ok(()),
            Err(lost) => Err(Stop {
                sink: SinkName::Out,
                lost,
            }),
        },
        SinkName::Err => match write_whole(err, piece.bytes.as_slice()) {
            Ok(()) => Ok(()),
            Err(lost) => Err(Stop {
                sink: SinkName::Err,
                lost,
            }),
        },
    }
}

/// Writes the pieces in order, up to the first write that is refused.
pub(crate) fn write_pieces<O: Sink, E: Sink>(
    pieces: &[ReportPiece],
    out: &mut O,
    err: &mut E,
) -> Result<(), Stop>
    ensures whole { OnOk result (Took
        (sinks (O.state out.old) (E.state err.old))
        (sinks (O.state out.new) (E.state err.new)) pieces.now) }
    ensures front { IfErr result (λ stop. TookFront
        (sinks (O.state out.old) (E.state err.old))
        (sinks (O.state out.new) (E.state err.new)) pieces.now stop.sink) }
    ensures faultless { OnOk result (IsFaultless
        (sinks (O.state out.old) (E.state err.old))
        (sinks (O.state out.new) (E.state err.new))) }
    ensures faults { IfErr result (λ stop. HasFaultsOfStop stop.sink stop.lost
        (sinks (O.state out.old) (E.state err.old))
        (sinks (O.state out.new) (E.state err.new))) }
{
    for piece in pieces {
        if let Err(stop) = write_piece(piece, out, err) {
            return Err(stop);
        }
    }
    Ok(())
}
