//! What holds of networks that pass as they stand.

ghost use Rattle.std.specs.Prelude.{◌≡◌, length, List};
ghost use Rattle.cop_frame.specs.declared.rates.Rate.{Rate};
ghost use Rattle.cop_rta.specs.declared.streams.Stream.{Stream};
ghost use Rattle.cop_cert.specs.Assignments.{IsAssignment, IsPassing};
ghost use Rattle.cop_net.specs.Network.{Net, IsNetwork};
ghost use Rattle.cop_standing.specs.Answers.{AllPassNow};
ghost use Rattle.cop_standing.specs.Identifiers.{standing_id, StandAs};

/// Where a network passes as it stands at a rate, its identifiers are a passing assignment there, if a plan may give them: so its plan is no faster.
/// A plan may give 680h to 6DFh where there are at most 96 PDOs.
pub fn what_stands_can_be_planned()
    ensures { (rate : Rate) (net : Net) (streams : List Stream) → IsNetwork net → StandAs net streams → AllPassNow rate streams (length net.rows)
        → IsAssignment (length net.rows) (standing_id net) → IsPassing rate net.set (length net.rows) (standing_id net) }
{}
