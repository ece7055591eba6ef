//! A fold over events beside two machines, of which one goes along with the other.

ghost use Rattle.op_simulation.specs.Beside.{Fold, beside_too};
ghost use Rattle.op_simulation.specs.Matching.{Follows, Matching};
ghost use Rattle.op_simulation.specs.System.{System};
ghost use Rattle.std.specs.Prelude.{List, ◌≡◌, ◌≤◌};

/// Two machines that show the same events, and a fold over these.
pub trait FoldedLayer {
    ghost Event: { Type 0 };

    ghost top: { System Event };

    ghost bottom: { System Event };

    ghost matching: { Matching top bottom };

    ghost fold: { Fold Event };
}

/// A machine that follows another one, and shows the same, follows it with the same fold beside both: it stops where the other one stops.
pub fn folds_lift<L: FoldedLayer>()
    ensures lift { ((es fs : List L.Event) → L.matching.traces es fs → es ≡ fs) → 1 ≤ L.matching.factor → Follows L.matching → Follows (beside_too L.matching L.fold) }
{}
