//! What the theorems are over: machines with their events, and in what sense they go along. The members are definitions,
//! not code.

ghost use Rattle.op_simulation.specs.Matching.{Matching};
ghost use Rattle.op_simulation.specs.System.{System};

/// A machine, with what it shows.
pub trait Machine {
    ghost Event: { Type 0 };

    ghost system: { System Event };
}

/// A machine, and a fact on its states.
pub trait Watched {
    ghost Event: { Type 0 };

    ghost system: { System Event };

    ghost holds: { system.State → Type 0 };
}

/// Two machines, and in what sense the lower one goes along with the upper one.
pub trait Layer {
    ghost Above: { Type 0 };

    ghost Below: { Type 0 };

    ghost top: { System Above };

    ghost bottom: { System Below };

    ghost matching: { Matching top bottom };
}

/// Two machines, and a fact on the states of the lower one.
pub trait WatchedLayer {
    ghost Above: { Type 0 };

    ghost Below: { Type 0 };

    ghost top: { System Above };

    ghost bottom: { System Below };

    ghost matching: { Matching top bottom };

    ghost holds: { bottom.State → Type 0 };
}

/// Three machines, one above the other.
pub trait TwoLayers {
    ghost Above: { Type 0 };

    ghost Between: { Type 0 };

    ghost Below: { Type 0 };

    ghost top: { System Above };

    ghost middle: { System Between };

    ghost bottom: { System Below };

    ghost upper: { Matching top middle };

    ghost lower: { Matching middle bottom };
}

/// Two machines, and two ways to say that the lower one goes along.
pub trait Restated {
    ghost Above: { Type 0 };

    ghost Below: { Type 0 };

    ghost top: { System Above };

    ghost bottom: { System Below };

    ghost strong: { Matching top bottom };

    ghost weak: { Matching top bottom };
}
