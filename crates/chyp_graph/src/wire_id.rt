// Numbers of wires.
use std::marker::Model;

/// The number of a wire of a graph, from 0.
#[derive(Clone, Copy, Debug, Default, PartialEq, Eq)]
pub struct WireId(pub u32);

impl Model for WireId {
    ghost use Rattle.std.specs.Prelude.{ℕ};

    ghost Value = { ℕ };

    ghost view = { λ id. id.0 };

    ghost inverse = { λ n. record { 0 = n } };
}
