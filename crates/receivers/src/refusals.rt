//! Why a receiver does not take a number.
ghost use Rattle.std.specs.Prelude.{◌≡◌};
ghost use Rattle.receivers.specs.Refusals.{cause_of, deeper, layer_of};

/// A layer counts the receivers of a pile from its top, which is layer 1. It stands in each variant:
/// callers match on a refusal, and one pattern names it and its layer. A receiver that refuses by itself says
/// `layer: 1`, which a constant would only hide.
#[derive(Clone, Copy, PartialEq, Eq, Debug)]
pub enum Refusal {
    /// the receiver does not have the setting
    NotFitted { layer: u8 },
    /// it has the setting, but does not take the number
    NotTaken { layer: u8 },
}

impl Refusal {
    /// The number under which the refusal is reported. Those who read the reports fix these numbers.
    pub fn cause(self) -> u8
        ensures { result ≡ cause_of self }
    {
        match self {
            Refusal::NotFitted { .. } => 25,
            Refusal::NotTaken { .. } => 26,
        }
    }

    pub fn layer(self) -> u8
        ensures { result ≡ layer_of self }
    {
        match self {
            Refusal::NotFitted { layer } | Refusal::NotTaken { layer } => layer,
        }
    }

    /// The refusal as it is seen from the layer above. There is no layer above 255.
    pub(crate) fn deeper(self) -> Refusal
        ensures { result ≡ deeper self }
    {
        match self {
            Refusal::NotFitted { layer } => Refusal::NotFitted {
                layer: layer.saturating_add(1),
            },
            Refusal::NotTaken { layer } => Refusal::NotTaken {
                layer: layer.saturating_add(1),
            },
        }
    }
}
