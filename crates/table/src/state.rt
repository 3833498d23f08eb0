// What a file keeps from command to command: the precision and the allowance that the commands so far have set.

ghost use Rattle.std.specs.Prelude.{◌≡◌, IfOk, IfErr};
ghost use Rattle.table.specs.States.{unset, given_of, needs_settings, with_precision, with_allowance};
ghost use Rattle.table.specs.declared.refusal.Refusal.TheVariants as refusal;

use super::refusal::Refusal;
use plans::plan::Settings;

#[derive(Clone, Copy)]
pub struct State {
    pub precision: Option<f64>,
    pub allowance: Option<u8>,
}

impl State {
    pub fn unset() -> State
        ensures { result ≡ unset }
    {
        State {
            precision: None,
            allowance: None,
        }
    }

    // Both, where both are set.
    #[tactic(auto, unfolding(crate::specs::States::needs_settings, crate::specs::States::given_of))]
    pub fn settings(self) -> Result<Settings, Refusal>
        ensures set { IfOk result (λ s. (self.precision ≡ Some s.precision) × (self.allowance ≡ Some s.allowance)) }
        ensures unset { IfErr result (λ e. (e ≡ refusal.Unset) × (needs_settings (given_of self) ≡ Some refusal.Unset)) }
    {
        match (self.precision, self.allowance) {
            (Some(precision), Some(allowance)) => Ok(Settings {
                precision,
                allowance,
            }),
            _ => Err(Refusal::Unset),
        }
    }

    #[tactic(auto, unfolding(crate::specs::States::with_precision))]
    pub fn with_precision(self, precision: f64) -> State
        ensures { result ≡ with_precision self precision }
    {
        State {
            precision: Some(precision),
            allowance: self.allowance,
        }
    }

    #[tactic(auto, unfolding(crate::specs::States::with_allowance))]
    pub fn with_allowance(self, allowance: u8) -> State
        ensures { result ≡ with_allowance self allowance }
    {
        State {
            precision: self.precision,
            allowance: Some(allowance),
        }
    }
}
