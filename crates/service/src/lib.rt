// What is asked of an analyser in service and how it is answered; in specs/ its rule and the law over histories, in proofs/ the law's proof.
#![tactic(auto)]

mod answer;
mod event;
mod progress;
mod record;
mod refusal;
mod standing;

pub use answer::{Answer, Letter, Sign};
pub use event::Event;
pub use progress::Progress;
pub use record::{Record, Stage};
pub use refusal::Refusal;
pub use standing::Standing;
