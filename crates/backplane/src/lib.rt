// A backplane with one thing that one board at a time has, and the lock that goes by it: E is 1, and S is as boards take the thing.
#![tactic(auto)]

mod held_lock;
mod plane;
mod taking;

pub use held_lock::HeldLock;
pub use plane::Backplane;
pub use taking::Taking;
