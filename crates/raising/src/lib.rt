// Cores: the peel gone on to greater needs.
#![tactic(auto)]

ghost use Rattle.std.specs.Prelude.{◌≤◌};

mod needs;
mod recounts;
mod thins;

use peeling::Scope;

// What is asked, raised: from what a scope asks to needs that are not less.
#[derive(Clone, Copy, PartialEq, Eq, Debug)]
pub struct Step {
    pub scope: Scope,
    pub x: usize,
    pub y: usize,
    pub ghost more: { (scope.x ≤ x) × (scope.y ≤ y) },
}

pub use needs::{advance, tighten, whole};
pub use thins::whole_from;
