// Every ring of a network: the links in layers, each of which is the finding of the links still in.
#![tactic(auto)]

mod asks;
mod takes;

pub use asks::layers;
