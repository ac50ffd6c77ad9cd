//! The machine over decoded cells: it runs a program whose instructions were decoded once.
#![tactic(auto)]

mod access;
mod act;
mod begin;
mod boot;
mod burst;
mod calls;
mod device;
mod did;
mod edges;
mod facts;
mod frame;
mod invoke;
mod machine;
mod out;
mod outside;
mod paths;
mod pointer;
mod run;
mod serve;
mod slots;
mod spin;
mod state;
mod step;
mod steps;
mod supply;
mod tables;
mod turn;
mod values;
mod watch;

pub use facts::Facts;
pub use machine::{Machine, StepAnswer};
pub use out::Out;
pub use state::Core;
pub use steps::Steps;
pub use tables::{declared_of, externals_of};
pub use turn::Stop;
pub use watch::{Place, Touch};
