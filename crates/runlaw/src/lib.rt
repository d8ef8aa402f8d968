//! What a run is: its state, what each call leaves and answers, and what holds after any list of calls.
//! The run's code keeps to these definitions, and opening a run promises the law that is proved here.
//! How the law is proved may change unnoticed.

#![tactic(auto)]

pub mod judged;
pub mod shape;
