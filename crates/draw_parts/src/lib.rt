//! The parts of a picture, each drawn where its layout has it.
//!
//! What the steps stand on (`ground`): the lines of the text (`schedule`), what the words held (`band`), and the lanes of the parties
//! (`lane`), with what these do beside the objects (`aside`). On it each step (`step`), and below the last words and the legend (`foot`).
//!
//! They are made of rectangles, lines, circles, ways and words (`shape`), which look alike in a light and in a dark page (`style`).
//! What the signs mean says the `legend`.
#![tactic(auto)]

mod aside;
mod band;
pub mod foot;
pub mod ground;
mod lane;
mod legend;
mod schedule;
mod shape;
mod signs;
pub mod step;
mod style;
